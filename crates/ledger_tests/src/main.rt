// Plays a table of cases on ledgers of two kinds of row, and prints a line for each.
#![tactic(auto)]

ghost use Rattle.ledger.specs.Books.{book, size};
ghost use Rattle.ledger_tests.specs.Finding.{FoundBy};
ghost use Rattle.std.specs.Prelude.{◌<◌, length};

mod cases;
mod records;

use calculus::row_kinds::{ConceptRow, RoleRow};
use cases::{CASES, Case};
use ledger::{Alike, Ledger, LedgerFault};
use records::Numbered;
use std::io;

/// What a ledger answered: the two last are the first alike the record sought, and the same from 0 once that is appended.
#[derive(Drop)]
struct Outcome {
    // Whether an append was refused: only that is printed.
    refused: bool,
    size: usize,
    count: usize,
    row: Option<u16>,
    alike: Option<usize>,
    appended: Option<usize>,
}

/// Appends the first `n` records, up to the first that is refused.
fn append_all<T: Copy + Numbered>(ledger: &mut Ledger<'_, T>, n: u16) -> Result<(), LedgerFault> {
    for i in 0..n {
        ledger.append(T::nth(i))?;
    }
    Ok(())
}

/// Appends a record, and looks for one alike it from the first place on.
fn append_and_find<T: Copy + Alike>(ledger: &mut Ledger<'_, T>, row: T) -> Option<usize>
    ensures { length (book ledger.old).rows < size (book ledger.old) → FoundBy result (length (book ledger.old).rows) }
{
    ledger.append(row).ok()?;
    ledger.first_alike(0, &row)
}

fn play<T: Copy + Alike + Numbered>(slots: &mut [T], case: &Case) -> Outcome {
    let mut ledger = Ledger::empty(slots);
    let first = append_all(&mut ledger, case.first);
    ledger.cut_back(case.kept);
    let then = append_all(&mut ledger, case.then);
    let sought = T::nth(case.sought);
    Outcome {
        refused: first.is_err() || then.is_err(),
        size: ledger.size(),
        count: ledger.count(),
        row: ledger.row(case.row).ok().map(|row| row.number()),
        alike: ledger.first_alike(case.from, &sought),
        appended: append_and_find(&mut ledger, sought),
    }
}

fn report<T: Copy + Alike + Numbered>(
    rt: &HostRuntime,
    slots: &mut [T],
    kind: &str,
    case: &Case,
) -> io::Result<()> {
    let Case {
        name,
        row: n,
        from,
        sought,
        ..
    } = case;
    let Outcome {
        refused,
        size,
        count,
        row,
        alike,
        appended,
    } = play(slots, case);
    println!(rt;
        "{name}, {kind}: size {size}, rows {count}, refused {refused}, row {n} {row:?}, first alike {sought} from {from} {alike:?}, once appended {appended:?}"
    )
}

fn main(rt: HostRuntime) -> io::Result<()> {
    for case in &CASES {
        let mut concepts = vec![in rt.alloc(); ConceptRow::nth(0); case.slots]?;
        report(&rt, &mut concepts, "concept rows", case)?;
        let mut roles = vec![in rt.alloc(); RoleRow::nth(0); case.slots]?;
        report(&rt, &mut roles, "role rows", case)?;
    }
    Ok(())
}
