// Prints what a base answers, a line for each row: its numbers in the order in which a case file has them. The runtime is passed
// to each call that prints, as everywhere in the language.
// The numbers are read off the rows here anew, so that the test depends on no other reading of them.
use kb::axioms::{Assertion, Key, RolePairs};
use kb::base::Base;
use kb::fault::RowList;
use kb::lexicon::Entry;
use std::io;

fn entry_numbers(row: Entry) -> [u16; 3] {
    match row {
        Entry::Top => [0, 0, 0],
        Entry::Name => [1, 0, 0],
        Entry::Both(c, d) => [2, c.0, d.0],
        Entry::Some(r, c) => [3, r.0, c.0],
        Entry::Unlisted(kind) => [kind, 0, 0],
    }
}

fn assertion_numbers(row: Assertion) -> [u16; 4] {
    match row {
        Assertion::Is(c, x) => [0, c.0, x.0, 0],
        Assertion::Joins(r, x, y) => [1, r.0, x.0, y.0],
        Assertion::Same(x, y) => [2, x.0, y.0, 0],
        Assertion::Different(x, y) => [3, x.0, y.0, 0],
        Assertion::Unlisted(kind) => [kind, 0, 0, 0],
    }
}

// The count of pairs, and the numbers of four: those that are not there are 0.
fn pairs_numbers(pairs: RolePairs) -> [u16; 9] {
    let list = pairs.list();
    let mut numbers = [0; 9];
    numbers[0] = list.len() as u16;
    let (places, _) = numbers[1..].as_chunks_mut();
    for (place, pair) in places.iter_mut().zip(list.iter()) {
        *place = [pair.left.0, pair.right.0];
    }
    numbers
}

fn key_numbers(row: Key) -> ([u16; 2], [u16; 9]) {
    match row {
        Key::Link(c, d, pairs) => ([c.0, d.0], pairs_numbers(pairs)),
        Key::Unlisted(count) => ([0, 0], [count, 0, 0, 0, 0, 0, 0, 0, 0]),
    }
}

/// A line for row `n` of a list.
fn show_row<B: Base>(rt: &HostRuntime, base: &B, list: RowList, n: usize) -> io::Result<()> {
    match list {
        RowList::Entries => match base.entry(n) {
            Ok(row) => println!(rt; "  entry {n}: {:?}", entry_numbers(row)),
            Err(_) => println!(rt; "  no entry {n}"),
        },
        RowList::Assertions => match base.assertion(n) {
            Ok(row) => println!(rt; "  assertion {n}: {:?}", assertion_numbers(row)),
            Err(_) => println!(rt; "  no assertion {n}"),
        },
        RowList::Inclusions => match base.inclusion(n) {
            Ok(row) => println!(rt; "  inclusion {n}: {:?}", [row.sub.0, row.sup.0]),
            Err(_) => println!(rt; "  no inclusion {n}"),
        },
        RowList::Keys => match base.key(n) {
            Ok(row) => println!(rt; "  key {n}: {:?}", key_numbers(row)),
            Err(_) => println!(rt; "  no key {n}"),
        },
    }
}

/// A line for each of these rows.
pub fn show_rows<B: Base>(
    rt: &HostRuntime,
    base: &B,
    list: RowList,
    numbers: &[usize],
) -> io::Result<()> {
    for n in numbers {
        show_row(rt, base, list, *n)?;
    }
    Ok(())
}

/// A line with a name and the six counts.
pub fn show_counts<B: Base>(rt: &HostRuntime, name: &str, base: &B) -> io::Result<()> {
    let n = base.counts();
    println!(rt;
        "{name}: counts {:?}",
        [
            n.entries,
            n.roles,
            n.individuals,
            n.assertions,
            n.inclusions,
            n.keys
        ]
    )
}

/// A line for each row of a list, and one for the number behind the last.
fn show_list<B: Base>(rt: &HostRuntime, base: &B, list: RowList) -> io::Result<()> {
    for n in 0..usize::from(base.counts().of(list)) + 1 {
        show_row(rt, base, list, n)?;
    }
    Ok(())
}

/// The counts and every row.
pub fn show_base<B: Base>(rt: &HostRuntime, name: &str, base: &B) -> io::Result<()> {
    show_counts(rt, name, base)?;
    for list in [
        RowList::Entries,
        RowList::Assertions,
        RowList::Inclusions,
        RowList::Keys,
    ] {
        show_list(rt, base, list)?;
    }
    Ok(())
}

/// The counts, and what is left of three lists from row 65,532 on.
pub fn show_last<B: Base>(rt: &HostRuntime, name: &str, base: &B) -> io::Result<()> {
    show_counts(rt, name, base)?;
    for list in [RowList::Assertions, RowList::Inclusions, RowList::Keys] {
        show_rows(rt, base, list, &[65_532, 65_533, 65_534, 65_535])?;
    }
    Ok(())
}
