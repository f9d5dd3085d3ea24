// The limits of an inventory and of the layers: the last that is accepted and the first that is not.
use crate::many::Many;
use crate::pile::COLUMNS;
use crate::show::{show_base, show_counts, show_last, show_rows};
use inventory::{Inventory, Record};
use join::Join;
use kb::axioms::{Inclusion, RolePair, RolePairs};
use kb::base::Base;
use kb::fault::RowList;
use kb::lexicon::Entry;
use kb::names::{Concept, Individual, Role};
use kb::statement::Statement;
use layers::fault::LayerFault;
use layers::question::Question;
use layers::rules::Rules;
use std::{fmt, io};

const RECORD: Record = Record {
    class: Concept(2),
    issuer: 0,
    serial: 139,
    public_key: 65_535,
};

const LEXICON: [Entry; 2] = [Entry::Top, Entry::Name];

/// So many records and values.
const SIZES: [(usize, usize); 6] = [
    (0, 0),
    (1, 140),
    (100, 140),
    (101, 140),
    (100, 141),
    (101, 141),
];

fn pair(n: u16) -> RolePair {
    RolePair {
        left: Role(n),
        right: Role(n.saturating_add(10)),
    }
}

fn inventory(rt: &HostRuntime, count: usize, values: usize) -> io::Result<()> {
    println!(rt; "{count} records and {values} values")?;
    let records = vec![in rt.alloc(); RECORD; count]?;
    let base = Inventory::new(&LEXICON, 3, COLUMNS, records.as_slice(), values);
    show_counts(rt, "inventory", &base)?;
    show_rows(rt, &base, RowList::Entries, &[1])?;
    show_rows(rt, &base, RowList::Assertions, &[0, 1, 2, 3, 399, 400])
}

fn long_lexicon(rt: &HostRuntime) -> io::Result<()> {
    let long = vec![in rt.alloc(); Entry::Name; 65_536]?;
    let base = Inventory::new(long.as_slice(), 65_535, COLUMNS, &[], 0);
    show_counts(rt, "inventory with 65,536 entries", &base)?;
    show_rows(rt, &base, RowList::Entries, &[65_534, 65_535])
}

/// Inventories at and above their limits, and one with a lexicon that is cut.
pub fn inventories(rt: &HostRuntime) -> io::Result<()> {
    for (count, values) in SIZES {
        inventory(rt, count, values)?;
    }
    long_lexicon(rt)
}

/// The answer of an addition, printed as whether it was made, and the row's number or the refusal's.
#[derive(Clone, Copy)]
struct Told(Result<usize, LayerFault>);

impl fmt::Display for Told {
    fn fmt<W: fmt::Write>(&self, f: &mut fmt::Formatter<W>) -> fmt::Result {
        match self.0 {
            Ok(number) => write!(f, "(true, {number})"),
            Err(fault) => write!(f, "(false, {})", fault.number()),
        }
    }
}

/// The number of a refusal. In the line that is printed 0 stands for no refusal.
fn refusal(answer: Result<(), LayerFault>) -> u16 {
    answer.map_or_else(LayerFault::number, |()| 0)
}

/// Adds so many inclusions. The last answer, or the first refusal.
fn add_inclusions<B: Base>(rules: &mut Rules<B>, times: u16) -> Result<usize, LayerFault> {
    (0..times).try_fold(0, |_, n| {
        rules.add_inclusion(Inclusion {
            sub: Concept(n),
            sup: Concept(n.saturating_add(100)),
        })
    })
}

/// Adds so many keys, each with one pair. The last answer, or the first refusal.
fn add_keys<B: Base>(rules: &mut Rules<B>, times: u16) -> Result<usize, LayerFault> {
    (0..times).try_fold(0, |_, n| {
        rules.add_key(Concept(n), Concept(n.saturating_add(100)), pair(n))
    })
}

/// Gives a key so many pairs, until one is refused.
fn grow<B: Base>(rules: &mut Rules<B>, number: usize, times: u16) -> Result<(), LayerFault> {
    (0..times).try_for_each(|n| rules.grow_key(number, pair(n)))
}

/// Rules over two rows: 33 inclusions, 9 keys and a fifth pair.
pub fn rules(rt: &HostRuntime) -> io::Result<()> {
    let mut rules = Rules::new(Many {
        individuals: 1,
        rows: 2,
    });
    let unknown = grow(&mut rules, 0, 1);
    let inclusions = Told(add_inclusions(&mut rules, 32));
    let inclusion_more = Told(add_inclusions(&mut rules, 1));
    let keys = Told(add_keys(&mut rules, 8));
    let key_more = Told(add_keys(&mut rules, 1));
    let pairs = [
        unknown,
        grow(&mut rules, 6, 3),
        grow(&mut rules, 6, 1),
        grow(&mut rules, 8, 1),
    ];
    println!(rt;
        "inclusions [{inclusions}, {inclusion_more}], keys [{keys}, {key_more}], pairs {:?}",
        pairs.map(refusal)
    )?;
    show_counts(rt, "rules", &rules)?;
    show_rows(rt, &rules, RowList::Inclusions, &[1, 2, 33, 34])?;
    show_rows(rt, &rules, RowList::Keys, &[1, 2, 7, 8, 9, 10])
}

const MANY: Many = Many {
    individuals: 65_534,
    rows: 65_533,
};

/// Layers whose sums pass 65,535.
pub fn sums(rt: &HostRuntime) -> io::Result<()> {
    let mut rules = Rules::new(MANY);
    let inclusions = Told(add_inclusions(&mut rules, 3));
    let keys = Told(add_keys(&mut rules, 3));
    println!(rt; "inclusions {inclusions}, keys {keys}")?;
    show_last(rt, "rules", &rules)?;
    show_last(rt, "join", &Join::new(MANY, MANY))?;
    let statement = Statement::Key(Concept(4), Concept(6), RolePairs::One(pair(0)));
    show_last(rt, "question", &Question::new(MANY, statement))
}

/// A statement, and then with pairs 1 to 4.
fn ask(rt: &HostRuntime, below: &Many, statement: Statement) -> io::Result<()> {
    let mut question = Question::new(below, statement);
    show_base(rt, "question", &question)?;
    for n in 1..5 {
        match question.grow(pair(n)) {
            Ok(()) => show_base(rt, "grown", &question)?,
            Err(fault) => println!(rt; "pair {n} refused: {}", fault.number())?,
        }
    }
    show_base(rt, "question", &question)
}

/// The statements that are asked, over 65,533 individuals and no row.
pub fn questions(rt: &HostRuntime) -> io::Result<()> {
    let many = Many {
        individuals: 65_533,
        rows: 0,
    };
    let inclusion = Inclusion {
        sub: Concept(4),
        sup: Concept(7),
    };
    for statement in [
        Statement::Key(Concept(4), Concept(6), RolePairs::One(pair(0))),
        Statement::Inclusion(inclusion),
        Statement::Same(Individual(8), Individual(9)),
    ] {
        ask(rt, &many, statement)?;
    }
    Ok(())
}
