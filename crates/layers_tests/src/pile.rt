// Two small inventories of certificates, joined, with rules and a question on top.
use crate::show::show_base;
use inventory::{Columns, Inventory, Record};
use join::{Join, JoinFault};
use kb::axioms::{Inclusion, RolePair, RolePairs};
use kb::lexicon::Entry;
use kb::names::{Concept, Role};
use kb::statement::Statement;
use layers::question::Question;
use layers::rules::Rules;
use std::io;

/// The roles that the columns of every inventory here stand for.
pub const COLUMNS: Columns = Columns {
    issuer: Role(0),
    serial: Role(1),
    public_key: Role(2),
};

/// Everything, held certificates, seen certificates, and what has an issuer.
const LEXICON: [Entry; 4] = [
    Entry::Top,
    Entry::Name,
    Entry::Name,
    Entry::Some(Role(0), Concept(0)),
];

const HELD: Concept = Concept(2);

const SEEN: Concept = Concept(4);

const ISSUED: Concept = Concept(6);

/// Of the two held certificates the second has its issuer among the values on the right.
const LEFT: [Record; 2] = [
    Record {
        class: HELD,
        issuer: 0,
        serial: 1,
        public_key: 2,
    },
    Record {
        class: HELD,
        issuer: 4,
        serial: 1,
        public_key: 2,
    },
];

const RIGHT: [Record; 1] = [Record {
    class: SEEN,
    issuer: 0,
    serial: 1,
    public_key: 1,
}];

fn pair(column: Role) -> RolePair {
    RolePair {
        left: column,
        right: column,
    }
}

/// Every row of the pile, from below.
pub fn pile(rt: &HostRuntime) -> io::Result<()> {
    let left = Inventory::new(&LEXICON, 3, COLUMNS, &LEFT, 3);
    let right = Inventory::new(&LEXICON, 3, COLUMNS, &RIGHT, 2);
    show_base(rt, "left", &left)?;
    show_base(rt, "right", &right)?;
    let join = Join::new(&left, right);
    show_base(rt, "join", &join)?;
    let mut rules = Rules::new(&join);
    let _ = rules.add_inclusion(Inclusion {
        sub: HELD,
        sup: ISSUED,
    });
    let _ = rules.add_key(HELD, SEEN, pair(COLUMNS.issuer));
    let _ = rules.grow_key(0, pair(COLUMNS.serial));
    show_base(rt, "rules", &rules)?;
    let one = RolePairs::One(pair(COLUMNS.public_key));
    let mut question = Question::new(rules, Statement::Key(HELD, SEEN, one));
    let _ = question.grow(pair(COLUMNS.serial));
    show_base(rt, "question", &question)
}

const FIRST: [Entry; 5] = [
    Entry::Top,
    Entry::Name,
    Entry::Both(Concept(2), Concept(3)),
    Entry::Some(Role(1), Concept(2)),
    Entry::Unlisted(9),
];

/// A lexicon with another entry at a place, of which so many entries count, and a number of roles.
struct Case {
    name: &'static str,
    place: usize,
    entry: Entry,
    count: usize,
    roles: u16,
}

static CASES: [Case; 12] = [
    Case {
        name: "the same",
        place: 0,
        entry: Entry::Top,
        count: 5,
        roles: 3,
    },
    Case {
        name: "another number of roles",
        place: 0,
        entry: Entry::Top,
        count: 5,
        roles: 4,
    },
    Case {
        name: "one entry fewer",
        place: 0,
        entry: Entry::Top,
        count: 4,
        roles: 3,
    },
    Case {
        name: "no entry",
        place: 0,
        entry: Entry::Top,
        count: 0,
        roles: 3,
    },
    Case {
        name: "name for top",
        place: 0,
        entry: Entry::Name,
        count: 5,
        roles: 3,
    },
    Case {
        name: "top for name",
        place: 1,
        entry: Entry::Top,
        count: 5,
        roles: 3,
    },
    Case {
        name: "another second part",
        place: 2,
        entry: Entry::Both(Concept(2), Concept(4)),
        count: 5,
        roles: 3,
    },
    Case {
        name: "another first part",
        place: 2,
        entry: Entry::Both(Concept(0), Concept(3)),
        count: 5,
        roles: 3,
    },
    Case {
        name: "another role",
        place: 3,
        entry: Entry::Some(Role(2), Concept(2)),
        count: 5,
        roles: 3,
    },
    Case {
        name: "another concept",
        place: 3,
        entry: Entry::Some(Role(1), Concept(3)),
        count: 5,
        roles: 3,
    },
    Case {
        name: "another unlisted kind",
        place: 4,
        entry: Entry::Unlisted(10),
        count: 5,
        roles: 3,
    },
    Case {
        name: "a listed kind",
        place: 4,
        entry: Entry::Name,
        count: 5,
        roles: 3,
    },
];

/// What the check of a join answers.
fn check(case: &Case) -> Result<(), JoinFault> {
    let mut lexicon = FIRST;
    if case.place < 5 {
        lexicon[case.place] = case.entry;
    }
    let whole = &lexicon[..];
    let part = &whole[0..case.count.min(5)];
    let base = Inventory::new(&FIRST, 3, COLUMNS, &[], 0);
    let other = Inventory::new(part, case.roles, COLUMNS, &[], 0);
    Join::new(base, other).check()
}

/// Lexicons and numbers of roles that are compared with the first.
pub fn checks(rt: &HostRuntime) -> io::Result<()> {
    for case in &CASES {
        // In the line that is printed 0 stands for no refusal.
        let told = check(case).map_or_else(JoinFault::number, |()| 0);
        println!(rt; "joined with {}: {told}", case.name)?;
    }
    Ok(())
}
