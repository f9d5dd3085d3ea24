// The records of an inventory, the roles that their columns stand for, and the inventory itself.
ghost use Rattle.std.specs.Prelude.{◌≤◌, length};

use kb::lexicon::Entry;
use kb::names::{Concept, Role};

/// The longest lexicon that can be told: a longer one is cut there.
pub(crate) const MOST_ENTRIES: usize = 65_535;

/// An inventory with more records lists nothing.
pub(crate) const MOST_RECORDS: usize = 100;

/// An inventory with more values lists nothing.
pub(crate) const MOST_VALUES: usize = 140;

/// The role of each column: it joins a record to its value in the column.
#[derive(Clone, Copy, Debug, PartialEq, Eq)]
pub struct Columns {
    pub issuer: Role,
    pub serial: Role,
    pub public_key: Role,
}

/// A record: its class, and the number of its value in each column.
///
/// A value number may pass the inventory's own values: in a join it reaches an individual of the base on the right.
#[derive(Clone, Copy, Debug, PartialEq, Eq)]
pub struct Record {
    pub class: Concept,
    pub issuer: u16,
    pub serial: u16,
    pub public_key: u16,
}

/// A lexicon, a number of roles, and at most 100 records with at most 140 values between them.
#[derive(Drop)]
pub struct Inventory<'a> {
    pub(crate) lexicon: &'a [Entry],
    pub(crate) roles: u16,
    pub(crate) columns: Columns,
    pub(crate) records: &'a [Record],
    pub(crate) values: usize,
    ghost short: { length lexicon.now ≤ 65535 },
    ghost few: { length records.now ≤ 100 },
    ghost small: { values ≤ 140 },
}
