// A base of records in columns, over lent slices: each record is of a class and has an issuer, a serial number and a
// public key. Nothing of rules, sheets or file formats belongs here.
#![tactic(auto)]

ghost use Rattle.inventory.specs.Inventories.{contents_of, has_value, inventory_owed, inventory_meaning, listed, record_rows};
ghost use Rattle.kb.specs.Meanings.{empty_meaning};
ghost use Rattle.kb.specs.Telling.{tell_assertion};
ghost use Rattle.rows.specs.Rows.{row_at};
ghost use Rattle.std.specs.Prelude.{◌≡◌, map};

use kb::axioms::{Assertion, Inclusion, Key};
use kb::base::Base;
use kb::counts::Counts;
use kb::lexicon::Entry;
use kb::names::{Individual, Role};
use rows::RowFault;

mod contents;

pub use contents::{Columns, Inventory, Record};
use contents::{MOST_ENTRIES, MOST_RECORDS, MOST_VALUES};

// Each record gives four assertions: its class, and its value in each column.
const ROWS_PER_RECORD: usize = 4;

// Record i of so many has a value in a column.
fn has_value(column: Role, count: u16, i: u16, value: u16) -> Assertion
    ensures { result ≡ tell_assertion (has_value column count i value) }
{
    Assertion::Joins(
        column,
        Individual(i),
        Individual(count.saturating_add(value)),
    )
}

impl Columns {
    // Row k of the four that record i of so many gives.
    fn row(&self, count: u16, i: u16, x: Record, k: usize) -> Result<Assertion, RowFault>
        ensures { result ≡ row_at (map tell_assertion (record_rows self.now count i x)) k }
    {
        let given = [
            Assertion::Is(x.class, Individual(i)),
            has_value(self.issuer, count, i, x.issuer),
            has_value(self.serial, count, i, x.serial),
            has_value(self.public_key, count, i, x.public_key),
        ];
        rows::row(&given, k)
    }
}

// Whether so many records and values are listed.
fn is_listed(records: usize, values: usize) -> bool
    ensures { result ≡ listed records values }
{
    records <= MOST_RECORDS && values <= MOST_VALUES
}

impl<'a> Inventory<'a> {
    /// An inventory of these records; above 100 records or 140 values it lists nothing.
    pub fn new(
        lexicon: &'a [Entry],
        roles: u16,
        columns: Columns,
        records: &'a [Record],
        values: usize,
    ) -> Inventory<'a>
        ensures { contents_of result ≡ inventory_meaning lexicon.now roles columns records.now values }
    {
        if !is_listed(records.len(), values) {
            return Inventory::empty(columns);
        }
        Inventory {
            lexicon: &lexicon[0..lexicon.len().min(MOST_ENTRIES)],
            roles,
            columns,
            records,
            values,
        }
    }

    // An inventory that lists nothing.
    fn empty(columns: Columns) -> Inventory<'a>
        ensures { contents_of result ≡ empty_meaning }
    {
        Inventory {
            lexicon: &[],
            roles: 0,
            columns,
            records: &[],
            values: 0,
        }
    }
}

impl Base for Inventory<'_> {
    ghost meaning = { contents_of };

    ghost owed = { inventory_owed };

    fn counts(&self) -> Counts {
        Counts {
            entries: self.lexicon.len() as u16,
            roles: self.roles,
            individuals: (self.records.len() + self.values) as u16,
            assertions: (ROWS_PER_RECORD * self.records.len()) as u16,
            inclusions: 0,
            keys: 0,
        }
    }

    #[tactic(auto, using(rows::proofs::RowLaws::row_at_mapped))]
    fn entry(&self, n: usize) -> Result<Entry, RowFault> {
        // The answer is unpacked and made anew: that numbers have 16 bits is known of a row, and not of the answer that
        // holds it.
        Ok(rows::row(self.lexicon, n)?)
    }

    fn assertion(&self, n: usize) -> Result<Assertion, RowFault> {
        let i = n / ROWS_PER_RECORD;
        let x = rows::row(self.records, i)?;
        self.columns.row(self.records.len() as u16, i as u16, x, n % ROWS_PER_RECORD)
    }

    fn inclusion(&self, _n: usize) -> Result<Inclusion, RowFault> {
        Err(RowFault::NoSuchRow)
    }

    fn key(&self, _n: usize) -> Result<Key, RowFault> {
        Err(RowFault::NoSuchRow)
    }
}
