// A base of any number of equal rows, to reach the greatest numbers that can be told.
ghost use Rattle.kb.specs.Telling.{tell};
ghost use Rattle.layers_tests.specs.Many.{many_owed, many_meaning};
ghost use Rattle.rows.specs.Rows.{row_at};
ghost use Rattle.std.specs.Prelude.{◌≡◌, replicate};

use kb::axioms::{Assertion, Inclusion, Key};
use kb::base::Base;
use kb::counts::Counts;
use kb::lexicon::Entry;
use kb::names::{Concept, Individual};
use rows::RowFault;

/// So many individuals, and so many equal rows in each list.
#[derive(Drop)]
pub struct Many {
    pub individuals: u16,
    pub rows: u16,
}

// A number of 16 bits is told as it is. This is a function since an argument is known to have 16 bits, and a field of
// `&self` is not.
fn told(n: u16) -> u16
    ensures { result ≡ tell n }
{
    n
}

fn equal_row<T: Copy>(rows: u16, row: T, n: usize) -> Result<T, RowFault>
    ensures { result ≡ row_at (replicate (tell rows) row) n }
{
    if n < usize::from(rows) {
        Ok(row)
    } else {
        Err(RowFault::NoSuchRow)
    }
}

impl Base for Many {
    ghost meaning = { λ m. many_meaning m.individuals m.rows };

    ghost owed = { λ m. many_owed m.individuals m.rows };

    fn counts(&self) -> Counts {
        let rows = told(self.rows);
        Counts {
            entries: rows,
            roles: 1,
            individuals: told(self.individuals),
            assertions: rows,
            inclusions: rows,
            keys: rows,
        }
    }

    fn entry(&self, n: usize) -> Result<Entry, RowFault> {
        equal_row(self.rows, Entry::Name, n)
    }

    fn assertion(&self, n: usize) -> Result<Assertion, RowFault> {
        equal_row(self.rows, Assertion::Same(Individual(1), Individual(2)), n)
    }

    fn inclusion(&self, n: usize) -> Result<Inclusion, RowFault> {
        let row = Inclusion {
            sub: Concept(1),
            sup: Concept(2),
        };
        equal_row(self.rows, row, n)
    }

    fn key(&self, n: usize) -> Result<Key, RowFault> {
        equal_row(self.rows, Key::Unlisted(9), n)
    }
}
