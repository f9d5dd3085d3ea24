// A ledger: rows of any one kind, kept in order in the first slots of a lent slice. It knows nothing of what a row is about;
// nothing of bases, concepts or sheets belongs here.
#![tactic(auto)]

ghost use Rattle.ledger.specs.Books.{Appended, CutBack, Holds, admitted, book, cut, push, size, unused};
ghost use Rattle.ledger.specs.Firsts.{Finds, FirstAlike, first_alike};
ghost use Rattle.rows.specs.Rows.{RowAt, row_at};
ghost use Rattle.std.specs.Prelude.{◌≡◌, length};

use rows::RowFault;

mod fault;
mod likeness;

pub use fault::LedgerFault;
pub use likeness::Alike;

/// Rows in the first `len` slots; where `len` passes the number of slots, every slot is a row. The host lends the memory, so
/// that the slots are a slice with the number of rows beside it.
#[derive(Drop)]
pub struct Ledger<'a, T> {
    slots: &'a mut [T],
    len: usize,
}

#[tactic(auto, unfolding(crate::specs::Books::book))]
impl<'a, T: Copy> Ledger<'a, T> {
    /// A ledger without rows, over slots of any content.
    pub fn empty(slots: &'a mut [T]) -> Ledger<'a, T>
        ensures value { book result ≡ unused slots.old }
        ensures len { result.len ≡ 0 }
    {
        Ledger { slots, len: 0 }
    }

    /// The number of slots.
    pub fn size(&self) -> usize
        ensures value { result ≡ size (book self.now) }
        ensures holds { Holds self.now }
    {
        self.slots.len()
    }

    /// The rows, first to last.
    pub fn rows(&self) -> &[T]
        ensures { result.now ≡ (book self.now).rows }
    {
        let slots = &*self.slots;
        &slots[..self.len.min(slots.len())]
    }

    /// The number of rows.
    pub fn count(&self) -> usize
        ensures { result ≡ length (book self.now).rows }
    {
        self.rows().len()
    }

    /// Row `n`, counted from 0.
    pub fn row(&self, n: usize) -> Result<T, RowFault>
        ensures value { result ≡ row_at (book self.now).rows n }
        ensures means { RowAt (book self.now).rows n result }
    {
        rows::row(self.rows(), n)
    }

    /// Adds a row at the end, in the first free slot; refuses and changes nothing where no slot is free.
    pub fn append(&mut self, row: T) -> Result<(), LedgerFault>
        ensures answer { result ≡ admitted (book self.old).free }
        ensures value { book self.new ≡ push row (book self.old) }
        ensures means { Appended row self.old result self.new }
    {
        if self.len < self.slots.len() {
            self.slots[self.len] = row;
            self.len += 1;
            Ok(())
        } else {
            Err(LedgerFault::Full)
        }
    }

    /// Keeps the first `n` rows; changes nothing where there are no more than `n`.
    pub fn cut_back(&mut self, n: usize)
        ensures value { book self.new ≡ cut n (book self.old) }
        ensures means { CutBack n self.old self.new }
    {
        if n < self.count() {
            self.len = n;
        }
    }
}

impl<'a, T: Copy + Alike> Ledger<'a, T> {
    /// The lowest place, at or after `from`, whose row is alike the one given.
    pub fn first_alike(&self, from: usize, row: &T) -> Option<usize>
        ensures value { result ≡ first_alike T.alike (book self.now).rows from row.now }
        ensures means { FirstAlike T.alike (book self.now).rows from row.now result }
        ensures finds { Finds (book self.now).rows from row.now result }
    {
        first_alike(self.rows(), from, row)
    }
}

/// The lowest place, at or after `from`, whose row is alike the one given.
pub fn first_alike<T: Copy + Alike>(rows: &[T], from: usize, row: &T) -> Option<usize>
    ensures value { result ≡ first_alike T.alike rows.now from row.now }
    ensures means { FirstAlike T.alike rows.now from row.now result }
    ensures finds { Finds rows.now from row.now result }
{
    (from..rows.len()).find(|&i| rows[i].is_alike(row))
}
