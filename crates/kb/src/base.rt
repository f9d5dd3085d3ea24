// What it is to be a base. Whatever stands on a base learns of it only what its meaning lists.
ghost use Rattle.kb.specs.Meanings.{Meaning, Owed, counts_of};
ghost use Rattle.rows.specs.Rows.{row_at};
ghost use Rattle.std.specs.Prelude.{◌≡◌};

use crate::axioms::{Assertion, Inclusion, Key};
use crate::counts::Counts;
use crate::lexicon::Entry;
use rows::RowFault;

/// A lexicon, a number of roles, a number of individuals, and lists of assertions, inclusions and keys.
///
/// The six counts are told together. A row is told by its number from 0; the one refusal is that there is no such row.
pub trait Base {
    /// What the base lists.
    ghost meaning: { Self → Meaning };

    /// What an implementation owes of its meaning.
    ghost owed: { (b : Self) → Owed (meaning b) };

    fn counts(&self) -> Counts
        ensures { result ≡ counts_of (meaning self.now) };

    fn entry(&self, n: usize) -> Result<Entry, RowFault>
        ensures { result ≡ row_at (meaning self.now).entries n };

    fn assertion(&self, n: usize) -> Result<Assertion, RowFault>
        ensures { result ≡ row_at (meaning self.now).assertions n };

    fn inclusion(&self, n: usize) -> Result<Inclusion, RowFault>
        ensures { result ≡ row_at (meaning self.now).inclusions n };

    fn key(&self, n: usize) -> Result<Key, RowFault>
        ensures { result ≡ row_at (meaning self.now).keys n };
}

/// A lent base is a base.
impl<B: Base> Base for &B {
    ghost meaning = { λ b. B.Base.meaning b.now };

    ghost owed = { λ b. B.Base.owed b.now };

    fn counts(&self) -> Counts {
        (**self).counts()
    }

    fn entry(&self, n: usize) -> Result<Entry, RowFault> {
        (**self).entry(n)
    }

    fn assertion(&self, n: usize) -> Result<Assertion, RowFault> {
        (**self).assertion(n)
    }

    fn inclusion(&self, n: usize) -> Result<Inclusion, RowFault> {
        (**self).inclusion(n)
    }

    fn key(&self, n: usize) -> Result<Key, RowFault> {
        (**self).key(n)
    }
}
