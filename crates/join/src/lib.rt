// A base that lists two bases together: the rows of the left, then those of the right, whose individuals come behind.
// Nothing of sheets, steps or file formats belongs here.
#![tactic(auto)]

ghost use Rattle.join.specs.Joining.{join_owed, join_meaning, raised, raised_individual};
ghost use Rattle.join.specs.Lexicons.{JoinChecked};
ghost use Rattle.rows.specs.Rows.{row_at};
ghost use Rattle.std.specs.Prelude.{◌≡◌, map, Decides};

use kb::axioms::{Assertion, Inclusion, Key};
use kb::base::Base;
use kb::counts::Counts;
use kb::lexicon::Entry;
use kb::names::Individual;
use layers::behind::behind;
use rows::RowFault;

mod fault;

pub use fault::JoinFault;

/// Two bases, of which the left gives the lexicon and the roles.
#[derive(Drop)]
pub struct Join<L, R> {
    left: L,
    right: R,
}

// An individual of the right base, behind so many of the left. A raised number stops at 65,535.
fn raised_individual(x: Individual, by: u16) -> Individual
    ensures { result ≡ raised_individual by x }
{
    Individual(by.saturating_add(x.0))
}

// An assertion with its individuals raised.
fn raised(a: Assertion, by: u16) -> Assertion
    ensures { result ≡ raised by a }
{
    let up = |x| raised_individual(x, by);
    match a {
        Assertion::Is(c, x) => Assertion::Is(c, up(x)),
        Assertion::Joins(r, x, y) => Assertion::Joins(r, up(x), up(y)),
        Assertion::Same(x, y) => Assertion::Same(up(x), up(y)),
        Assertion::Different(x, y) => Assertion::Different(up(x), up(y)),
        Assertion::Unlisted(kind) => Assertion::Unlisted(kind),
    }
}

// Whether two bases have the same lexicon.
fn same_lexicon<L: Base, R: Base>(left: &L, right: &R) -> bool
    ensures { Decides result ((L.Base.meaning left.now).entries ≡ (R.Base.meaning right.now).entries) }
{
    let longer = usize::from(left.counts().entries.max(right.counts().entries));
    (0..longer).all(|k| left.entry(k) == right.entry(k))
}

impl<L: Base, R: Base> Join<L, R> {
    /// The left base and then the right one.
    pub fn new(left: L, right: R) -> Join<L, R>
        ensures left { result.left ≡ left }
        ensures right { result.right ≡ right }
    {
        Join { left, right }
    }

    // Assertion k of the right base, its individuals behind those of the left.
    #[tactic(auto, using(rows::proofs::RowLaws::row_at_mapped))]
    fn right_assertion(&self, k: usize) -> Result<Assertion, RowFault>
        ensures { result ≡ row_at (map (raised (L.Base.meaning self.now.left).individuals) (R.Base.meaning self.now.right).assertions) k }
    {
        let by = self.left.counts().individuals;
        self.right.assertion(k).map(|a| raised(a, by))
    }

    /// Whether the two bases have the same lexicon and the same number of roles.
    pub fn check(&self) -> Result<(), JoinFault>
        ensures { JoinChecked (L.Base.meaning self.now.left) (R.Base.meaning self.now.right) result }
    {
        let same_roles = self.left.counts().roles == self.right.counts().roles;
        if same_roles && same_lexicon(&self.left, &self.right) {
            Ok(())
        } else {
            Err(JoinFault::Differ)
        }
    }
}

impl<L: Base, R: Base> Base for Join<L, R> {
    ghost meaning = { λ j. join_meaning (L.Base.meaning j.left) (R.Base.meaning j.right) };

    ghost owed = { λ j. join_owed (L.Base.meaning j.left) (R.Base.meaning j.right) (L.Base.owed j.left) (R.Base.owed j.right) };

    fn counts(&self) -> Counts {
        let left = self.left.counts();
        let right = self.right.counts();
        Counts {
            individuals: left.individuals.saturating_add(right.individuals),
            assertions: left.assertions.saturating_add(right.assertions),
            inclusions: left.inclusions.saturating_add(right.inclusions),
            keys: left.keys.saturating_add(right.keys),
            ..left
        }
    }

    fn entry(&self, n: usize) -> Result<Entry, RowFault> {
        self.left.entry(n)
    }

    fn assertion(&self, n: usize) -> Result<Assertion, RowFault> {
        let k = n.saturating_sub(usize::from(self.left.counts().assertions));
        behind(n, self.left.assertion(n), self.right_assertion(k))
    }

    fn inclusion(&self, n: usize) -> Result<Inclusion, RowFault> {
        let k = n.saturating_sub(usize::from(self.left.counts().inclusions));
        behind(n, self.left.inclusion(n), self.right.inclusion(k))
    }

    fn key(&self, n: usize) -> Result<Key, RowFault> {
        let k = n.saturating_sub(usize::from(self.left.counts().keys));
        behind(n, self.left.key(n), self.right.key(k))
    }
}
