// Where a condition of review fails.
ghost use Rattle.failures.specs.Failures.{condition_of};
ghost use Rattle.std.specs.Prelude.{◌≡◌};

use calculus::review::Condition;
use kb::names::{Concept, Individual};

/// A place at which one of the eight conditions fails.
#[derive(Clone, Copy, Debug, PartialEq, Eq)]
pub enum Failure {
    /// 1: an entry's concept and its complement are both held of x.
    Clash(Concept, Individual),
    /// 1: x is different from y, and yet equal.
    Apart(Individual, Individual),
    /// 2: the assertion is not held.
    Assertion(usize),
    /// 3: BOTH(d, e) is held of x, but not both d and e.
    Both(Concept, Individual),
    /// 4: ~SOME(r, d) is held of x and r goes from x to y, but ~d is not held of y.
    All(Concept, Individual, Individual),
    /// 5: by an inclusion (c, d), neither ~c nor d is held of x.
    Inclusion(usize, Individual),
    /// 6: by a key, x and y share its values, but neither is outside its class, and they are not equal.
    Key(usize, Individual, Individual),
    /// 7: ~BOTH(d, e) is held of x, but neither ~d nor ~e.
    Either(Concept, Individual),
    /// 8: SOME(r, d) is held of x, but r goes from x to no y of which d is held.
    Some(Concept, Individual),
}

impl Failure {
    /// The condition that fails.
    pub fn condition(self) -> Condition
        ensures { result ≡ condition_of self }
    {
        match self {
            Failure::Clash(_, _) | Failure::Apart(_, _) => Condition::NoContradiction,
            Failure::Assertion(_) => Condition::Assertions,
            Failure::Both(_, _) => Condition::BothParts,
            Failure::All(_, _, _) => Condition::AllReached,
            Failure::Inclusion(_, _) => Condition::Inclusions,
            Failure::Key(_, _, _) => Condition::Keys,
            Failure::Either(_, _) => Condition::EitherPart,
            Failure::Some(_, _) => Condition::SomeReached,
        }
    }
}

/// The conditions that ask something of each entry and each individual that is not blocked. A type of its own, so
/// that a match on it needs no arms for the other four.
#[derive(Clone, Copy, Debug, PartialEq, Eq)]
pub enum EntryCondition {
    /// 3: a held BOTH has both parts held.
    BothParts,
    /// 4: a held ~SOME(r, d) has ~d held of all that r reaches.
    AllReached,
    /// 7: a held ~BOTH has the complement of a part held.
    EitherPart,
    /// 8: a held SOME(r, d) has d held of some that r reaches.
    SomeReached,
}
