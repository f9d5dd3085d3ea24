// What a base states: assertions, inclusions and keys. A row of an unlisted kind or count has a case of its own,
// so that a number that a row does not need does not exist.
ghost use Rattle.kb.specs.Numbers.{pair_list};
ghost use Rattle.std.specs.Prelude.{◌≡◌};

use crate::names::{Concept, Individual, Role};
use arrayvec::ArrayVec;

/// A statement about named individuals.
#[derive(Clone, Copy, Debug, PartialEq, Eq)]
pub enum Assertion {
    /// The individual is in the concept.
    Is(Concept, Individual),
    /// The role joins the first individual to the second.
    Joins(Role, Individual, Individual),
    /// The two individuals are one.
    Same(Individual, Individual),
    /// The two individuals are not one.
    Different(Individual, Individual),
    /// An assertion of another kind.
    Unlisted(u16),
}

/// Whatever is in `sub` is in `sup`.
#[derive(Clone, Copy, Debug, Default, PartialEq, Eq)]
pub struct Inclusion {
    pub sub: Concept,
    pub sup: Concept,
}

/// One condition of a key: `left` from the first element and `right` from the second reach a common element.
#[derive(Clone, Copy, Debug, Default, PartialEq, Eq)]
pub struct RolePair {
    pub left: Role,
    pub right: Role,
}

/// The one to four conditions of a key.
#[derive(Clone, Copy, Debug, PartialEq, Eq)]
pub enum RolePairs {
    One(RolePair),
    Two(RolePair, RolePair),
    Three(RolePair, RolePair, RolePair),
    Four(RolePair, RolePair, RolePair, RolePair),
}

impl RolePairs {
    /// The pairs, first to last.
    pub fn list(self) -> ArrayVec<RolePair, 4>
        ensures { result.items ≡ pair_list self }
    {
        let mut list = ArrayVec::new();
        match self {
            RolePairs::One(p) => list.push(p),
            RolePairs::Two(p, q) => {
                list.push(p);
                list.push(q);
            }
            RolePairs::Three(p, q, s) => {
                list.push(p);
                list.push(q);
                list.push(s);
            }
            RolePairs::Four(p, q, s, t) => {
                list.push(p);
                list.push(q);
                list.push(s);
                list.push(t);
            }
        }
        list
    }
}

/// A link key.
#[derive(Clone, Copy, Debug, PartialEq, Eq)]
pub enum Key {
    /// An element of the first class and one of the second are one if every pair of roles joins them to a common element.
    Link(Concept, Concept, RolePairs),
    /// A key with another count of pairs.
    Unlisted(u16),
}
