// What a concept is: its entry, or the entry's complement.
use kb::names::{Concept, Role};

/// What a concept says, as far as a step asks.
#[derive(Clone, Copy, Debug, PartialEq, Eq)]
pub enum Shape {
    /// TOP, a name, an unlisted entry, or the complement of one of these.
    Plain,
    Both(Concept, Concept),
    Some(Role, Concept),
    NotBoth(Concept, Concept),
    NotSome(Role, Concept),
}
