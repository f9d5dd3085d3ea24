// The lexicon: what the concepts of a base are built from.
use crate::names::{Concept, Role};

/// An entry of the lexicon: what a concept is built from.
#[derive(Clone, Copy, Debug, PartialEq, Eq)]
pub enum Entry {
    /// Everything; its complement is nothing.
    Top,
    /// A concept that is only named.
    Name,
    /// What is in both concepts.
    Both(Concept, Concept),
    /// What the role joins to something in the concept.
    Some(Role, Concept),
    /// An entry of another kind.
    Unlisted(u16),
}
