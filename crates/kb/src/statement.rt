// What can be asked of a base.
use crate::axioms::{Inclusion, RolePairs};
use crate::names::{Concept, Individual};

/// A statement that may follow from a base.
#[derive(Clone, Copy, Debug, PartialEq, Eq)]
pub enum Statement {
    /// The key with two classes and these pairs of roles.
    Key(Concept, Concept, RolePairs),
    /// The inclusion.
    Inclusion(Inclusion),
    /// The two individuals are one.
    Same(Individual, Individual),
}
