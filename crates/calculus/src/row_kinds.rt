// The four kinds of row that a sheet writes.
use kb::names::{Concept, Individual, Role};

/// The individual is in the concept.
#[derive(Clone, Copy, Debug, PartialEq, Eq)]
pub struct ConceptRow {
    pub concept: Concept,
    pub individual: Individual,
}

/// The role joins the first individual to the second.
#[derive(Clone, Copy, Debug, PartialEq, Eq)]
pub struct RoleRow {
    pub role: Role,
    pub from: Individual,
    pub to: Individual,
}

/// Two individuals are one, or are not.
#[derive(Clone, Copy, Debug, PartialEq, Eq)]
pub enum PairRow {
    Same(Individual, Individual),
    Different(Individual, Individual),
}

/// The right side of a split, with how many rows and individuals there were before the split.
#[derive(Clone, Copy, Debug, PartialEq, Eq)]
pub struct PendingRow {
    pub side: ConceptRow,
    pub concepts: usize,
    pub roles: usize,
    pub pairs: usize,
    pub individuals: u16,
}
