// Places: whether a condition of review fails at one place, on the rows of a view. Which places there are, and which comes
// first, does not belong here.
#![tactic(auto)]

pub mod axioms;
pub mod blocking;
pub mod contradictions;
pub mod entries;
mod facts;
mod reaching;
