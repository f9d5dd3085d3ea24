// Knowledge bases: the names and rows they are made of, what it is to be one, and which are accepted.
// Nothing of sheets, steps or file formats belongs here.
#![tactic(auto)]

pub mod axioms;
pub mod base;
pub mod check;
pub mod counts;
pub mod fault;
pub mod lexicon;
pub mod names;
mod range;
pub mod statement;
