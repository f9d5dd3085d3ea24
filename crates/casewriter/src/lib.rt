// Writing a base as a case file. Nothing of reading files, of sheets or of printing belongs here.
#![tactic(auto)]

pub mod fault;
mod numbers;
mod put;
mod sections;
pub mod writer;
