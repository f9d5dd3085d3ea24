// Case files: a base in bytes, two a number, the higher first. Nothing of sheets or printing belongs here.
#![tactic(auto)]

pub mod fault;
pub mod file;
mod header;
pub mod layout;
pub mod reader;
mod records;
