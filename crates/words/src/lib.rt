// Words of a text: letters and decimal numbers, each a part of the text with its place. Nothing of what a word is about
// belongs here, no steps and no bases.
#![tactic(auto)]

mod digits;
pub mod fault;
pub mod read;
pub mod word;
