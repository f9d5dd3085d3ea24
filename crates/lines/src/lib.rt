// The text form of a step: a line that is read, and a line that is written. It knows no base and no sheet: whether a step can
// be made, and what it does, does not belong here.
#![tactic(auto)]

pub mod fault;
mod letters;
pub mod line;
mod numbers;
pub mod read;
mod spelling;
pub mod write;
