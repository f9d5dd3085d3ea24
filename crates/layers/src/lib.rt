// Layers over bases: a base that changes or adds to what another lists, proved from what the trait of bases promises alone.
// Nothing of sheets, steps or file formats belongs here.
#![tactic(auto)]

pub mod behind;
pub mod fault;
mod pairs;
pub mod question;
pub mod rules;
mod table;
