// Failures: the places at which the conditions of review fail, which of them is the first, and its laws. What finds it on
// rows, and what to do about it, does not belong here.
#![tactic(auto)]

pub mod failure;
pub mod laws;
