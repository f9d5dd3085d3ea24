// Whole runs: a sheet opened, any list of calls made on it, and an ending or none; with the main theorem on every answer.
// Nothing that a single call does belongs here.
#![tactic(auto)]

pub mod call;
