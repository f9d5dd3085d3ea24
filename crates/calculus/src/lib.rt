// The calculus: what a sheet's rows, steps and refusals are, and by its definitions and laws what every call on a sheet
// does. Hardly any running code belongs here.
#![tactic(auto)]

pub mod fault;
pub mod laws;
pub mod lengths;
pub mod likeness;
pub mod review;
pub mod row_kinds;
pub mod shape;
pub mod step;
