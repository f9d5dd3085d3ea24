// The running sheet: opening, and playing steps. Every call is equal to its definition in the calculus.
// Reading of lines, review and searching do not belong here.
#![tactic(auto)]

mod lookups;
mod numbers;
mod opening;
mod playing;
mod readiness;
mod state;
mod turns;
mod writing;

pub use state::Sheet;
