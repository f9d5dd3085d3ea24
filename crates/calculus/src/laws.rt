// The laws of the calculus, each on the contract of a function made for it, so that its proof is asked for.

pub mod conditions;
pub mod equality;
pub mod examples;
pub mod playing;
pub mod runs;
