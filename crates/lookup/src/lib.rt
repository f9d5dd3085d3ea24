// The look-up: the heads of a branch's individuals, computed into lent numbers, and whether a fact is held. What is written
// or refused does not belong here.
#![tactic(auto)]

mod heads;
pub mod view;
