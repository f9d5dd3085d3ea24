// The theorems about sheets, each on the contract of a function made for it, so that its proof is asked for.
#![tactic(auto)]

ghost use Rattle.theorem.specs.Soundness.{ClosedIsSound};

pub mod asking;
pub mod main_theorem;
pub mod opening;
pub mod placed;

/// A closed sheet that is reached by a run means that no interpretation, finite or endless, satisfies the base.
pub fn closed_means_unsatisfiable()
    ensures { ClosedIsSound }
{}
