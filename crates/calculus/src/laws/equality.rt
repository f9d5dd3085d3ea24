// The computed equality and "held" against the least equivalence that contains the same rows.
ghost use Rattle.calculus.specs.Equality.{HeadsAreLeast};
ghost use Rattle.calculus.specs.HeldLaws.{HeldMeans, HeldStays};

/// The head of an individual is the smallest that is equal to it, and two individuals are equal exactly if found so.
#[tactic(auto, using(crate::proofs::EqualityLaws::heads_are_least))]
pub fn heads_are_least()
    ensures { HeadsAreLeast }
{}

/// An assertion is found held exactly if the branch holds it, and what is held stays held as rows are appended.
#[tactic(auto, using(crate::proofs::HeldLaws::held_means_held))]
pub fn held_means_held()
    ensures { HeldMeans × HeldStays }
{}
