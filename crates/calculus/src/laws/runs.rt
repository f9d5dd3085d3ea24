// What holds along every run.
ghost use Rattle.calculus.specs.Endings.{StepsAreCounted};

/// A sheet's number of steps is the number of steps that its run accepted since opening, and an ending tells that number.
#[tactic(auto, using(crate::proofs::RunLaws::steps_are_counted))]
pub fn steps_are_counted()
    ensures { StepsAreCounted }
{}
