// What playing a step is: when it is refused and with what, when it is accepted, and what it leaves.
ghost use Rattle.calculus.specs.StepLaws.{StepsArePlayed};

/// Every step is refused in order, and then changes nothing; or it is accepted, appends what is missing or closes the
/// branch, and is counted.
pub fn steps_are_played()
    ensures { StepsArePlayed }
{}
