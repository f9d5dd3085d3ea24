// Worked examples, computed by the definitions.
ghost use Rattle.calculus.specs.Examples.{Unravelled, Worked};

/// Every worked example comes out as it must.
pub fn examples_are_worked()
    ensures { Worked }
{}

/// The endless model of the worked example goes on past its blocked individual.
pub fn walks_are_unravelled()
    ensures { Unravelled }
{}
