// The laws of the first failure, each on the contract of a function made for it, so that its proof is asked for.
ghost use Rattle.failures.specs.Failures.{first_failure, condition_of};
ghost use Rattle.failures.specs.Places.{FirstFailure};
ghost use Rattle.calculus.specs.Review.{lowest_failing};
ghost use Rattle.calculus.specs.Branches.{Branch};
ghost use Rattle.kb.specs.Meanings.{Meaning};
ghost use Rattle.std.specs.Option.{option_map};
ghost use Rattle.std.specs.Prelude.{◌≡◌};

/// The condition of the first failure is the lowest condition that fails.
pub fn first_failure_is_of_the_lowest()
    ensures { (m : Meaning) (b : Branch) → option_map condition_of (first_failure m b) ≡ lowest_failing m b }
{}

/// There is no failure exactly where the eight conditions hold; a failure is the first exactly where a condition fails there
/// and none fails at a place before.
pub fn first_failure_fails_first()
    ensures { (m : Meaning) (b : Branch) → FirstFailure m b }
{}
