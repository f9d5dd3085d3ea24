// Blocking and the eight conditions of review, in the words of their subject.
ghost use Rattle.calculus.specs.Blocking.{BlockerStands};
ghost use Rattle.calculus.specs.Conditions.{ReviewedExactly};

/// A blocker is new, comes before what it blocks, is the least that covers it, and is not blocked.
#[tactic(auto, using(crate::proofs::BlockingLaws::blocker_stands))]
pub fn blocker_stands()
    ensures { BlockerStands }
{}

/// Each test of review passes exactly where its condition holds, and review names the lowest condition that fails.
pub fn conditions_are_tested()
    ensures { ReviewedExactly }
{}
