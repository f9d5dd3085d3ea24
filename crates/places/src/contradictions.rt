// Condition 1 at a place.
ghost use Rattle.failures.specs.Failures.{apart_at, clash_at};
ghost use Rattle.lookup.specs.Views.{branch_in};
ghost use Rattle.std.specs.Prelude.{◌≡◌};

use crate::facts::is_held;
use failures::failure::Failure;
use kb::axioms::Assertion;
use kb::base::Base;
use kb::names::{Concept, Individual};
use lookup::view::View;

/// A clash, if c and d are both held of x.
pub fn clash_at<B: Base>(
    view: &View<'_, '_, B>,
    c: Concept,
    d: Concept,
    x: Individual,
) -> Option<Failure>
    ensures { result ≡ clash_at (B.meaning view.now.base.now) (branch_in view.now) c d x.0 }
{
    let fails = is_held(view, c, x) && is_held(view, d, x);
    fails.then_some(Failure::Clash(c, x))
}

/// A failure, if x and y are different and equal.
pub fn apart_at<B: Base>(view: &View<'_, '_, B>, x: Individual, y: Individual) -> Option<Failure>
    ensures { result ≡ apart_at (B.meaning view.now.base.now) (branch_in view.now) x.0 y.0 }
{
    let fails = view.equal(x, y) && view.held(&Assertion::Different(x, y));
    fails.then_some(Failure::Apart(x, y))
}
