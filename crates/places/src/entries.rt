// Conditions 3, 4, 7 and 8 at a place.
ghost use Rattle.failures.specs.Failures.{both_at, either_at, reached_at, reaches, some_at};
ghost use Rattle.lookup.specs.Views.{branch_in};
ghost use Rattle.std.specs.Prelude.{◌≡◌};

use crate::facts::{complement_held, is_held};
use crate::reaching::reaches;
use failures::failure::Failure;
use kb::axioms::Assertion;
use kb::base::Base;
use kb::names::{Concept, Individual, Role};
use lookup::view::View;

/// A failure of condition 3, if c, which is BOTH(d, e), is held of x, but not both d and e.
pub fn both_at<B: Base>(
    view: &View<'_, '_, B>,
    c: Concept,
    d: Concept,
    e: Concept,
    x: Individual,
) -> Option<Failure>
    ensures { result ≡ both_at (B.meaning view.now.base.now) (branch_in view.now) c d e x.0 }
{
    let fails = is_held(view, c, x) && !(is_held(view, d, x) && is_held(view, e, x));
    fails.then_some(Failure::Both(c, x))
}

/// A failure of condition 7, if c, which is ~BOTH(d, e), is held of x, but neither ~d nor ~e.
pub fn either_at<B: Base>(
    view: &View<'_, '_, B>,
    c: Concept,
    d: Concept,
    e: Concept,
    x: Individual,
) -> Option<Failure>
    ensures { result ≡ either_at (B.meaning view.now.base.now) (branch_in view.now) c d e x.0 }
{
    let fails = is_held(view, c, x) && !complement_held(view, d, x) && !complement_held(view, e, x);
    fails.then_some(Failure::Either(c, x))
}

/// A failure of condition 4, where c, which is ~SOME(r, d), is held of x: if r goes from x to y and ~d is not held of y.
pub fn reached_at<B: Base>(
    view: &View<'_, '_, B>,
    c: Concept,
    r: Role,
    d: Concept,
    x: Individual,
    y: Individual,
) -> Option<Failure>
    ensures { result ≡ reached_at (B.meaning view.now.base.now) (branch_in view.now) c r d x.0 y.0 }
{
    let fails = view.held(&Assertion::Joins(r, x, y)) && !complement_held(view, d, y);
    fails.then_some(Failure::All(c, x, y))
}

// Whether r goes from x to some y of which d is held.
fn some_reached<B: Base>(view: &View<'_, '_, B>, r: Role, d: Concept, x: Individual) -> bool
    ensures { result ≡ reaches (B.meaning view.now.base.now) (branch_in view.now) r d x.0 }
{
    reaches(view, r, x, |y| is_held(view, d, y))
}

/// A failure of condition 8, if c, which is SOME(r, d), is held of x, but r goes from x to no y of which d is held.
pub fn some_at<B: Base>(
    view: &View<'_, '_, B>,
    c: Concept,
    r: Role,
    d: Concept,
    x: Individual,
) -> Option<Failure>
    ensures { result ≡ some_at (B.meaning view.now.base.now) (branch_in view.now) c r d x.0 }
{
    let fails = is_held(view, c, x) && !some_reached(view, r, d, x);
    fails.then_some(Failure::Some(c, x))
}
