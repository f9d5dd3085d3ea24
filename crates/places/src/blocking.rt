// Which individuals are blocked.
ghost use Rattle.calculus.specs.Review.{blocked, blocks, covers, some_under};
ghost use Rattle.failures.specs.Failures.{unless_blocked};
ghost use Rattle.lookup.specs.Views.{branch_in};
ghost use Rattle.std.specs.Prelude.{◌≡◌};

use failures::failure::Failure;
use kb::axioms::Assertion;
use kb::base::Base;
use kb::names::Individual;
use lookup::view::View;

// Whether t holds every concept that s holds.
fn covers<B: Base>(view: &View<'_, '_, B>, t: Individual, s: Individual) -> bool
    ensures { result ≡ covers (B.meaning view.now.base.now) (branch_in view.now) t.0 s.0 }
{
    view.concepts.iter().all(|row| {
        !view.equal(row.individual, s) || view.held(&Assertion::Is(row.concept, t))
    })
}

// Whether t is new and covers s.
fn blocks<B: Base>(view: &View<'_, '_, B>, s: Individual, t: Individual) -> bool
    ensures { result ≡ blocks (B.meaning view.now.base.now) (branch_in view.now) s.0 t.0 }
{
    view.base.counts().individuals <= t.0 && covers(view, t, s)
}

// Whether an individual before s blocks it.
fn some_blocks<B: Base>(view: &View<'_, '_, B>, s: Individual) -> bool
    ensures { result ≡ some_under (blocks (B.meaning view.now.base.now) (branch_in view.now) s.0) s.0 }
{
    (0..s.0).any(|t| blocks(view, s, Individual(t)))
}

/// Whether s is new, and a new individual before it holds every concept that s holds.
pub fn blocked<B: Base>(view: &View<'_, '_, B>, s: Individual) -> bool
    ensures { result ≡ blocked (B.meaning view.now.base.now) (branch_in view.now) s.0 }
{
    view.base.counts().individuals <= s.0 && some_blocks(view, s)
}

/// What was found at x, unless x is blocked. Blocking is asked last.
pub fn unless_blocked<B: Base>(
    view: &View<'_, '_, B>,
    x: Individual,
    found: Option<Failure>,
) -> Option<Failure>
    ensures { result ≡ unless_blocked (B.meaning view.now.base.now) (branch_in view.now) x.0 found }
{
    let f = found?;
    (!blocked(view, x)).then_some(f)
}
