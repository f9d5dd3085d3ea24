// Facts of one individual that several conditions ask for.
ghost use Rattle.calculus.specs.Branches.{held};
ghost use Rattle.kb.specs.declared.axioms.Assertion.TheVariants.{Is};
ghost use Rattle.kb.specs.Names.{complement};
ghost use Rattle.lookup.specs.Views.{branch_in};
ghost use Rattle.std.specs.Prelude.{◌≡◌};

use kb::axioms::Assertion;
use kb::base::Base;
use kb::names::{Concept, Individual};
use lookup::view::View;

// Whether c is held of x.
pub(crate) fn is_held<B: Base>(view: &View<'_, '_, B>, c: Concept, x: Individual) -> bool
    ensures { result ≡ held (B.meaning view.now.base.now) (branch_in view.now) (Is c x) }
{
    view.held(&Assertion::Is(c, x))
}

// Whether ~c is held of x.
pub(crate) fn complement_held<B: Base>(view: &View<'_, '_, B>, c: Concept, x: Individual) -> bool
    ensures { result ≡ held (B.meaning view.now.base.now) (branch_in view.now) (Is (complement c) x) }
{
    is_held(view, c.complement(), x)
}
