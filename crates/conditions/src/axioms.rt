// Conditions 2 and 5: every assertion is held, and each inclusion is decided on each individual that is not blocked.
ghost use Rattle.failures.specs.Failures.{first_assertion, first_inclusion, first_of_inclusion};
ghost use Rattle.lookup.specs.Views.{branch_in};
ghost use Rattle.std.specs.Prelude.{◌≡◌};

use crate::unblocked::first_unblocked;
use failures::failure::Failure;
use kb::axioms::Inclusion;
use kb::base::Base;
use lookup::view::View;
use places::axioms::{assertion_at, inclusion_at};

// The first assertion that is not held.
pub(crate) fn first_assertion<B: Base>(view: &View<'_, '_, B>) -> Option<Failure>
    ensures { result ≡ first_assertion (B.meaning view.now.base.now) (branch_in view.now) }
{
    (0..view.base.counts().assertions).find_map(|n| assertion_at(view, n))
}

// The first individual, of those that are not blocked, on which an inclusion is not decided.
fn first_of_inclusion<B: Base>(view: &View<'_, '_, B>, n: u16, row: Inclusion) -> Option<Failure>
    ensures { result ≡ first_of_inclusion (B.meaning view.now.base.now) (branch_in view.now) n row }
{
    first_unblocked(view, |x| inclusion_at(view, n, row, x))
}

// The first inclusion and individual at which condition 5 fails.
pub(crate) fn first_inclusion<B: Base>(view: &View<'_, '_, B>) -> Option<Failure>
    ensures { result ≡ first_inclusion (B.meaning view.now.base.now) (branch_in view.now) }
{
    (0..view.base.counts().inclusions).find_map(|n| {
        let row = view.base.inclusion(usize::from(n)).ok()?;
        first_of_inclusion(view, n, row)
    })
}
