// The search that conditions 3, 4, 5, 7 and 8 share: over the individuals that are not blocked.
ghost use Rattle.conditions.specs.Unblocked.{FindsAs, first_unblocked};
ghost use Rattle.lookup.specs.Views.{branch_in};
ghost use Rattle.std.specs.Prelude.{◌≡◌};

use failures::failure::Failure;
use kb::base::Base;
use kb::names::Individual;
use lookup::view::View;
use places::blocking::unless_blocked;

// What is found at the first individual at which something is found and that is not blocked.
pub(crate) fn first_unblocked<B: Base, F: Fn(Individual) -> Option<Failure>>(
    view: &View<'_, '_, B>,
    find: F,
) -> Option<Failure>
    requires { F.IsAlwaysCallable find }
    ensures { (at : _) → FindsAs (F.post find) at → result ≡ first_unblocked (B.meaning view.now.base.now) (branch_in view.now) at }
{
    (0..view.individuals()).find_map(|x| {
        let x = Individual(x);
        unless_blocked(view, x, find(x))
    })
}
