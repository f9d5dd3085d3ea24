// Condition 6: each key is decided on individuals of the base that share its values.
ghost use Rattle.failures.specs.Failures.{first_key, first_of_key, first_under, key_at};
ghost use Rattle.lookup.specs.Views.{branch_in};
ghost use Rattle.std.specs.Prelude.{◌≡◌};

use failures::failure::Failure;
use kb::axioms::Key;
use kb::base::Base;
use kb::names::Individual;
use lookup::view::View;
use places::axioms::key_at;

// The first y of the base for which the key is not decided on x and y.
fn first_with<B: Base>(view: &View<'_, '_, B>, n: u16, key: Key, x: Individual) -> Option<Failure>
    ensures { result ≡ first_under (key_at (B.meaning view.now.base.now) (branch_in view.now) n key x.0) (B.meaning view.now.base.now).individuals }
{
    (0..view.base.counts().individuals).find_map(|y| key_at(view, n, key, x, Individual(y)))
}

fn first_of_key<B: Base>(view: &View<'_, '_, B>, n: u16, key: Key) -> Option<Failure>
    ensures { result ≡ first_of_key (B.meaning view.now.base.now) (branch_in view.now) n key }
{
    (0..view.base.counts().individuals).find_map(|x| first_with(view, n, key, Individual(x)))
}

// The first key and two individuals at which condition 6 fails. One function for this, `first_inclusion` and
// `first_of_entries` would be given how a row is read and what is found in it, and its three calls would be no shorter.
pub(crate) fn first_key<B: Base>(view: &View<'_, '_, B>) -> Option<Failure>
    ensures { result ≡ first_key (B.meaning view.now.base.now) (branch_in view.now) }
{
    (0..view.base.counts().keys).find_map(|n| {
        let key = view.base.key(usize::from(n)).ok()?;
        first_of_key(view, n, key)
    })
}
