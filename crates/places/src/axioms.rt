// Conditions 2, 5 and 6 at a place: assertions, inclusions and keys.
ghost use Rattle.calculus.specs.Branches.{equal, held};
ghost use Rattle.calculus.specs.Review.{key_kept, share_value};
ghost use Rattle.failures.specs.Failures.{assertion_at, inclusion_at, key_at};
ghost use Rattle.kb.specs.declared.axioms.Assertion.TheVariants.{Is};
ghost use Rattle.kb.specs.Names.{complement};
ghost use Rattle.kb.specs.Numbers.{pair_list};
ghost use Rattle.lookup.specs.Views.{branch_in};
ghost use Rattle.std.specs.Prelude.{◌≡◌, ◌||◌};
ghost use Rattle.std.specs.List.{list_all};

use crate::facts::{complement_held, is_held};
use crate::reaching::reaches;
use failures::failure::Failure;
use kb::axioms::{Assertion, Inclusion, Key, RolePair, RolePairs};
use kb::base::Base;
use kb::names::{Concept, Individual};
use lookup::view::View;

/// A failure of condition 2, if there is an assertion n and it is not held.
pub fn assertion_at<B: Base>(view: &View<'_, '_, B>, n: u16) -> Option<Failure>
    ensures { result ≡ assertion_at (B.meaning view.now.base.now) (branch_in view.now) n }
{
    let n = usize::from(n);
    let fact = view.base.assertion(n).ok()?;
    (!view.held(&fact)).then_some(Failure::Assertion(n))
}

/// A failure of condition 5, if by the inclusion (c, d), which is row n, neither ~c nor d is held of x.
pub fn inclusion_at<B: Base>(
    view: &View<'_, '_, B>,
    n: u16,
    row: Inclusion,
    x: Individual,
) -> Option<Failure>
    ensures { result ≡ inclusion_at (B.meaning view.now.base.now) (branch_in view.now) n row x.0 }
{
    let fails = !complement_held(view, row.sub, x) && !is_held(view, row.sup, x);
    fails.then_some(Failure::Inclusion(usize::from(n), x))
}

// Whether the roles of a pair go from x and from y to one individual.
fn share_value<B: Base>(
    view: &View<'_, '_, B>,
    x: Individual,
    y: Individual,
    pair: RolePair,
) -> bool
    ensures { result ≡ share_value (B.meaning view.now.base.now) (branch_in view.now) x.0 y.0 pair }
{
    reaches(
        view,
        pair.left,
        x,
        |z| view.held(&Assertion::Joins(pair.right, y, z)),
    )
}

fn share_values<B: Base>(
    view: &View<'_, '_, B>,
    x: Individual,
    y: Individual,
    pairs: RolePairs,
) -> bool
    ensures { result ≡ list_all (share_value (B.meaning view.now.base.now) (branch_in view.now) x.0 y.0) (pair_list pairs) }
{
    pairs
        .list()
        .iter()
        .all(|pair| share_value(view, x, y, *pair))
}

// Whether ~c is held of x, or ~d of y, or they are equal.
fn decided<B: Base>(
    view: &View<'_, '_, B>,
    c: Concept,
    d: Concept,
    x: Individual,
    y: Individual,
) -> bool
    ensures { result ≡ (held (B.meaning view.now.base.now) (branch_in view.now) (Is (complement c) x) || (held (B.meaning view.now.base.now) (branch_in view.now) (Is (complement d) y) || equal (branch_in view.now).pairs x y)) }
{
    complement_held(view, c, x) || complement_held(view, d, y) || view.equal(x, y)
}

// Whether a key asks nothing more of x and y. Shared values are looked for last.
fn key_kept<B: Base>(view: &View<'_, '_, B>, key: Key, x: Individual, y: Individual) -> bool
    ensures { result ≡ key_kept (B.meaning view.now.base.now) (branch_in view.now) key x.0 y.0 }
{
    match key {
        Key::Link(c, d, pairs) => decided(view, c, d, x, y) || !share_values(view, x, y, pairs),
        Key::Unlisted(_) => true,
    }
}

/// A failure of condition 6, if by the key, which is row n, x and y share its values and are not decided.
pub fn key_at<B: Base>(
    view: &View<'_, '_, B>,
    n: u16,
    key: Key,
    x: Individual,
    y: Individual,
) -> Option<Failure>
    ensures { result ≡ key_at (B.meaning view.now.base.now) (branch_in view.now) n key x.0 y.0 }
{
    let fails = !key_kept(view, key, x, y);
    fails.then_some(Failure::Key(usize::from(n), x, y))
}
