// Condition 1: no individual holds a concept and its complement, and none that are different are equal.
ghost use Rattle.std.specs.Prelude.{◌≡◌, ◌+◌, ◌*◌};
ghost use Rattle.calculus.specs.Review.{concept};
ghost use Rattle.failures.specs.Failures.{apart_at, clash_at, first_apart, first_clash, first_contradiction, first_on_sheet};
ghost use Rattle.lookup.specs.Views.{branch_in};

use crate::named::concept_named;
use failures::failure::Failure;
use kb::base::Base;
use kb::names::{Concept, Individual};
use lookup::view::View;
use places::contradictions::{apart_at, clash_at};

// The first individual of which both concepts are held.
fn first_clash_between<B: Base>(view: &View<'_, '_, B>, c: Concept, d: Concept) -> Option<Failure>
    ensures { result ≡ first_on_sheet (B.meaning view.now.base.now) (branch_in view.now) (clash_at (B.meaning view.now.base.now) (branch_in view.now) c d) }
{
    (0..view.individuals()).find_map(|x| clash_at(view, c, d, Individual(x)))
}

// The same for the two concepts of entry k: none where one of them is held of nothing.
fn first_clash_of<B: Base>(view: &View<'_, '_, B>, k: u16) -> Option<Failure>
    ensures { result ≡ first_on_sheet (B.meaning view.now.base.now) (branch_in view.now) (clash_at (B.meaning view.now.base.now) (branch_in view.now) (concept (2 * k)) (concept (2 * k + 1))) }
{
    let c = concept_named(view, 2 * usize::from(k))?;
    let d = concept_named(view, 2 * usize::from(k) + 1)?;
    first_clash_between(view, c, d)
}

fn first_clash<B: Base>(view: &View<'_, '_, B>) -> Option<Failure>
    ensures { result ≡ first_clash (B.meaning view.now.base.now) (branch_in view.now) }
{
    (0..view.base.counts().entries).find_map(|k| first_clash_of(view, k))
}

// The first y that is different from x and equal.
fn first_apart_from<B: Base>(view: &View<'_, '_, B>, x: Individual) -> Option<Failure>
    ensures { result ≡ first_on_sheet (B.meaning view.now.base.now) (branch_in view.now) (apart_at (B.meaning view.now.base.now) (branch_in view.now) x.0) }
{
    (0..view.individuals()).find_map(|y| apart_at(view, x, Individual(y)))
}

fn first_apart<B: Base>(view: &View<'_, '_, B>) -> Option<Failure>
    ensures { result ≡ first_apart (B.meaning view.now.base.now) (branch_in view.now) }
{
    (0..view.individuals()).find_map(|x| first_apart_from(view, Individual(x)))
}

// The first place at which condition 1 fails: a clash, or, where there is none, two that are different and equal.
pub(crate) fn first_contradiction<B: Base>(view: &View<'_, '_, B>) -> Option<Failure>
    ensures { result ≡ first_contradiction (B.meaning view.now.base.now) (branch_in view.now) }
{
    // Not `or_else`: where nothing clashes, it gives what its closure answers, and a closure that is called once and captures a
    // reference to a struct with a lifetime, as to a view, promises nothing of that, not even by a clause of its own. So `returns`
    // stays open. A function of our own like it, under the bound `Fn`, would prove, and be the library's method by hand.
    match first_clash(view) {
        None => first_apart(view),
        found => found,
    }
}
