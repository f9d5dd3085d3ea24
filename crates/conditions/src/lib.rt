// The conditions of review on the rows of a view: the first place at which one fails. Review answers with its condition alone.
// What is asked at one place, and whatever changes rows, does not belong here.
#![tactic(auto)]

ghost use Rattle.failures.specs.Failures.{first_failure};
ghost use Rattle.lookup.specs.Views.{branch_in};
ghost use Rattle.std.specs.Prelude.{◌≡◌};

use failures::failure::{EntryCondition, Failure};
use kb::base::Base;
use lookup::view::View;

mod axioms;
mod contradictions;
mod entries;
mod keys;
mod named;
mod unblocked;

/// The first place at which a condition fails: the lowest condition that fails, and under it the least place.
pub fn first_failure<B: Base>(view: &View<'_, '_, B>) -> Option<Failure>
    ensures { result ≡ first_failure (B.meaning view.now.base.now) (branch_in view.now) }
{
    // Not `or_else`, for the reason that `first_contradiction` gives.
    if let Some(f) = contradictions::first_contradiction(view) {
        return Some(f);
    }
    if let Some(f) = axioms::first_assertion(view) {
        return Some(f);
    }
    if let Some(f) = entries::first_of_entries(view, EntryCondition::BothParts) {
        return Some(f);
    }
    if let Some(f) = entries::first_of_entries(view, EntryCondition::AllReached) {
        return Some(f);
    }
    if let Some(f) = axioms::first_inclusion(view) {
        return Some(f);
    }
    if let Some(f) = keys::first_key(view) {
        return Some(f);
    }
    if let Some(f) = entries::first_of_entries(view, EntryCondition::EitherPart) {
        return Some(f);
    }
    entries::first_of_entries(view, EntryCondition::SomeReached)
}
