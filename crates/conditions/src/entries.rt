// Conditions 3, 4, 7 and 8: what each entry asks of each individual that is not blocked.
ghost use Rattle.failures.specs.Failures.{all_at, asked_of, entry_at, first_of_entries, first_of_entry, first_on_sheet, reached_at};
ghost use Rattle.lookup.specs.Views.{branch_in};
ghost use Rattle.std.specs.Prelude.{◌≡◌};

use crate::named::concept_named;
use crate::unblocked::first_unblocked;
use failures::failure::{EntryCondition, Failure};
use kb::axioms::Assertion;
use kb::base::Base;
use kb::lexicon::Entry;
use kb::names::{Concept, Individual, Role};
use lookup::view::View;
use places::entries::{both_at, either_at, reached_at, some_at};

// The first y to which r goes from x and of which ~d is not held.
fn first_reached<B: Base>(
    view: &View<'_, '_, B>,
    c: Concept,
    r: Role,
    d: Concept,
    x: Individual,
) -> Option<Failure>
    ensures { result ≡ first_on_sheet (B.meaning view.now.base.now) (branch_in view.now) (reached_at (B.meaning view.now.base.now) (branch_in view.now) c r d x.0) }
{
    (0..view.individuals()).find_map(|y| reached_at(view, c, r, d, x, Individual(y)))
}

// Condition 4 at x, where c is ~SOME(r, d).
fn all_at<B: Base>(
    view: &View<'_, '_, B>,
    c: Concept,
    r: Role,
    d: Concept,
    x: Individual,
) -> Option<Failure>
    ensures { result ≡ all_at (B.meaning view.now.base.now) (branch_in view.now) c r d x.0 }
{
    if view.held(&Assertion::Is(c, x)) {
        first_reached(view, c, r, d, x)
    } else {
        None
    }
}

// What a condition finds at x, where c is the concept of the entry that it asks about. One match, which says what `entry_at`
// does; a closure for each condition would have to promise it four times, with `asked_of` beside it.
fn entry_at<B: Base>(
    view: &View<'_, '_, B>,
    which: EntryCondition,
    c: Concept,
    row: Entry,
    x: Individual,
) -> Option<Failure>
    ensures { result ≡ entry_at (B.meaning view.now.base.now) (branch_in view.now) which c row x.0 }
{
    match (which, row) {
        (EntryCondition::BothParts, Entry::Both(d, e)) => both_at(view, c, d, e, x),
        (EntryCondition::AllReached, Entry::Some(r, d)) => all_at(view, c, r, d, x),
        (EntryCondition::EitherPart, Entry::Both(d, e)) => either_at(view, c, d, e, x),
        (EntryCondition::SomeReached, Entry::Some(r, d)) => some_at(view, c, r, d, x),
        _ => None,
    }
}

// The number of the concept of entry k that a condition asks about: the entry's own, or its complement.
fn asked_of(which: EntryCondition, k: u16) -> usize
    ensures { result ≡ asked_of which k }
{
    match which {
        EntryCondition::BothParts | EntryCondition::SomeReached => 2 * usize::from(k),
        EntryCondition::AllReached | EntryCondition::EitherPart => 2 * usize::from(k) + 1,
    }
}

// The first individual, of those that are not blocked, at which something is found of entry k: none where its concept is held
// of nothing.
fn first_of_entry<B: Base>(
    view: &View<'_, '_, B>,
    which: EntryCondition,
    k: u16,
    row: Entry,
) -> Option<Failure>
    ensures { result ≡ first_of_entry (B.meaning view.now.base.now) (branch_in view.now) which (asked_of which k) row }
{
    let c = concept_named(view, asked_of(which, k))?;
    first_unblocked(view, |x| entry_at(view, which, c, row, x))
}

// The first entry and individual at which the condition fails.
pub(crate) fn first_of_entries<B: Base>(
    view: &View<'_, '_, B>,
    which: EntryCondition,
) -> Option<Failure>
    ensures { result ≡ first_of_entries (B.meaning view.now.base.now) (branch_in view.now) which }
{
    (0..view.base.counts().entries).find_map(|k| {
        let row = view.base.entry(usize::from(k)).ok()?;
        first_of_entry(view, which, k, row)
    })
}
