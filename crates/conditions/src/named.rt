// Which concepts the rows of a view have. A concept of a foreign base may have a number that no name has, and then no row has it.
ghost use Rattle.conditions.specs.Named.{concept_named};
ghost use Rattle.lookup.specs.Views.{branch_in};
ghost use Rattle.std.specs.Prelude.{◌≡◌};

use kb::names::Concept;
use lookup::view::View;

// The concept of a number, if it can be held of anything: concept 0, or one that a row has.
pub(crate) fn concept_named<B>(view: &View<'_, '_, B>, n: usize) -> Option<Concept>
    ensures { result ≡ concept_named (branch_in view.now) n }
{
    if n == 0 {
        return Some(Concept(0));
    }
    let row = view
        .concepts
        .iter()
        .find(|row| usize::from(row.concept.0) == n)?;
    Some(row.concept)
}
