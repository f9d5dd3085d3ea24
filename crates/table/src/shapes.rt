// What a concept of the base is.
ghost use Rattle.calculus.specs.Table.{shape_in, shape_of};
ghost use Rattle.std.specs.Prelude.{◌≡◌, ◌%◌};

use crate::lines::{Lines, inside};
use calculus::fault::StepFault;
use calculus::shape::Shape;
use kb::base::Base;
use kb::lexicon::Entry;
use kb::names::Concept;

// The concept of an entry: the entry itself where its number is even, else the complement.
fn shape_of(even: bool, entry: Entry) -> Shape
    ensures { result ≡ shape_of even entry }
{
    match (entry, even) {
        (Entry::Both(d, e), true) => Shape::Both(d, e),
        (Entry::Both(d, e), false) => Shape::NotBoth(d, e),
        (Entry::Some(r, d), true) => Shape::Some(r, d),
        (Entry::Some(r, d), false) => Shape::NotSome(r, d),
        _ => Shape::Plain,
    }
}

impl<B: Base> Lines<'_, B> {
    /// The shape of a concept, if the lexicon has its entry and the individuals named are in range.
    pub(crate) fn shape(&self, c: Concept, in_range: bool) -> Result<Shape, StepFault>
        ensures { result ≡ shape_in (B.meaning self.now.base.now) self.now.individuals in_range c }
    {
        let entry = self
            .base
            .entry(c.entry_number())
            .map_err(|_| StepFault::Range)?;
        inside(in_range, shape_of(c.0 % 2 == 0, entry))
    }
}
