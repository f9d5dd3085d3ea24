// What a line of the table adds.
use kb::axioms::Assertion;
use kb::names::{Concept, Individual, Role};

/// The facts that a step adds, in the order in which they are written. Leaving out some of them gives such a thing again.
#[derive(Clone, Copy, Debug, PartialEq, Eq)]
pub enum Adds {
    /// Nothing is added, since the step closes or all is held. No `Option` of the others: each function that looks up, counts or
    /// writes facts would then take the `Option`, and match `None` where it matches this.
    Nothing,
    Fact(Assertion),
    /// Both parts d and e of a BOTH, of x: d of x, e of x.
    Parts(Concept, Concept, Individual),
    /// The individual y that a SOME step reaches from x: r from x to y, d of y. The order here is r, x, y, d.
    Reached(Role, Individual, Individual, Concept),
}
