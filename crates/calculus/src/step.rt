// The ten steps.
use kb::names::{Concept, Individual};

/// A step of the calculus, with the numbers that it names.
#[derive(Clone, Copy, Debug, PartialEq, Eq)]
pub enum Step<'a> {
    /// Takes an assertion of the base.
    Take(usize),
    /// From BOTH(d, e) of x: d and e of x.
    Both(Concept, Individual),
    /// From ~SOME(r, d) of x and r from x to y: ~d of y.
    All(Concept, Individual, Individual),
    /// From SOME(r, d) of x: a new y, r from x to y, d of y.
    Some(Concept, Individual),
    /// By an inclusion (c, d), from c of x: d of x.
    Include(usize, Individual),
    /// By a key, from its classes and shared values: x same as y. One shared value for each pair.
    Key(usize, Individual, Individual, &'a [Individual]),
    /// From ~BOTH(d, e) of x: left ~d, right ~e of x.
    Either(Concept, Individual),
    /// Left c, right ~c of x.
    Cut(Concept, Individual),
    /// c and ~c of x close the branch.
    Clash(Concept, Individual),
    /// x different from y, and yet equal, closes the branch.
    Apart(Individual, Individual),
}
