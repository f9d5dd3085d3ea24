// A line that was read: a step that owns its numbers.
ghost use Rattle.lines.specs.Steps.{line_step, unplaced};
ghost use Rattle.std.specs.Prelude.{◌≡◌};

use arrayvec::ArrayVec;
use calculus::step::Step;
use kb::names::{Concept, Individual};

/// A step that was read from a text. It owns what it names.
// A `Step` borrows its shared values, and what is read must own them: one type for both would put a parameter on every step.
#[derive(Drop)]
pub enum Line {
    Take(u16),
    Both(Concept, Individual),
    All(Concept, Individual, Individual),
    Some(Concept, Individual),
    Include(u16, Individual),
    Key(u16, Individual, Individual, ArrayVec<Individual, 4>),
    Either(Concept, Individual),
    Cut(Concept, Individual),
    Clash(Concept, Individual),
    Apart(Individual, Individual),
}

impl Line {
    /// The step.
    pub fn step(&self) -> Step<'_>
        ensures { unplaced result ≡ line_step self.now }
    {
        match self {
            Line::Take(n) => Step::Take(usize::from(*n)),
            Line::Both(c, x) => Step::Both(*c, *x),
            Line::All(c, x, y) => Step::All(*c, *x, *y),
            Line::Some(c, x) => Step::Some(*c, *x),
            Line::Include(n, x) => Step::Include(usize::from(*n), *x),
            Line::Key(n, x, y, values) => Step::Key(usize::from(*n), *x, *y, values.as_slice()),
            Line::Either(c, x) => Step::Either(*c, *x),
            Line::Cut(c, x) => Step::Cut(*c, *x),
            Line::Clash(c, x) => Step::Clash(*c, *x),
            Line::Apart(x, y) => Step::Apart(*x, *y),
        }
    }
}
