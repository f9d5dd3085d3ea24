// The calls of a run, and what each answers.
use calculus::fault::StepFault;
use calculus::review::{Finding, ReviewFault};
use calculus::step::Step;

/// A call on a sheet that leaves it to be used on.
#[derive(Clone, Copy, Debug, PartialEq, Eq)]
pub enum Call<'a> {
    Step(Step<'a>),
    Review,
}

/// What a call answers, refusals among it.
#[derive(Clone, Copy, Debug, PartialEq, Eq)]
pub enum Answer {
    /// How many rows a step wrote, or why it was refused.
    Step(Result<usize, StepFault>),
    /// What review found, or why it found nothing.
    Review(Result<Finding, ReviewFault>),
}
