// Where the lines of the table are looked up, and whether the individuals that a step names are there.
ghost use Rattle.calculus.specs.Table.{all_below, below, inside};
ghost use Rattle.std.specs.Prelude.{◌≡◌};

use calculus::fault::StepFault;
use kb::names::Individual;

/// The table over a base, on a sheet with so many individuals.
#[derive(Drop)]
pub(crate) struct Lines<'b, B> {
    pub(crate) base: &'b B,
    pub(crate) individuals: u16,
}

impl<B> Lines<'_, B> {
    /// Whether the sheet has this individual.
    pub(crate) fn has(&self, x: Individual) -> bool
        ensures { result ≡ below self.now.individuals x }
    {
        x.0 < self.individuals
    }

    /// Whether it has all of them.
    pub(crate) fn has_all(&self, zs: &[Individual]) -> bool
        ensures { result ≡ all_below self.now.individuals zs.now }
    {
        zs.iter().all(|z| self.has(*z))
    }
}

/// What is asked, if the numbers named are in range.
pub(crate) fn inside<T: Copy>(in_range: bool, asked: T) -> Result<T, StepFault>
    ensures { result ≡ inside in_range asked }
{
    in_range.then_some(asked).ok_or(StepFault::Range)
}
