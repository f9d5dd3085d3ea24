// Why a step is refused.
ghost use Rattle.calculus.specs.Faults.{step_fault_numbers};
ghost use Rattle.std.specs.Prelude.{◌≡◌, slice_index};
ghost use Rattle.calculus.specs.declared.fault.StepFault.TheVariants.{Row};

use rows::RowFault;

/// Why a step is refused, in the order in which it is looked at.
#[derive(Clone, Copy, Debug, PartialEq, Eq)]
pub enum StepFault {
    /// Sizes or row counts are not the sheet's, or a row names what the sheet or the base does not have: 5.
    Changed,
    /// The sheet is closed: 6.
    Closed,
    /// The number of a row of the base is out of range: 7, with the row's refusal inside.
    Row(RowFault),
    /// A concept or an individual is out of range: 7.
    Range,
    /// The concept is of another kind, or the count of shared values is not the key's: 8.
    Kind,
    /// A premise is not held: 9.
    Premise,
    /// Scratch, rows, individuals or steps are full: 10.
    Full,
}

impl From<RowFault> for StepFault {
    ghost from_gives = { λ f r. r ≡ Row f };

    fn from(f: RowFault) -> StepFault {
        StepFault::Row(f)
    }
}

impl StepFault {
    /// The first of the numbers that the fault is told by. They are published (docs/NUMBERS.md).
    pub fn number(self) -> u16
        ensures { result ≡ slice_index (step_fault_numbers self) 0 }
    {
        match self {
            StepFault::Changed => 5,
            StepFault::Closed => 6,
            StepFault::Row(_) => 7,
            StepFault::Range => 7,
            StepFault::Kind => 8,
            StepFault::Premise => 9,
            StepFault::Full => 10,
        }
    }
}
