// Why a text is not played to its end.
ghost use Rattle.texts.specs.Faults.{line_fault_numbers, text_fault_numbers};
ghost use Rattle.texts.specs.declared.fault.LineFault.TheVariants.{Step, Unreadable};
ghost use Rattle.std.specs.Prelude.{◌≡◌, slice_index};

use calculus::fault::StepFault;
use words::fault::ReadFault;

/// Why a line is not played.
#[derive(Clone, Copy, Debug, PartialEq, Eq)]
pub enum LineFault {
    /// It is no line: 12.
    Unreadable,
    /// Its step is refused: the step's refusal, with a row's inside.
    Step(StepFault),
}

impl From<ReadFault> for LineFault {
    ghost from_gives = { λ f r. r ≡ Unreadable };

    fn from(_fault: ReadFault) -> LineFault {
        LineFault::Unreadable
    }
}

impl From<StepFault> for LineFault {
    ghost from_gives = { λ f r. r ≡ Step f };

    fn from(fault: StepFault) -> LineFault {
        LineFault::Step(fault)
    }
}

/// Why a text is not played to its end.
#[derive(Clone, Copy, Debug, PartialEq, Eq)]
pub enum TextFault {
    /// The text is too long: 4.
    Size,
    /// The number of a line, from 1, and why it is not played.
    Line(usize, LineFault),
}

impl LineFault {
    /// The first of the numbers that the fault is told by. They are published (docs/NUMBERS.md).
    pub fn number(self) -> u16
        ensures { result ≡ slice_index (line_fault_numbers self) 0 }
    {
        match self {
            LineFault::Unreadable => 12,
            LineFault::Step(fault) => fault.number(),
        }
    }
}

impl TextFault {
    /// The first of the numbers that the fault is told by. They are published (docs/NUMBERS.md).
    pub fn number(self) -> u16
        ensures { result ≡ slice_index (text_fault_numbers self) 0 }
    {
        match self {
            TextFault::Size => 4,
            TextFault::Line(_, fault) => fault.number(),
        }
    }
}
