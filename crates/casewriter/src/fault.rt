// Why a base is not written.
ghost use Rattle.casewriter.specs.Writing.{write_fault_numbers};
ghost use Rattle.casewriter.specs.declared.fault.WriteFault.TheVariants.{Base};
ghost use Rattle.std.specs.Prelude.{◌≡◌, slice_index};

use kb::fault::BaseFault;

/// Why a base is not written.
#[derive(Clone, Copy, Debug, PartialEq, Eq)]
pub enum WriteFault {
    /// The base is not accepted: 4, or 2 with a list and a row.
    Base(BaseFault),
    /// The buffer is too short for the file: 10.
    Full,
}

impl WriteFault {
    /// The first of the numbers that the fault is told by. They are published (docs/NUMBERS.md).
    pub fn number(self) -> u16
        ensures { result ≡ slice_index (write_fault_numbers self) 0 }
    {
        match self {
            WriteFault::Base(f) => f.number(),
            WriteFault::Full => 10,
        }
    }
}

impl From<BaseFault> for WriteFault {
    ghost from_gives = { λ f r. r ≡ Base f };

    fn from(f: BaseFault) -> WriteFault {
        WriteFault::Base(f)
    }
}
