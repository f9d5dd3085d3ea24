// Why a base is not accepted.
ghost use Rattle.kb.specs.Check.{base_fault_numbers, list_number};
ghost use Rattle.std.specs.Prelude.{◌≡◌, slice_index};

/// The four lists of rows, in the order in which they are checked; their numbers are 0 to 3.
#[derive(Clone, Copy, Debug, PartialEq, Eq)]
pub enum RowList {
    Entries = 0,
    Assertions = 1,
    Inclusions = 2,
    Keys = 3,
}

/// Why a base is not accepted.
#[derive(Clone, Copy, Debug, PartialEq, Eq)]
pub enum BaseFault {
    /// A count is not accepted: 4.
    Size,
    /// The first row out of range, by its list and its number there: 2, list, row.
    Row(RowList, u16),
}

impl RowList {
    /// The list's place in the order in which lists are checked, from 0.
    pub fn number(self) -> u16
        ensures { result ≡ list_number self }
    {
        self as u16
    }
}

impl BaseFault {
    /// The first of the numbers that the fault is told by. They are published (docs/NUMBERS.md).
    pub fn number(self) -> u16
        ensures { result ≡ slice_index (base_fault_numbers self) 0 }
    {
        match self {
            BaseFault::Size => 4,
            BaseFault::Row(_, _) => 2,
        }
    }
}
