// Why two bases are not joined.
ghost use Rattle.join.specs.Lexicons.{join_fault_numbers};
ghost use Rattle.std.specs.Prelude.{◌≡◌, slice_index};

/// Why two bases do not belong together: their lexicons or their numbers of roles differ, 14.
#[derive(Clone, Copy, Debug, PartialEq, Eq)]
pub enum JoinFault {
    Differ,
}

impl JoinFault {
    /// The number that the fault is told by. It is published (docs/NUMBERS.md).
    pub fn number(self) -> u16
        ensures { result ≡ slice_index (join_fault_numbers self) 0 }
    {
        match self {
            JoinFault::Differ => 14,
        }
    }
}
