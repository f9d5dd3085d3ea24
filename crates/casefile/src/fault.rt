// What can be wrong with a case file as a whole.
ghost use Rattle.casefile.specs.Files.{file_fault_numbers};
ghost use Rattle.std.specs.Prelude.{◌≡◌, slice_index};

/// The file is not as long as its header says, or longer than 16,384 bytes: 13.
#[derive(Clone, Copy, Debug, PartialEq, Eq)]
pub enum FileFault {
    Broken,
}

impl FileFault {
    /// The first of the numbers that the fault is told by. They are published (docs/NUMBERS.md).
    pub fn number(self) -> u16
        ensures { result ≡ slice_index (file_fault_numbers self) 0 }
    {
        match self {
            FileFault::Broken => 13,
        }
    }
}
