// Why a step is not written.

/// Why a step is not written.
#[derive(Clone, Copy, Debug, PartialEq, Eq)]
pub enum LineFault {
    /// A number above 65,535, or more than four shared values.
    Unwritable,
    /// The buffer is too short for the line.
    Full,
}
