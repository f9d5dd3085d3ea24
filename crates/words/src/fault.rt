// Why a text is not read.

/// Why a text is not read.
#[derive(Clone, Copy, Debug, PartialEq, Eq)]
pub enum ReadFault {
    /// What stands there is not what was to be read.
    Unreadable,
}
