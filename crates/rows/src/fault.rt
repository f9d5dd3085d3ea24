// Why a question for a row is refused.

/// A list has no row of the number asked for: 1.
#[derive(Clone, Copy, Debug, PartialEq, Eq)]
pub enum RowFault {
    NoSuchRow,
}
