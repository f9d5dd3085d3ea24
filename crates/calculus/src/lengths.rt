// How many rows, or places for rows, the four ledgers of a sheet have.

/// A number for each ledger.
#[derive(Clone, Copy, Debug, PartialEq, Eq)]
pub struct Lengths {
    pub concepts: usize,
    pub roles: usize,
    pub pairs: usize,
    pub pending: usize,
}
