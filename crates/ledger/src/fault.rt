// Why a ledger refuses a row.

/// Every slot is used: 10.
#[derive(Clone, Copy, Debug, PartialEq, Eq)]
pub enum LedgerFault {
    Full,
}
