// What an allowed step does: what is written, once it is known what is held.
ghost use Rattle.std.specs.Prelude.{◌≡◌, ◌≤◌};

use calculus::row_kinds::{ConceptRow, PendingRow};
use table::adds::Adds;

/// What a step does whose needs are held. It is decided first and done then, since deciding borrows the ledgers to read and doing
/// borrows them to write.
#[derive(Clone, Copy)]
pub(crate) enum Turn {
    /// Notes the right side of a split, if there is one, and writes facts of which nothing is held. So many individuals there
    /// are then.
    Extends {
        individuals: u16,
        split: Option<ConceptRow>,
        new: Adds,
    },
    /// Ends the branch, and takes up the right side that was noted last.
    TakesUp(Side),
    /// Ends the branch and closes the sheet, since no right side is pending.
    Closes,
}

/// A right side that is to be taken up.
#[derive(Clone, Copy)]
pub(crate) struct Side {
    pub(crate) row: PendingRow,
    /// Whether it is held on the branch as it was when it was noted. No `Option` of the side: one that is held is taken up too,
    /// and only not written.
    pub(crate) is_held: bool,
    ghost few: { row.individuals ≤ 1024 },
}

/// What an accepted step leaves beside the rows in the ledgers.
#[derive(Clone, Copy)]
pub(crate) struct Done {
    /// How many individuals there are.
    pub(crate) individuals: u16,
    /// Whether the sheet is closed.
    pub(crate) closed: bool,
    /// How many rows were written outside the pending ledger.
    pub(crate) rows: usize,
    ghost within: { individuals ≤ 1024 },
}
