// What a sheet remembers of its base, its ledgers and its steps.
ghost use Rattle.std.specs.Prelude.{◌≤◌};

use calculus::lengths::Lengths;
use kb::counts::Counts;

/// A sheet: plain numbers that are moved, never copied. Its rows are kept in the ledgers that each call is lent.
#[derive(Drop)]
pub struct Sheet {
    // The counts of the base that it was opened over.
    pub(crate) base: Counts,
    // How many places its ledgers have.
    pub(crate) sizes: Lengths,
    // How many rows its ledgers have.
    pub(crate) rows: Lengths,
    // How many individuals there are: the base's, then new ones.
    pub(crate) individuals: u16,
    // The steps accepted since opening.
    pub(crate) steps: u32,
    // Whether it is closed. No type of its own for a closed sheet: a host keeps one sheet, and each call says what it does on both.
    pub(crate) closed: bool,
    ghost few: { individuals ≤ 1024 },
}
