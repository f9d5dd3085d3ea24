// What review finds, and why it may find nothing.
ghost use Rattle.calculus.specs.Faults.{condition_number, review_fault_numbers};
ghost use Rattle.std.specs.Prelude.{◌≡◌, slice_index};

/// What review finds.
#[derive(Clone, Copy, Debug, PartialEq, Eq)]
pub enum Finding {
    /// The sheet is closed: no interpretation satisfies the base.
    Closed,
    /// The eight conditions hold: the walks satisfy the base.
    Open,
}

/// The eight conditions of review, in the order in which they are tested; their numbers are 1 to 8.
#[derive(Clone, Copy, Debug, PartialEq, Eq)]
pub enum Condition {
    /// No individual holds a concept and its complement, and none that are different are equal.
    NoContradiction = 1,
    /// Every assertion is held.
    Assertions = 2,
    /// A held BOTH has both parts held.
    BothParts = 3,
    /// A held ~SOME(r, d) has ~d held of all that r reaches.
    AllReached = 4,
    /// Each inclusion is decided.
    Inclusions = 5,
    /// Each key is decided.
    Keys = 6,
    /// A held ~BOTH has the complement of a part held.
    EitherPart = 7,
    /// A held SOME(r, d) has d held of some that r reaches.
    SomeReached = 8,
}

/// Why review finds nothing.
#[derive(Clone, Copy, Debug, PartialEq, Eq)]
pub enum ReviewFault {
    /// Sizes or row counts are not the sheet's, or a row names what the sheet or the base does not have: 5.
    Changed,
    /// The scratch is too short: 10.
    Full,
    /// The lowest condition that fails: 11, condition.
    Condition(Condition),
}

impl Condition {
    /// The number that the condition is told by. It is published (docs/NUMBERS.md).
    pub fn number(self) -> u16
        ensures { result ≡ condition_number self }
    {
        self as u16
    }
}

impl ReviewFault {
    /// The first of the numbers that the fault is told by. They are published (docs/NUMBERS.md).
    pub fn number(self) -> u16
        ensures { result ≡ slice_index (review_fault_numbers self) 0 }
    {
        match self {
            ReviewFault::Changed => 5,
            ReviewFault::Full => 10,
            ReviewFault::Condition(_) => 11,
        }
    }
}
