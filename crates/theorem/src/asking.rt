// What the base that asks a statement says of the statement and of the base below.
ghost use Rattle.theorem.specs.Asking.{ClosedEntails, OpenBreaks};

/// If no interpretation satisfies a question then its statement follows, and one that does breaks the statement.
pub fn questions_are_asked()
    ensures { ClosedEntails × OpenBreaks }
{}
