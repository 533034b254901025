//! What holds of every reader.

ghost use Rattle.line_splitting.specs.Reading.{FreshReader, OneOutcome};

/// A fresh reader has all lines of its source to come.
pub fn fresh_reader()
    ensures { FreshReader }
{}

/// What waits determines the answer of a turn, but for a read that fails.
pub fn one_outcome()
    ensures { OneOutcome }
{}
