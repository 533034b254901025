//! Laws over the definitions, each the contract of a function that does nothing.

ghost use Rattle.table_lines.specs.Laws.{OneOutcome, TooLongInput, WholeInput};

/// What is left of a source determines the answer, but for a read that fails and want of memory.
pub fn one_outcome()
    ensures { OneOutcome }
{}

/// Of an input of fewer than 2^40 octets, the lines are all its pieces between 0x0A, one after
/// another.
pub fn whole_input()
    ensures { WholeInput }
{}

/// Only an input of 2^40 octets or more is too long.
pub fn too_long_input()
    ensures { TooLongInput }
{}
