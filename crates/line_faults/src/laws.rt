//! Laws over the definitions, each the contract of a function that does nothing.

ghost use Rattle.line_faults.specs.Laws.{OneName, OneReason};

/// No two lines or members have one name.
pub fn one_name()
    ensures { OneName }
{}

/// No two reasons have one text.
pub fn one_reason()
    ensures { OneReason }
{}
