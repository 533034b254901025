//! Laws over the definitions, each the contract of a function that does nothing.

ghost use Rattle.record_set.specs.Laws.{OneFirstReason, SameBothWays};

/// A set has one first reason, or none.
pub fn one_first_reason()
    ensures { OneFirstReason }
{}

/// Equal sets are equal both ways.
pub fn same_both_ways()
    ensures { SameBothWays }
{}
