//! Laws over the definitions, each the contract of a function that does nothing.

ghost use Rattle.zone_table.specs.Laws.{OneApex, OneEdit, SetsOfOne};

/// A number has one name at most.
pub fn one_apex()
    ensures { OneApex }
{}

/// An edit makes one thing, but for the slots of the sets that it puts.
pub fn one_edit()
    ensures { OneEdit }
{}

/// The sets of a number are those of the zone that has it.
pub fn sets_of_one()
    ensures { SetsOfOne }
{}
