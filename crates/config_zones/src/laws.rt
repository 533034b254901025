//! Laws over the definitions, each the contract of a function that does nothing.

ghost use Rattle.config_zones.specs.Laws.{CountsAgree, ZonesAreFound, ZonesFollow};

/// Zones are gone through from one number to the next.
pub fn zones_follow()
    ensures { ZonesFollow }
{}

/// Zones are found by number and by name as definitions find them.
pub fn zones_are_found()
    ensures { ZonesAreFound }
{}

/// What is counted of zones is the same with the slots of their sets and without.
pub fn counts_agree()
    ensures { CountsAgree }
{}
