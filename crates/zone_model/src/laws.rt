//! Laws over the definitions, each the contract of a function that does nothing.

ghost use Rattle.zone_model.specs.KeyLaws.{KeysAreOrdered};
ghost use Rattle.zone_model.specs.Laws.{PlacedRise};

/// The order of keys is a total order, and its ties are equal keys.
pub fn keys_are_ordered()
    ensures { KeysAreOrdered }
{}

/// Sets stay in zone order where one is placed among them.
pub fn placed_rise()
    ensures { PlacedRise }
{}
