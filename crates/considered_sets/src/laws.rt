//! Laws over the definitions. Each stands as the contract of a function that does nothing.

ghost use Rattle.considered_sets.specs.Laws.{PlacesAreConsidered, SomeIsConsidered};

/// The considered sets are the healthy ones, or all where none is, each once and in the group's order.
pub fn places_are_considered()
    ensures { PlacesAreConsidered }
{}

/// Some set of each group is considered.
pub fn some_is_considered()
    ensures { SomeIsConsidered }
{}
