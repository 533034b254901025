//! Laws over the definitions. Each stands as the contract of a function that does nothing.

ghost use Rattle.alias_tree.specs.Laws.{WalksBegin, WalksGoOn, FirstPlacesAreOne};

/// A walk of one link starts at each alias of the zone, and at no other set.
pub fn walks_begin()
    ensures { WalksBegin }
{}

/// A walk of a link more starts at each alias whose target group has a set at which a walk starts.
pub fn walks_go_on()
    ensures { WalksGoOn }
{}

/// What each of the two calls tells of a list is one answer.
pub fn first_places_are_one()
    ensures { FirstPlacesAreOne }
{}
