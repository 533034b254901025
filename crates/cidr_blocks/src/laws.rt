//! Laws over the definitions, each the contract of a function that does nothing.

ghost use Rattle.cidr_blocks.specs.Laws.{LocationsAreNames, OneOrder};
ghost use Rattle.cidr_blocks.specs.Listing.{OneListing};

/// Blocks that are equal in their order are one block.
pub fn one_order()
    ensures { OneOrder }
{}

/// What a record set may name as its location, `*` too, is an `Ident` here.
pub fn locations_are_names()
    ensures { LocationsAreNames }
{}

/// Collections of one name that hold the same blocks under the same locations are one.
pub fn one_listing()
    ensures { OneListing }
{}
