//! Laws over the definitions, each the contract of a function that does nothing.

ghost use Rattle.cidr_changes.specs.Laws.{GatherAll, GatherOnce, KeepCollections, KeepPlaced};
ghost use Rattle.cidr_changes.specs.Laws.{BeginsWithAll, OnlyNamedCount, PutsAll, RemovesAll};
ghost use Rattle.cidr_changes.specs.Laws.{StaysInOrder};

/// What changes make of a collection is one, where they name locations as these are named.
pub fn changes_keep_collections()
    ensures { KeepCollections }
{}

/// Changes that are carried out leave a location for each set that names one in the collection.
pub fn changes_keep_placed()
    ensures { KeepPlaced }
{}

/// Changes come to the same whatever the order in which locations are told that sets name.
pub fn only_named_count()
    ensures { OnlyNamedCount }
{}

/// Blocks that are gathered by their locations are the same blocks under the same names, as many.
pub fn blocks_are_gathered()
    ensures all { GatherAll }
    ensures once { GatherOnce }
{}

/// A change does to the blocks of a collection what it says, and nothing else.
pub fn changes_are_told()
    ensures begins { BeginsWithAll }
    ensures order { StaysInOrder }
    ensures puts { PutsAll }
    ensures removes { RemovesAll }
{}
