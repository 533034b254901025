//! Laws over the definitions, each the contract of a function that does nothing.

ghost use Rattle.alias_links.specs.Laws.{AliasesCome, AliasesStay};

/// Where a change adds no alias, no walk becomes longer; where it also empties no group, each
/// alias still leads to a set.
pub fn aliases_stay()
    ensures { AliasesStay }
{}

/// Where each alias that a change adds ends all walks that come to it, no walk comes to be too long; where
/// each leads to a set, and no group is emptied, each alias of the zone still leads to a set.
pub fn aliases_come()
    ensures { AliasesCome }
{}
