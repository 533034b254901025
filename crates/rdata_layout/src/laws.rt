//! Laws over the definitions, each the contract of a function that does nothing.

ghost use Rattle.rdata_layout.specs.Laws.{TypesHaveTheirOwnNumber, TypesHaveTheirOwnText};

/// No two types have one number.
pub fn types_have_their_own_number()
    ensures { TypesHaveTheirOwnNumber }
{}

/// No two types have one text.
pub fn types_have_their_own_text()
    ensures { TypesHaveTheirOwnText }
{}
