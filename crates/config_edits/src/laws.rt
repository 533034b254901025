//! The law on edits, as the contract of a function that does nothing.

ghost use Rattle.config_edits.specs.Laws.{EditsAreTold};

/// What an edit of zones makes of the zones that definitions see.
pub fn edits_are_told()
    ensures { EditsAreTold }
{}
