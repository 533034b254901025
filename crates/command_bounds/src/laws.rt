//! Laws over the definitions, each the contract of a function that does nothing.

ghost use Rattle.command_bounds.specs.Laws.{AcceptedAreShort, AcceptedHaveSpelling};
ghost use Rattle.command_bounds.specs.Laws.{SpelledAreBounded};

/// The command that octets are is within its bounds.
pub fn spelled_are_bounded()
    ensures { SpelledAreBounded }
{}

/// A command that is accepted has a spelling in the version that is written.
pub fn accepted_have_spelling()
    ensures { AcceptedHaveSpelling }
{
    config_model::commands_keep_sound();
}

/// A command that is accepted has fewer than 2^32 octets in that version.
pub fn accepted_are_short()
    ensures { AcceptedAreShort }
{
    config_model::commands_keep_sound();
}
