//! Laws over the definitions, each the contract of a function that does nothing.

ghost use Rattle.check_model.specs.Kept.{KeepsSound, KeepsRest, NoneAreSound};
ghost use Rattle.check_model.specs.Told.{RefusalsAreTold, WalksAreTold};

/// What a command makes of sound checks is sound, where the command is within its bounds.
pub fn commands_keep_sound()
    ensures { KeepsSound }
{}

/// No checks at all are sound.
pub fn no_checks_are_sound()
    ensures { NoneAreSound }
{}

/// A command changes the check that it names, and leaves the others.
pub fn rest_is_left()
    ensures { KeepsRest }
{}

/// A walk of so many checks starts at a check exactly where there is such a list of checks.
pub fn walks_are_told()
    ensures { WalksAreTold }
{}

/// Each rule by which a command is refused holds exactly where its words say.
pub fn refusals_are_told()
    ensures { RefusalsAreTold }
{}
