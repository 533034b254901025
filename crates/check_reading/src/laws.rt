//! A law over the definitions, the contract of a function that does nothing.

ghost use Rattle.check_reading.specs.Laws.{CheckCommandsAreRead};

/// Commands on checks are read as they are written, in either version, and as nothing else.
pub fn check_commands_are_read()
    ensures { CheckCommandsAreRead }
{}
