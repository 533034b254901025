//! A law over the definitions, the contract of a function that does nothing.

ghost use Rattle.block_reading.specs.Laws.{CidrCommandsAreRead};

/// Commands on collections are read as they are written, and as nothing else.
pub fn cidr_commands_are_read()
    ensures { CidrCommandsAreRead }
{}
