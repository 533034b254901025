//! Laws over the definitions, each the contract of a function that does nothing.

ghost use Rattle.command_codec.specs.Laws.{CommandsAreTold, OneSpelling, ReadAsNothingElse, WrittenReadsBack};

/// In each version one command has one spelling, and no spelling of either version begins another.
pub fn one_spelling()
    ensures { OneSpelling }
{
    set_reading::written_reads_back();
    set_reading::sets_are_told();
    check_reading::check_commands_are_read();
    block_reading::cidr_commands_are_read();
}

/// What is written, in either version, is read again.
pub fn written_reads_back()
    ensures { WrittenReadsBack }
{
    set_reading::written_reads_back();
    set_reading::sets_are_told();
    check_reading::check_commands_are_read();
    block_reading::cidr_commands_are_read();
}

/// The octets of a command are read as nothing else.
pub fn read_as_nothing_else()
    ensures { ReadAsNothingElse }
{
    set_reading::written_reads_back();
    set_reading::sets_are_told();
    check_reading::check_commands_are_read();
    block_reading::cidr_commands_are_read();
}

/// Reading tells the command that octets are, or that they are none.
pub fn commands_are_told()
    ensures { CommandsAreTold }
{
    set_reading::written_reads_back();
    set_reading::sets_are_told();
    check_reading::check_commands_are_read();
    block_reading::cidr_commands_are_read();
}
