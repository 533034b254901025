//! Laws over the definitions, each the contract of a function that does nothing.

ghost use Rattle.config_model.specs.Laws.{EmptyIsSound, KeepsSound, OneOutcome};
ghost use Rattle.config_model.specs.Told.{RefusalsAreTold};

/// A command on a configuration has one outcome, but for want of memory.
pub fn one_outcome()
    ensures { OneOutcome }
{
    command_octets::one_batch_outcome();
}

/// What a command makes of a sound configuration is sound.
pub fn commands_keep_sound()
    ensures { KeepsSound }
{
    command_octets::zones_stay();
    check_model::commands_keep_sound();
    check_model::rest_is_left();
    command_octets::commands_keep_sound();
    command_octets::commands_keep_used();
    set_reading::one_name_of_a_wire();
    refusals_are_told();
}

/// The configuration of a new server is sound.
pub fn empty_is_sound()
    ensures { EmptyIsSound }
{
    check_model::no_checks_are_sound();
}

/// What the refusals after the last change of a batch say.
pub fn refusals_are_told()
    ensures { RefusalsAreTold }
{}
