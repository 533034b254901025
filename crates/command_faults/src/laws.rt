//! Laws over the definitions, each the contract of a function that does nothing.

ghost use Rattle.command_faults.specs.Laws.{CommandFaultsAsTold, CommandsAreFields};
ghost use Rattle.command_faults.specs.Laws.{FaultsStandFirst, NoFieldIsEmpty, OneFaultOfOctets};

/// The octets of a command are its fields, one behind another.
pub fn commands_are_fields()
    ensures { CommandsAreFields }
{}

/// Each field of a command has an octet at least.
pub fn no_field_is_empty()
    ensures { NoFieldIsEmpty }
{}

/// Reading tells a place exactly where octets have their fault at it.
pub fn command_faults_as_told()
    ensures { CommandFaultsAsTold }
{}

/// Octets have one fault at most.
pub fn one_fault_of_octets()
    ensures { OneFaultOfOctets }
{}

/// Up to where octets stop they could go on to a command; with what stands there they can't.
pub fn faults_stand_first()
    ensures { FaultsStandFirst }
{}
