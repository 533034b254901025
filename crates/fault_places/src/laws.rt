//! Laws over the definitions, each the contract of a function that does nothing.

ghost use Rattle.fault_places.specs.Laws.{FaultsStandFirst, NoFieldIsEmpty, OneFaultOfOctets};
ghost use Rattle.fault_places.specs.Laws.{SetFaultsAsTold, SetsAreFields};

/// The octets of a set are its fields, one behind another.
pub fn sets_are_fields()
    ensures { SetsAreFields }
{}

/// Each field of a set has an octet at least.
pub fn no_field_is_empty()
    ensures { NoFieldIsEmpty }
{}

/// Reading tells a place exactly where octets stop at it on their way to a set.
pub fn set_faults_as_told()
    ensures { SetFaultsAsTold }
{}

/// Octets have one fault at most.
pub fn one_fault_of_octets()
    ensures { OneFaultOfOctets }
{}

/// Up to where octets stop they could go on to a set; with what stands there they can't.
pub fn faults_stand_first()
    ensures { FaultsStandFirst }
{}
