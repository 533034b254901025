//! Laws over the definitions, each the contract of a function that does nothing.

ghost use Rattle.octet_reading.specs.Laws.{LayoutsAreTold, NamesAreTold};
ghost use Rattle.octet_reading.specs.Rules.{BaseFieldsAreRead};

/// Reading a name tells whether octets begin with one, could still go on to one, or can't.
pub fn names_are_told()
    ensures { NamesAreTold }
{}

/// The test of layouts holds of the octets that are a value of the type.
pub fn layouts_are_told()
    ensures { LayoutsAreTold }
{}

/// Octets, numbers, flags and names are read as they are written, and as nothing else.
///
/// The same of readers that are built from readers is a lemma for each way to build one.
pub fn base_fields_are_read()
    ensures { BaseFieldsAreRead }
{}
