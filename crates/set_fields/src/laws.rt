//! A law over the definitions, the contract of a function that does nothing.

ghost use Rattle.set_fields.specs.Laws.{FieldsAreRead};

/// Each field is read as it is written, and as nothing else.
pub fn fields_are_read()
    ensures { FieldsAreRead }
{}
