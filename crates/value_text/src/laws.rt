//! Laws over the definitions, each the contract of a function that does nothing.

ghost use Rattle.value_text.specs.Laws.{FieldsGoOn, NoFieldInBlanks, StringIsOneField};
ghost use Rattle.value_text.specs.Laws.{WrittenNumberReadsBack, WrittenStringReadsBack};

/// A field stands within the text, at the place that it is looked for from or behind it, and isn't empty.
pub fn fields_go_on()
    ensures { FieldsGoOn }
{}

/// No field is found exactly where nothing but spaces and tabs is left.
pub fn no_field_in_blanks()
    ensures { NoFieldInBlanks }
{}

/// A text that reads as a string is one whole field, whatever stands behind it.
pub fn string_is_one_field()
    ensures { StringIsOneField }
{}

/// The decimal digits of a number without leading zeros read as that number.
pub fn written_number_reads_back()
    ensures { WrittenNumberReadsBack }
{}

/// The text written of a string of at most 255 bytes reads as that string.
pub fn written_string_reads_back()
    ensures { WrittenStringReadsBack }
{}
