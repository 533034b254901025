//! Laws over the definitions, each the contract of a function that does nothing.

ghost use Rattle.rdata.specs.Laws.{OneReading, TextsReadAsValues, ValueOfText, WireReadsBack, WrittenTextReadsBack};

use field_text::{
    octets_of_text, one_reading as one_field, string_is_one_field, written_field_is_one_field,
    written_field_reads_back, written_string_reads_back,
};

/// A text gives one value, or one fault.
pub fn one_reading()
    ensures { OneReading }
{
    one_field();
}

/// The function `value_of_text` gives what a text gives.
pub fn value_of_text()
    ensures { ValueOfText }
{
    octets_of_text();
    one_field();
}

/// Reading a text answers what `value_of_text` gives, or want of memory.
pub fn texts_read_as_values()
    ensures { TextsReadAsValues }
{
    value_of_text();
}

/// The written text of a value, where it isn't too long to be read, gives that value.
pub fn written_text_reads_back()
    ensures { WrittenTextReadsBack }
{
    written_field_is_one_field();
    written_field_reads_back();
    string_is_one_field();
    written_string_reads_back();
}

/// The octets of a value are read as that value, where there is memory.
pub fn wire_reads_back()
    ensures { WireReadsBack }
{}
