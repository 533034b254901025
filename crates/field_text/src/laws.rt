//! Laws over the definitions, each the contract of a function that does nothing.

ghost use Rattle.field_text.specs.Laws.{OctetsOfText, OneReading, SpelledIsField, WrittenFieldIsOneField, WrittenFieldReadsBack};

use address_text::{ipv4_of_text, ipv6_of_text};

/// A text spells one field of a kind at most.
pub fn one_reading()
    ensures { OneReading }
{}

/// The function `octets_of_text` gives the field that a text spells.
pub fn octets_of_text()
    ensures { OctetsOfText }
{
    ipv4_of_text();
    ipv6_of_text();
}

/// What a text spells is a field of that kind, of at most 255 octets.
pub fn spelled_is_field()
    ensures { SpelledIsField }
{}

/// The text written of a field spells that field.
pub fn written_field_reads_back()
    ensures { WrittenFieldReadsBack }
{}

/// The text written of a field is one whole field of a value's text.
pub fn written_field_is_one_field()
    ensures { WrittenFieldIsOneField }
{}
