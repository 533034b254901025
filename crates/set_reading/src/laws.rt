//! Laws over the definitions, each the contract of a function that does nothing.

ghost use Rattle.set_reading.specs.Laws.{OneSpelling, PartsAreRead, SetsAreTold, WrittenReadsBack};

use set_fields::fields_are_read;

/// One set has one spelling, and no spelling begins another.
pub fn one_spelling()
    ensures { OneSpelling }
{
    fields_are_read();
}

/// What is written is read again, whatever follows it.
pub fn written_reads_back()
    ensures { WrittenReadsBack }
{
    fields_are_read();
}

/// Reading tells the set that octets begin with, or that they begin with none.
pub fn sets_are_told()
    ensures { SetsAreTold }
{
    fields_are_read();
}

/// A policy and a check are read as they are written, and as nothing else.
pub fn parts_are_read()
    ensures { PartsAreRead }
{
    fields_are_read();
}
