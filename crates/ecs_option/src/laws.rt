//! Laws over the definitions, each the contract of a function that does nothing.

ghost use Rattle.ecs_option.specs.Laws.{OneReading, WrittenReadsBack};

/// Data is read in one way.
pub fn one_reading()
    ensures { OneReading }
{}

/// What is written reads back: with scope 0 as it stands, and another scope changes its own octet alone.
pub fn written_reads_back()
    ensures { WrittenReadsBack }
{}
