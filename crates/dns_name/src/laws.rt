//! Laws over the definitions, each the contract of a function that does nothing.

ghost use Rattle.dns_name.specs.Laws.{OneNameAtTheFront, OneNameOfAWire, ParentsComeFirst};
ghost use Rattle.dns_name.specs.Laws.{TextsReadAsNames, WrittenTextReadsBack};

/// Bytes begin with one name at most.
pub fn one_name_at_the_front()
    ensures { OneNameAtTheFront }
{}

/// Two names with one wire form are one.
pub fn one_name_of_a_wire()
    ensures { OneNameOfAWire }
{}

/// In zone order a name stands before every name below it.
pub fn parents_come_first()
    ensures { ParentsComeFirst }
{}

/// A text that reads as a name reads as labels that are a name.
pub fn texts_read_as_names()
    ensures { TextsReadAsNames }
{}

/// The written text of a name reads as that name.
pub fn written_text_reads_back()
    ensures { WrittenTextReadsBack }
{}
