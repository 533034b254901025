//! Laws over the definitions, each the contract of a function that does nothing.

ghost use Rattle.text_meanings.specs.Laws.{FaultsAsTold, FaultsStandFirst, LabelsAsSpelled};
ghost use Rattle.text_meanings.specs.Laws.{NamesAsSpelled, OneFaultOfAText, OneNameOfAText};
ghost use Rattle.text_meanings.specs.Laws.{OneStringOfAText, StringsAsSpelled};
ghost use Rattle.text_meanings.specs.ValueLaws.{FieldsAsFound, FieldsAsSpelled, NumbersAsSpelled};
ghost use Rattle.text_meanings.specs.ValueLaws.{OneListOfFields, ValuesAsSpelled};
ghost use Rattle.text_meanings.specs.ValueLaws.{WrittenTextIsJoined};

use rdata::value_of_text;

/// Reading a text gives these labels exactly where it spells them.
pub fn labels_as_spelled()
    ensures { LabelsAsSpelled }
{}

/// Reading a text as a name gives the labels that it spells, in lower case.
pub fn names_as_spelled()
    ensures { NamesAsSpelled }
{}

/// A text is one name's at most.
pub fn one_name_of_a_text()
    ensures { OneNameOfAText }
{}

/// Reading a text tells this fault exactly where the text has it.
pub fn faults_as_told()
    ensures { FaultsAsTold }
{}

/// A text has one fault at most.
pub fn one_fault_of_a_text()
    ensures { OneFaultOfAText }
{}

/// Up to its fault a text could go on to a name's, and with what stands there it can't, but for an
/// escape that is cut off, a dot at the start and the empty text.
pub fn faults_stand_first()
    ensures { FaultsStandFirst }
{}

/// Reading a text gives the string that it spells, and none where it spells none.
pub fn strings_as_spelled()
    ensures { StringsAsSpelled }
{}

/// A text spells one string at most.
pub fn one_string_of_a_text()
    ensures { OneStringOfAText }
{}

/// The written text of a value is its fields' texts with one space between each two.
pub fn written_text_is_joined()
    ensures { WrittenTextIsJoined }
{}

/// Reading a text gives the number that it spells.
pub fn numbers_as_spelled()
    ensures { NumbersAsSpelled }
{}

/// A text spells octets as a field of a kind exactly where what is written there does.
pub fn fields_as_spelled()
    ensures { FieldsAsSpelled }
{}

/// A text has a list of fields, and no other.
pub fn one_list_of_fields()
    ensures { OneListOfFields }
{}

/// Fields that blanks part are those that are looked for.
pub fn fields_as_found()
    ensures { FieldsAsFound }
{}

/// What is read of a value's text is what its fields give.
pub fn values_as_spelled()
    ensures { ValuesAsSpelled }
{
    value_of_text();
}
