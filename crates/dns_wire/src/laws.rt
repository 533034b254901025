//! Laws over the definitions, each the contract of a function that does nothing.

ghost use Rattle.dns_wire.specs.Laws.{CutRepliesRead, OneReading, RecordsAddUp, WholeRepliesRead};

use dns_message::{one_list_of_options, one_record};

/// A reply is read as it was meant, or as one that was cut.
pub fn replies_read()
    ensures whole { WholeRepliesRead }
    ensures cut { CutRepliesRead }
{}

/// Octets are read as one reply at most.
pub fn one_reading()
    ensures { OneReading }
{
    one_record();
    one_list_of_options();
}

/// Records that are added one after another are added as a list.
pub fn records_add_up()
    ensures { RecordsAddUp }
{}
