//! Laws over the definitions, each the contract of a function that does nothing.

ghost use Rattle.dns_message.specs.Laws.{OneJudgement, OneListOfOptions, OneRecord, OneSplit};

use dns_name::one_name_at_the_front;
use ecs_option::one_reading;

/// A packet splits into a question, additional records and a rest in one way at most.
pub fn one_split()
    ensures { OneSplit }
{
    one_name_at_the_front();
}

/// Octets begin with one whole record at most.
pub fn one_record()
    ensures { OneRecord }
{}

/// Octets are one list of options at most.
pub fn one_list_of_options()
    ensures { OneListOfOptions }
{}

/// A packet has one judgement.
pub fn one_judgement()
    ensures { OneJudgement }
{
    one_split();
    one_reading();
}
