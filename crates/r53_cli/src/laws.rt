//! Laws over the definitions, each the contract of a function that does nothing.

ghost use Rattle.r53_cli.specs.Completing.{DrillCompletes, DumpCompletes, InitCompletes};
ghost use Rattle.r53_cli.specs.Completing.{RunCompletes};
ghost use Rattle.r53_cli.specs.Laws.{OneForm, OneReply, OneStatus};

use dns_message::one_judgement;
use r53_disk::Disk;
use rdata::one_reading;
use session_run::no_store_or_beginning;

/// Words have one form, and one reading of it.
pub fn one_form()
    ensures { OneForm }
{
    one_reading();
}

/// A packet has one reply.
pub fn one_reply()
    ensures { OneReply }
{
    one_judgement();
}

/// A line on standard error is that of one status.
pub fn one_status()
    ensures { OneStatus }
{}

/// A run over a store with good tables, of an input that ends within the limit, in which nothing
/// failed, is done, or found no memory.
pub fn run_completes<D: Disk>()
    ensures { RunCompletes D.reading D.images D.moment D.images_since }
{
    no_store_or_beginning();
}

/// Where neither file is open and nothing fails, a store is made.
pub fn init_completes<D: Disk>()
    ensures { InitCompletes D.reading D.images D.moment D.images_since }
{}

/// What files open to is written, where nothing fails, or no memory is found.
pub fn dump_completes<D: Disk>()
    ensures { DumpCompletes D.reading D.images D.moment D.images_since }
{}

/// Where neither file is open and nothing fails, a drill ends with its summary, or no memory is found.
pub fn drill_completes<D: Disk>()
    ensures { DrillCompletes D.reading D.images D.moment D.images_since }
{}
