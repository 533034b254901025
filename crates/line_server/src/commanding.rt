//! Commands.

ghost use Rattle.std.specs.Prelude.{◌≡◌, ◌≢◌, ◌≤◌, ℕ, List, Some, Err, IsTrue, ◌↔◌, vec_capacity};
ghost use Rattle.serve_turns.specs.LawsOfCommandBounds.{HasShortLists};
ghost use Rattle.reply_sending.specs.CommandRecord.{Command};
ghost use Rattle.serve_turns.specs.Holding.{Holds};
ghost use Rattle.reply_sending.specs.Laws.{IsBounded};
ghost use Rattle.reply_sending.specs.RefusalRecord.TheVariants as refusal;
ghost use Rattle.serve_turns.specs.Engine.{Engine};
ghost use Rattle.line_server.specs.Asking.{CommandAsksDisk};
ghost use Rattle.line_server.specs.Leaving.{HasCause, StepOrNone, StoreLeaves, Halted, UnlessHalted};
ghost use Rattle.line_server.specs.Replying.{Commanded};
ghost use Rattle.octets.specs.Counts.{Rose};
ghost use Rattle.serve_turns.specs.Stores.{StandsFor};
ghost use Rattle.serve_turns.specs.Replies.{check_line, cidr_line, command_line, command_outcome};
ghost use Rattle.serve_turns.specs.Replies.{zone_name};
ghost use Rattle.zone_journal.specs.Pairs.{BothRead};
ghost use Rattle.zone_journal.specs.Standing.{StandsOn};

use crate::answers::Taken;
use crate::sending::sent;
use check_model::CheckCommand;
use cidr_commands::CidrCommand;
use dns_name::Name;
use line_faults::Member;
use r53_disk::Disk;
use r53_io::Sink;
use reply_sending::{Command, Made, Outcome, ROOM, Refusal, one_outcome, send_outcome};
use serve_turns::{Store, standing_opens};
use std::alloc::Global;

/// Takes a command, and writes its reply.
///
/// Memory may be wanted, which is replied. Where a disk fails nothing is written, and the store is opened
/// again for commands; its files open to the configuration before, or to the one after the command.
pub fn control<D: Disk, K: Sink>(
    alloc: Global,
    store: &mut Store,
    command: Command,
    a: &mut D,
    b: &mut D,
    text: &mut Vec<u8>,
    out: &mut K,
) -> Taken
    requires bounded { IsBounded command }
    requires short { HasShortLists command }
    requires stands { StandsOn D.reading D.images store.old.kept.journal a.old b.old }
    requires room { ROOM ≤ vec_capacity text.old }
    ensures leaves { (engine : Engine) (held : List ℕ) → StandsFor engine store.old
        → K.held out.old ≡ Some held
        → StoreLeaves ((a.new ≡ a.old) × (b.new ≡ b.old)) result (Commanded command) engine
        (λ after. StandsFor after store.new) held (K.held out.new) }

    // Also where the sink tells nothing.
    ensures made { (engine : Engine) → StandsFor engine store.old
        → (after : Engine) × StepOrNone (Commanded command) engine after × StandsFor after store.new }
    ensures stands { UnlessHalted result
        (StandsOn D.reading D.images store.new.kept.journal a.new b.new) }
    ensures holds { BothRead D.reading a.old b.old (Holds store.old.kept)
        → UnlessHalted result (BothRead D.reading a.new b.new (Holds store.new.kept)) }
    ensures torn { result ≡ Taken.DiskFault → (engine : Engine) → StandsFor engine store.old
        → BothRead D.reading a.old b.old (Holds store.old.kept)
        → Halted D.images a.new b.new (Commanded command) engine }

    // A disk is asked by a command that is accepted and fits alone.
    ensures asked { result ≡ Taken.DiskFault → (engine : Engine) → StandsFor engine store.old
        → CommandAsksDisk command engine }
    ensures room { vec_capacity text.old ≤ vec_capacity text.new }
    ensures a_counts { D.faults a.old ≤ D.faults a.new }
    ensures b_counts { D.faults b.old ≤ D.faults b.new }
    ensures out_counts { K.faults out.old ≤ K.faults out.new }
    ensures cause { HasCause result (D.faults a.old) (D.faults a.new) (D.faults b.old)
        (D.faults b.new) 0 0 (K.faults out.old) (K.faults out.new) }
{
    one_outcome();
    standing_opens::<D>();
    let told = told_of(&command);
    let came = store.command(alloc, a, b, command);
    if is_fault(&came) {
        return Taken::DiskFault;
    }
    sent(send_outcome(&outcome_of(&told, came), text, out))
}

/// Whether a disk failed.
fn is_fault(came: &Result<Made, Refusal>) -> bool
    ensures { IsTrue result ↔ (came.now ≡ Err refusal.DiskFault) }
{
    matches!(came, Err(Refusal::DiskFault))
}

/// What is told of a command that was made: its line, and the name of its zone, where it makes one.
#[derive(Clone, Copy)]
struct Told {
    line: Member,
    name: Name,
}

/// What is told of a command.
fn told_of(command: &Command) -> Told
    ensures line { result.line ≡ command_line command.now }
    ensures name { result.name ≡ zone_name command.now }
{
    Told {
        line: line_of(command),
        name: name_of(command),
    }
}

/// The line by which a command is given.
fn line_of(command: &Command) -> Member
    ensures { result ≡ command_line command.now }
{
    match command {
        Command::CreateZone { .. } => Member::CreateHostedZone,
        Command::DeleteZone(_) => Member::DeleteHostedZone,
        Command::Change(_) => Member::ChangeResourceRecordSets,
        Command::Health(given) => check_line(given),
        Command::Cidr(given) => cidr_line(given),
    }
}

/// The line by which a command on checks is given.
fn check_line(command: &CheckCommand) -> Member
    ensures { result ≡ check_line command.now }
{
    match command {
        CheckCommand::Create(_) => Member::CreateHealthCheck,
        CheckCommand::Update { .. } => Member::UpdateHealthCheck,
        CheckCommand::Delete(_) => Member::DeleteHealthCheck,
    }
}

/// The line by which a command on collections is given.
fn cidr_line(command: &CidrCommand) -> Member
    ensures { result ≡ cidr_line command.now }
{
    match command {
        CidrCommand::Create(_) => Member::CreateCidrCollection,
        CidrCommand::Change { .. } => Member::ChangeCidrCollection,
        CidrCommand::Delete(_) => Member::DeleteCidrCollection,
    }
}

/// The name of the zone that a command makes; the root for others.
fn name_of(command: &Command) -> Name
    ensures { result ≡ zone_name command.now }
{
    match command {
        Command::CreateZone { name, .. } => *name,
        _ => Name::root(),
    }
}

/// What a command came to.
fn outcome_of(told: &Told, came: Result<Made, Refusal>) -> Outcome
    ensures { (given : Command) → told.now.line ≡ command_line given
        → told.now.name ≡ zone_name given → result ≡ command_outcome given came }
{
    match came {
        Ok(Made::Nothing) => Outcome::Done(told.line),
        Ok(Made::Zone(id)) => Outcome::ZoneMade {
            id,
            name: told.name,
        },
        Ok(Made::Check(id)) => Outcome::CheckMade(id),
        Ok(Made::Collection(id)) => Outcome::CollectionMade(id),
        Err(why) => Outcome::Refused(why),
    }
}
