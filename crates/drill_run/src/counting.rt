//! What is counted of a drill's lines.

ghost use Rattle.std.specs.Prelude.{◌≡◌, ◌+◌, ◌^◌, ◌<◌, ◌≤◌, Some, length, slice_index};
ghost use Rattle.command_octets.specs.declared.commands.Command.{Command};
ghost use Rattle.dns_message.specs.Header.{ancount_of};
ghost use Rattle.drill_run.specs.Counting.{IsBelow, batches_of, command_counted, missing_in, no_counts};
ghost use Rattle.drill_run.specs.Counting.{reply_counted, report_counted};

use command_octets::Command;
use config_model::{Made, Refusal};
use engine_model::Reported;

/// What the events of a drill came to.
#[derive(Clone, Copy, Debug, PartialEq, Eq)]
pub struct Tally {
    /// Batches that were made.
    pub batches: u64,
    /// Replies that a name doesn't exist.
    pub missing: u64,
    /// Records in the answer sections of replies.
    pub records: u64,
    /// Octets of replies.
    pub octets: u64,
    /// Reports that were taken.
    pub reports: u64,
}

impl Tally {
    /// Nothing is counted yet.
    pub(crate) fn new() -> Tally
        ensures { result ≡ no_counts }
    {
        Tally {
            batches: 0,
            missing: 0,
            records: 0,
            octets: 0,
            reports: 0,
        }
    }
}

/// How many batches a command is.
pub(crate) fn batches_of(command: &Command) -> u64
    ensures is { result ≡ batches_of command.now }
    ensures within { result ≤ 1 }
{
    match command {
        Command::CreateZone { .. } => 0,
        Command::DeleteZone(_) => 0,
        Command::Change(_) => 1,
        Command::Health(_) => 0,
        Command::Cidr(_) => 0,
    }
}

/// Counts what came of a command, which is so many batches, one at most; n lines were counted before.
pub(crate) fn count_command(batches: u64, came: &Result<Made, Refusal>, n: u32, tally: &mut Tally)
    requires one { batches ≤ 1 }
    requires few { n < 2 ^ 31 }
    requires below { IsBelow n tally.old }
    ensures counted { (given : Command) → batches ≡ batches_of given
        → tally.new ≡ command_counted given came.now tally.old }
    ensures below { IsBelow (n + 1) tally.new }
{
    match came {
        Ok(_) => tally.batches += batches,
        Err(_) => {}
    }
}

/// Counts what a report came to.
pub(crate) fn count_report(came: Reported, n: u32, tally: &mut Tally)
    requires few { n < 2 ^ 31 }
    requires below { IsBelow n tally.old }
    ensures counted { tally.new ≡ report_counted came tally.old }
    ensures below { IsBelow (n + 1) tally.new }
{
    match came {
        Reported::Taken => tally.reports += 1,
        Reported::NoSuchHealthCheck => {}
        Reported::BadChecker => {}
    }
}

/// The octet at a place, or 0 where there are fewer.
fn octet_at(octets: &[u8], at: usize) -> u8
    ensures { result ≡ slice_index octets.now at }
{
    match octets.get(at) {
        Some(octet) => *octet,
        None => 0,
    }
}

/// Whether a reply tells that a name doesn't exist.
fn missing_in(octets: &[u8]) -> u64
    ensures is { result ≡ missing_in octets.now }
    ensures within { result ≤ 1 }
{
    if octet_at(octets, 3) % 16 == 3 { 1 } else { 0 }
}

/// How many records the answer section of a reply has.
fn answers_in(octets: &[u8]) -> u64
    ensures is { result ≡ ancount_of octets.now }
    ensures within { result < 65536 }
{
    u64::from(octet_at(octets, 6)) * 256 + u64::from(octet_at(octets, 7))
}

/// Counts a reply.
pub(crate) fn count_reply(octets: &[u8], n: u32, tally: &mut Tally)
    requires short { length octets.now ≤ 4096 }
    requires few { n < 2 ^ 31 }
    requires below { IsBelow n tally.old }
    ensures counted { tally.new ≡ reply_counted (Some octets.now) tally.old }
    ensures below { IsBelow (n + 1) tally.new }
{
    tally.missing += missing_in(octets);
    tally.records += answers_in(octets);
    tally.octets += octets.len() as u64;
}
