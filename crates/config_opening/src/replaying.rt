//! The entries of the file that decides, whose commands are made one after another.

ghost use Rattle.std.specs.Prelude.{◌≡◌, ◌≢◌, ◌≤◌, ◌<◌, ◌⊎◌, ◌^◌, ℕ, List, IfOk, IsErrOf, Ok, Err, None, Some};
ghost use Rattle.std.specs.Prelude.{true, false};
ghost use Rattle.config_journal.specs.Holding.{Holds};
ghost use Rattle.config_journal.specs.RefusalRecord.TheVariants as refusal;
ghost use Rattle.config_opening.specs.Opening.{IsFault, Replays};
ghost use Rattle.octets.specs.Counts.{Rose};
ghost use Rattle.r53_disk.specs.Disk.{Rests};
ghost use Rattle.config_journal.specs.Kept.{config_in};
ghost use Rattle.config_journal.specs.Opening.{IsNoStore, IsRefused, AcceptsEntry};
ghost use Rattle.zone_journal.specs.Pairs.{BothRead};
ghost use Rattle.zone_journal.specs.Standing.{ReadsOn, StandsOn};
ghost use Rattle.zone_journal.specs.declared.answers.OpenFault.TheVariants as OpenFault;

use config_journal::{
    Config, ReadFault, Refusal, deciding_opens, faulty_is_no_store, one_more_makes, read,
    refused_are_refused, spelled_are_bounded, unread_are_refused,
};
use octets::OutOfMemory;
use r53_disk::Disk;
use std::alloc::Global;
use zone_journal::{OpenFault, ZoneJournal};

/// Makes the commands of all entries from the gate on that is read next, one after another.
///
/// NotAStore tells the side and the gate at which no entry can be taken: a gate is missing, an entry
/// isn't whole, its octets are no command, or the command is refused.
pub(crate) fn replay<D: Disk>(
    alloc: Global,
    config: &mut Config,
    journal: &mut ZoneJournal,
    a: &mut D,
    b: &mut D,
) -> Result<(), OpenFault>
    requires { ReadsOn D.reading D.images journal.old a.old b.old }
    ensures stands { IfOk result (λ done. StandsOn D.reading D.images journal.new a.new b.new) }
    ensures idle { IfOk result (λ done. journal.new.plan ≡ None) }
    ensures holds { (x y : List ℕ) → D.reading a.old ≡ Some x → D.reading b.old ≡ Some y
        → Replays journal.old (config_in config.old) x y → IfOk result (λ done.
        BothRead D.reading a.new b.new (Holds (record { config = config.new; journal = journal.new }))) }
    ensures faulty { (x y : List ℕ) → D.reading a.old ≡ Some x → D.reading b.old ≡ Some y
        → Replays journal.old (config_in config.old) x y → IsFault result (IsNoStore x y) }
    ensures a_rests { Rests D.reading D.images D.moment D.images_since a.old a.new }
    ensures b_rests { Rests D.reading D.images D.moment D.images_since b.old b.new }

    // It fails only where the count of a disk rose.
    ensures a_counts { D.faults a.old ≤ D.faults a.new }
    ensures b_counts { D.faults b.old ≤ D.faults b.new }
    ensures failed { IsErrOf result OpenFault.DiskFault
        → Rose (D.faults a.old) (D.faults a.new) ⊎ Rose (D.faults b.old) (D.faults b.new) }
{
    loop {
        match take_next(alloc, config, journal, a, b) {
            Ok(true) => {}
            Ok(false) => return Ok(()),
            Err(fault) => return Err(fault),
        }
    }
}

/// Makes the command of the next entry, and tells whether there was one.
fn take_next<D: Disk>(
    alloc: Global,
    config: &mut Config,
    journal: &mut ZoneJournal,
    a: &mut D,
    b: &mut D,
) -> Result<bool, OpenFault>
    requires { ReadsOn D.reading D.images journal.old a.old b.old }
    ensures reads_on { ReadsOn D.reading D.images journal.new a.new b.new }
    ensures replays { (x y : List ℕ) → D.reading a.old ≡ Some x → D.reading b.old ≡ Some y
        → Replays journal.old (config_in config.old) x y
        → result ≡ Ok true → Replays journal.new (config_in config.new) x y }
    ensures forward { result ≡ Ok true
        → (journal.old.at < journal.new.at) × (journal.old.at < 2 ^ 64) }
    ensures stands { result ≡ Ok false → StandsOn D.reading D.images journal.new a.new b.new }
    ensures holds { (x y : List ℕ) → D.reading a.old ≡ Some x → D.reading b.old ≡ Some y
        → Replays journal.old (config_in config.old) x y
        → result ≡ Ok false → BothRead D.reading a.new b.new
        (Holds (record { config = config.new; journal = journal.new })) }
    ensures faulty { (x y : List ℕ) → D.reading a.old ≡ Some x → D.reading b.old ≡ Some y
        → Replays journal.old (config_in config.old) x y → IsFault result (IsNoStore x y) }
    ensures a_rests { Rests D.reading D.images D.moment D.images_since a.old a.new }
    ensures b_rests { Rests D.reading D.images D.moment D.images_since b.old b.new }
    ensures a_counts { D.faults a.old ≤ D.faults a.new }
    ensures b_counts { D.faults b.old ≤ D.faults b.new }
    ensures failed { IsErrOf result OpenFault.DiskFault
        → Rose (D.faults a.old) (D.faults a.new) ⊎ Rose (D.faults b.old) (D.faults b.new) }
{
    deciding_opens();
    faulty_is_no_store();
    one_more_makes();
    let fault = OpenFault::NotAStore(journal.side(), journal.gate());
    let entry = match journal.next(alloc, a, b) {
        Ok(Some(entry)) => entry,
        Ok(None) => return Ok(false),
        Err(other) => return Err(other),
    };
    match take(alloc, config, &entry) {
        Ok(true) => Ok(true),
        Ok(false) => Err(fault),
        Err(_) => Err(OpenFault::OutOfMemory),
    }
}

/// Makes the command of an entry, and tells whether the configuration took it.
fn take(alloc: Global, config: &mut Config, entry: &[u8]) -> Result<bool, OutOfMemory>
    ensures taken { result ≡ Ok true
        → AcceptsEntry (config_in config.old) entry.now (config_in config.new) }
    ensures refused { result ≡ Ok false → IsRefused (config_in config.old) entry.now }
{
    refused_are_refused();
    spelled_are_bounded();
    unread_are_refused();
    let command = match read(alloc, entry) {
        Ok(command) => command,
        Err(ReadFault::Bad(_)) => return Ok(false),
        Err(ReadFault::OutOfMemory) => return Err(OutOfMemory),
    };
    match config.prepare(alloc, command) {
        Ok(prepared) => {
            config.install(prepared);
            Ok(true)
        }
        Err(why) => not_taken(why),
    }
}

/// Why an entry isn't taken: its command is refused, or memory is wanted.
fn not_taken(why: Refusal) -> Result<bool, OutOfMemory>
    ensures { IfOk result (λ taken. (taken ≡ false) × (why ≢ refusal.OutOfMemory)) }
{
    match why {
        Refusal::OutOfMemory => Err(OutOfMemory),
        _ => Ok(false),
    }
}
