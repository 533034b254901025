//! The whole of an opening.

ghost use Rattle.std.specs.Prelude.{◌≡◌, ◌≤◌, ◌⊎◌, ℕ, List, IfOk, IsErrOf, Err, None, Some};
ghost use Rattle.config_journal.specs.Holding.{Holds};
ghost use Rattle.config_journal.specs.Configs.{Config as Configuration};
ghost use Rattle.config_opening.specs.Opening.{IsAtFirstGate, IsFault, Syncs};
ghost use Rattle.octets.specs.Counts.{Rose};
ghost use Rattle.r53_disk.specs.Disk.{Rests};
ghost use Rattle.config_journal.specs.Kept.{config_in};
ghost use Rattle.config_journal.specs.SnapshotFaultRecord.TheVariants.{Bad};
ghost use Rattle.config_journal.specs.Opening.{IsBase, IsNoStore};
ghost use Rattle.zone_journal.specs.Pairs.{BothRead, Unwritten};
ghost use Rattle.zone_journal.specs.Standing.{ReadsOn, StandsOn};
ghost use Rattle.zone_journal.specs.declared.answers.OpenFault.TheVariants as OpenFault;

use crate::replaying::replay;
use config_journal::{
    Config, ConfigJournal, SnapshotFault, baseless_is_no_store, broken_is_no_store, read_config,
};
use r53_disk::Disk;
use std::alloc::Global;
use zone_journal::{OpenFault, ZoneJournal};

/// Opens a store: the configuration that the snapshot of the file that decides and the commands of
/// its entries make, with its journal at the closed gate. It writes nothing.
///
/// NotAStore tells A and 0 where no file is open; else the side of the file that decides, and 20
/// where its snapshot isn't whole or is that of no sound configuration, or the gate at which no
/// entry can be taken.
pub fn open<D: Disk>(alloc: Global, a: &mut D, b: &mut D) -> Result<ConfigJournal, OpenFault>
    ensures stands { IfOk result (λ kept. StandsOn D.reading D.images kept.journal a.new b.new) }
    ensures holds { (x y : List ℕ) → D.reading a.old ≡ Some x → D.reading b.old ≡ Some y
        → IfOk result (λ kept. BothRead D.reading a.new b.new (Holds kept)) }
    ensures faulty { (x y : List ℕ) → D.reading a.old ≡ Some x → D.reading b.old ≡ Some y
        → IsFault result (IsNoStore x y) }
    ensures idle { IfOk result (λ kept. kept.journal.plan ≡ None) }

    // Both files are synced before either is looked at, and from then on a crash leaves what is
    // read. It writes nothing.
    ensures syncs { (x y : List ℕ) → D.reading a.old ≡ Some x → D.reading b.old ≡ Some y
        → Syncs D.images result x y a.old a.new b.old b.new }
    ensures a_unwritten { (x : List ℕ) → D.reading a.old ≡ Some x
        → Unwritten D.reading D.images D.moment D.images_since a.old a.new }
    ensures b_unwritten { (y : List ℕ) → D.reading b.old ≡ Some y
        → Unwritten D.reading D.images D.moment D.images_since b.old b.new }

    // It fails only where the count of a disk rose.
    ensures a_counts { D.faults a.old ≤ D.faults a.new }
    ensures b_counts { D.faults b.old ≤ D.faults b.new }
    ensures failed { IsErrOf result OpenFault.DiskFault
        → Rose (D.faults a.old) (D.faults a.new) ⊎ Rose (D.faults b.old) (D.faults b.new) }
{
    broken_is_no_store();
    match ZoneJournal::open(alloc, a, b) {
        Ok((journal, octets)) => read_on(alloc, journal, &octets, a, b),
        Err(fault) => Err(fault),
    }
}

/// The same from the first gate on, behind a snapshot of these octets.
fn read_on<D: Disk>(
    alloc: Global,
    mut journal: ZoneJournal,
    octets: &[u8],
    a: &mut D,
    b: &mut D,
) -> Result<ConfigJournal, OpenFault>
    requires { ReadsOn D.reading D.images journal a.old b.old }
    ensures stands { IfOk result (λ kept. StandsOn D.reading D.images kept.journal a.new b.new) }
    ensures holds { (x y : List ℕ) → D.reading a.old ≡ Some x → D.reading b.old ≡ Some y
        → IsAtFirstGate journal octets.now x y
        → IfOk result (λ kept. BothRead D.reading a.new b.new (Holds kept)) }
    ensures faulty { (x y : List ℕ) → D.reading a.old ≡ Some x → D.reading b.old ≡ Some y
        → IsAtFirstGate journal octets.now x y → IsFault result (IsNoStore x y) }
    ensures idle { IfOk result (λ kept. kept.journal.plan ≡ None) }
    ensures a_rests { Rests D.reading D.images D.moment D.images_since a.old a.new }
    ensures b_rests { Rests D.reading D.images D.moment D.images_since b.old b.new }
    ensures a_counts { D.faults a.old ≤ D.faults a.new }
    ensures b_counts { D.faults b.old ≤ D.faults b.new }
    ensures failed { IsErrOf result OpenFault.DiskFault
        → Rose (D.faults a.old) (D.faults a.new) ⊎ Rose (D.faults b.old) (D.faults b.new) }
{
    baseless_is_no_store();
    let mut config = match base(alloc, octets) {
        Ok(config) => config,
        Err(SnapshotFault::Bad) => {
            let fault = OpenFault::NotAStore(journal.side(), 20);
            drop(journal);
            return Err(fault);
        }
        Err(SnapshotFault::OutOfMemory) => {
            drop(journal);
            return Err(OpenFault::OutOfMemory);
        }
    };
    config.put_hints_off();
    match replay(alloc, &mut config, &mut journal, a, b) {
        Ok(()) => {
            config.settle_hints();
            Ok(ConfigJournal::new(config, journal))
        }
        Err(fault) => {
            drop(config);
            drop(journal);
            Err(fault)
        }
    }
}

/// The sound configuration of which octets are a snapshot.
fn base(alloc: Global, octets: &[u8]) -> Result<Config, SnapshotFault>
    ensures found { IfOk result (λ config. IsBase octets.now (config_in config)) }
    ensures bad { result ≡ Err Bad
        → (config : Configuration) → IsBase octets.now config → ⊥ }
{
    let (zones, checks, next_zone) = match read_config(alloc, octets) {
        Ok(read) => read,
        Err(fault) => return Err(fault),
    };
    match Config::restore(alloc, zones, checks, next_zone) {
        Ok(config) => Ok(config),
        Err(_) => Err(SnapshotFault::OutOfMemory),
    }
}
