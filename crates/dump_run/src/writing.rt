//! The opening of a store, and the dump of its configuration.

ghost use Rattle.std.specs.Prelude.{◌≡◌, ◌≢◌, ◌≤◌, ◌⊎◌, ℕ, List, IfSome, None, Some, vec_capacity};
ghost use Rattle.config_opening.specs.States.{config_of};
ghost use Rattle.config_model.specs.Configs.{Config};
ghost use Rattle.dump_sending.specs.Dumps.{dump_text};
ghost use Rattle.octets.specs.Counts.{Rose};
ghost use Rattle.store_model.specs.Opening.{IsConfigStore, OpensConfig};
ghost use Rattle.whole_writing.specs.Output.{OutputOf};
ghost use Rattle.zone_journal.specs.Pairs.{Unwritten};
ghost use Rattle.dump_run.specs.Dumping.{DumpLeaves, DumpSyncs, IsTold, IsUnwritten};
ghost use Rattle.dump_run.specs.Dumping.{told_of};

use crate::answers::Dumped;
use config_opening::{ConfigJournal, open};
use dump_sending::{Output, ROOM, Scratch, ValueText, send_dump};
use r53_disk::Disk;
use r53_io::Sink;
use std::alloc::Global;
use store_model::{no_store_or_config, opening_keeps_store, pair_opens_to_one_config};
use zone_journal::OpenFault;

/// Writes what a store holds, as the lines of a dump. The disks are opened as at a start; nothing is
/// written to them.
///
/// NotAStore tells A and 0 where no file is open; else the side of the file that decides, and 20
/// where its snapshot isn't whole or is that of no sound configuration, or the gate at which no
/// entry can be taken. OutOfMemory comes before anything is written.
pub fn dump_store<D: Disk, K: Sink>(alloc: Global, out: &mut K, a: &mut D, b: &mut D) -> Dumped
    // What the files open to, by the answer; and what is written of it.
    ensures told { (x y : List ℕ) → D.reading a.old ≡ Some x → D.reading b.old ≡ Some y
        → IsTold result x y }
    ensures writes { (x y held : List ℕ) (config : Config)
        → D.reading a.old ≡ Some x → D.reading b.old ≡ Some y → K.held out.old ≡ Some held
        → OpensConfig x y config → DumpLeaves result held (K.held out.new) config }
    ensures unwritten { IsUnwritten result (out.new ≡ out.old) }

    // Both files are synced before either is looked at. Nothing is written to them, and a store stays
    // one.
    ensures syncs { (x y : List ℕ) → D.reading a.old ≡ Some x → D.reading b.old ≡ Some y
        → DumpSyncs D.images result x y a.old a.new b.old b.new }
    ensures a_unwritten { (x : List ℕ) → D.reading a.old ≡ Some x
        → Unwritten D.reading D.images D.moment D.images_since a.old a.new }
    ensures b_unwritten { (y : List ℕ) → D.reading b.old ≡ Some y
        → Unwritten D.reading D.images D.moment D.images_since b.old b.new }
    ensures keeps { (x y : List ℕ) → D.reading a.old ≡ Some x → D.reading b.old ≡ Some y
        → IsConfigStore D.images a.old b.old → IsConfigStore D.images a.new b.new }

    // A fault comes only where the count of what failed rose.
    ensures a_counts { D.faults a.old ≤ D.faults a.new }
    ensures b_counts { D.faults b.old ≤ D.faults b.new }
    ensures out_counts { K.faults out.old ≤ K.faults out.new }
    ensures disk_failed { result ≡ Dumped.OpeningFault
        → Rose (D.faults a.old) (D.faults a.new) ⊎ Rose (D.faults b.old) (D.faults b.new) }
    ensures sink_failed { result ≡ Dumped.WriteFault
        → Rose (K.faults out.old) (K.faults out.new) }
{
    no_store_or_config();
    opening_keeps_store::<D>();
    pair_opens_to_one_config();
    let kept = match open(alloc, a, b) {
        Ok(kept) => kept,
        Err(fault) => return told_of(fault),
    };
    match write_kept(alloc, &kept, out) {
        Some(Output::Whole) => Dumped::Written,
        Some(Output::Failed) => Dumped::WriteFault,
        None => Dumped::OutOfMemory,
    }
}

/// The answer at a fault of the opening.
fn told_of(fault: OpenFault) -> Dumped
    ensures told { result ≡ told_of fault }
    ensures disk { result ≡ Dumped.OpeningFault → fault ≡ OpenFault.DiskFault }
    ensures sink { result ≢ Dumped.WriteFault }
{
    match fault {
        OpenFault::NotAStore(side, place) => Dumped::NotAStore(side, place),
        OpenFault::DiskFault => Dumped::OpeningFault,
        OpenFault::OutOfMemory => Dumped::OutOfMemory,
    }
}

/// Writes the dump of the configuration that is kept. None where memory is wanted.
fn write_kept<K: Sink>(alloc: Global, kept: &ConfigJournal, out: &mut K) -> Option<Output>
    ensures writes { (held : List ℕ) → K.held out.old ≡ Some held → IfSome result (λ written.
        OutputOf held (K.held out.new) written (dump_text (config_of kept.now))) }
    ensures unwritten { result ≡ None → out.new ≡ out.old }
    ensures counts { K.faults out.old ≤ K.faults out.new }
    ensures failed { result ≡ Some Output.Failed → Rose (K.faults out.old) (K.faults out.new) }
{
    let Some(mut buffers) = take_memory(alloc) else {
        return None;
    };
    Some(write_with(kept, &mut buffers, out))
}

/// Writes the dump of the configuration that is kept, with the memory for it.
fn write_with<K: Sink>(kept: &ConfigJournal, buffers: &mut Buffers, out: &mut K) -> Output
    requires room { ROOM ≤ vec_capacity buffers.old.text }
    ensures writes { (held : List ℕ) → K.held out.old ≡ Some held
        → OutputOf held (K.held out.new) result (dump_text (config_of kept.now)) }
    ensures counts { K.faults out.old ≤ K.faults out.new }
    ensures failed { result ≡ Output.Failed → Rose (K.faults out.old) (K.faults out.new) }
{
    let config = kept.config();
    send_dump(
        config.zones(),
        config.checks(),
        &mut buffers.scratch,
        &mut buffers.value,
        &mut buffers.text,
        out,
    )
}

/// The memory that a dump takes.
#[derive(Drop)]
struct Buffers {
    scratch: Scratch,
    value: ValueText,
    text: Vec<u8>,
}

/// Takes the memory of a dump. None where it is wanted.
fn take_memory(alloc: Global) -> Option<Buffers>
    ensures { IfSome result (λ made. ROOM ≤ vec_capacity made.text) }
{
    let Ok(scratch) = Scratch::new(alloc) else {
        return None;
    };
    let Ok(text) = Vec::with_capacity(alloc, ROOM) else {
        return None;
    };
    Some(Buffers {
        scratch,
        value: ValueText::new(),
        text,
    })
}
