//! The store.

ghost use Rattle.std.specs.Prelude.{◌≡◌, ◌≢◌, ◌≤◌, ◌+◌, ◌⊎◌, ℕ, List, [], ◌∷◌, ◌++◌, drop, length, Contains};
ghost use Rattle.std.specs.Prelude.{◌↔◌, IfOk, IfSome, IsErrOf, IsSome, IsTrue, Ok, Err, None, Some};
ghost use Rattle.config_opening.specs.Laws.{HasShortLists};
ghost use Rattle.sound_configs.specs.OctetsOfCommandOctets.{command_octets};
ghost use Rattle.config_opening.specs.Compacting.{UnlessFaulty, WhereNone};
ghost use Rattle.config_opening.specs.Holding.{Holds};
ghost use Rattle.config_opening.specs.States.{config_of};
ghost use Rattle.config_opening.specs.Steps.{OnMade, UnlessFault};
ghost use Rattle.config_opening.specs.Leaving.{OpensEither};
ghost use Rattle.config_opening.specs.OpeningOfStoreModel.{IsNoStore, OpensConfig};
ghost use Rattle.sound_configs.specs.Applying.{Decides};
ghost use Rattle.sound_configs.specs.Configs.{Config};
ghost use Rattle.sound_configs.specs.LawsOfConfigModel.{IsBounded};
ghost use Rattle.sound_configs.specs.MadeRecord.{Made};
ghost use Rattle.sound_configs.specs.RefusalRecord.TheVariants as refusal;
ghost use Rattle.config_opening.specs.Opening.{IsFault, Syncs};
ghost use Rattle.sound_configs.specs.Engine.{Engine, QueryGives, ReportSteps, is_healthy, served_in, watched_in};
ghost use Rattle.sound_configs.specs.CompactedRecord.TheVariants as Compacted;
ghost use Rattle.sound_configs.specs.ReportedRecord.TheVariants as Reported;
ghost use Rattle.check_model.specs.Checks.{Checks};
ghost use Rattle.sound_configs.specs.Index.{StandsFor as HasHealth, reported};
ghost use Rattle.sound_configs.specs.Leaving.{AreLeft};
ghost use Rattle.sound_configs.specs.Room.{HasRoom};
ghost use Rattle.health_model.specs.Nodes.{CheckNode, InCone, Node};
ghost use Rattle.health_model.specs.Statuses.{Report, status};
ghost use Rattle.octets.specs.Counts.{Rose};
ghost use Rattle.query_engine.specs.Zones.{Zone};
ghost use Rattle.query_engine.specs.Asking.{answer_of, asker_of};
ghost use Rattle.health_model.specs.Statuses.{status_told};
ghost use Rattle.r53_core.specs.Kinds.{IsOnCollections};
ghost use Rattle.r53_core.specs.Stores.{CommandGives, CompactionGives, StandsFor, Untouched};
ghost use Rattle.r53_core.specs.Stores.{opened};
ghost use Rattle.config_opening.specs.Kept.{IsAccepted};
ghost use Rattle.record_set.specs.Sets.{key_of};
ghost use Rattle.settled_replies.specs.Settled.{AnswersAll, IsSettled};
ghost use Rattle.settled_replies.specs.Settling.{CanSettle};
ghost use Rattle.sound_configs.specs.Octets.{snapshot};
ghost use Rattle.record_set.specs.declared.sets.RecordSet.{RecordSet};
ghost use Rattle.query_engine.specs.Looking.{RefersTo};
ghost use Rattle.zone_journal.specs.Pairs.{EachPair, BothRead, OpensPair, Unwritten};
ghost use Rattle.zone_journal.specs.Standing.{StandsOn};
ghost use Rattle.zone_journal.specs.declared.answers.OpenFault.TheVariants as OpenFault;

use address_text::IpAddress;
use check_model::Check;
use config_opening::{ConfigJournal, open};
use dns_wire::Reply;
use geo_latency::Tables;
use health_check::CheckTable;
use octets::OutOfMemory;
use query_engine::{HealthView, Scratch, SetRef, Zones, answer};
use r53_disk::Disk;
use settled_replies::settle;
use sound_configs::{
    Command, Compacted, HealthIndex, Made, Refusal, Reported, Steps, checks_are_later,
    index_serves, sound_is_served, sound_is_watched,
};
use std::alloc::Global;
use std::marker::Model;
use std::sync::ledger::Ledger;
use zone_journal::OpenFault;

/// The store of a server: its configuration with the journal that keeps it, and the health of each
/// check and set by all reports since it was opened.
#[derive(Drop)]
pub struct Store {
    kept: ConfigJournal,
    index: HealthIndex,
    scratch: Scratch,
}

impl Model for Store {
    ghost use Rattle.r53_core.specs.Stores.{State};

    ghost Value = { State };

    ghost view = { λ s. record { kept = s.kept; index = s.index } };
}

impl Store {
    /// Opens the store over two disks: what its files hold, with no reports yet. It writes nothing.
    ///
    /// NotAStore tells A and 0 where no file is open; else the side of the file that decides, and 20
    /// where its snapshot isn't whole or is that of no sound configuration, or the gate at which no
    /// entry can be taken.
    pub fn open<D: Disk>(alloc: Global, a: &mut D, b: &mut D) -> Result<Store, OpenFault>
        ensures opened { IfOk result (λ store. StandsFor (opened store.kept) store) }
        ensures stands { IfOk result (λ store.
            StandsOn D.reading D.images store.kept.journal a.new b.new) }
        ensures holds { (x y : List ℕ) → D.reading a.old ≡ Some x → D.reading b.old ≡ Some y
            → IfOk result (λ store. BothRead D.reading a.new b.new (Holds store.kept)) }
        ensures faulty { (x y : List ℕ) → D.reading a.old ≡ Some x → D.reading b.old ≡ Some y
            → IsFault result (IsNoStore x y) }
        ensures idle { IfOk result (λ store. store.kept.journal.plan ≡ None) }

        // Both files are synced before either is looked at, and from then on a crash leaves what is
        // read. It writes nothing.
        ensures syncs { (x y : List ℕ) → D.reading a.old ≡ Some x → D.reading b.old ≡ Some y
            → Syncs D.images result x y a.old a.new b.old b.new }
        ensures a_unwritten { (x : List ℕ) → D.reading a.old ≡ Some x
            → Unwritten D.reading D.images D.moment D.images_since a.old a.new }
        ensures b_unwritten { (y : List ℕ) → D.reading b.old ≡ Some y
            → Unwritten D.reading D.images D.moment D.images_since b.old b.new }

        // A fault comes only where the count of a disk rose.
        ensures a_counts { D.faults a.old ≤ D.faults a.new }
        ensures b_counts { D.faults b.old ≤ D.faults b.new }
        ensures failed { IsErrOf result OpenFault.DiskFault
            → Rose (D.faults a.old) (D.faults a.new) ⊎ Rose (D.faults b.old) (D.faults b.new) }
    {
        let kept = open(alloc, a, b)?;
        match Store::new(alloc, kept) {
            Ok(store) => Ok(store),
            Err(_) => Err(OpenFault::OutOfMemory),
        }
    }

    /// The store over a configuration that its journal keeps, with no reports yet.
    pub fn new(alloc: Global, kept: ConfigJournal) -> Result<Store, OutOfMemory>
        ensures kept { IfOk result (λ store. store.kept ≡ kept) }
        ensures stands { IfOk result (λ store. StandsFor (opened kept) store) }
    {
        match parts_over(alloc, &kept) {
            Ok((index, scratch)) => Ok(Store {
                kept,
                index,
                scratch,
            }),
            Err(_) => {
                drop(kept);
                Err(OutOfMemory)
            }
        }
    }

    /// The zones, with the collections.
    pub fn zones(&self) -> &Zones
        ensures { result.now ≡ self.now.kept.config.table }
    {
        self.kept.config().zones()
    }

    /// The health checks.
    pub fn checks(&self) -> &CheckTable
        ensures { result.now ≡ self.now.kept.config.checks }
    {
        self.kept.config().checks()
    }

    /// The snapshot of the configuration, in the version that is written.
    pub fn snapshot(&self, alloc: Global) -> Result<Vec<u8>, OutOfMemory>
        ensures { IfOk result (λ octets. octets.items ≡ snapshot (config_of self.now.kept)) }
    {
        self.kept.config().snapshot(alloc)
    }

    /// Judges a command, writes it down and makes it.
    ///
    /// After a fault of a disk the store is opened again for commands; reports and queries go on
    /// over the configuration before.
    pub fn command<D: Disk>(
        &mut self,
        alloc: Global,
        a: &mut D,
        b: &mut D,
        command: Command,
    ) -> Result<Made, Refusal>
        requires bounded { IsBounded command }
        requires short { HasShortLists command }
        requires stands { StandsOn D.reading D.images self.old.kept.journal a.old b.old }

        // The outcome is that of the definitions, and so is the store after it.
        ensures gives { (engine : Engine) → StandsFor engine self.old
            → CommandGives engine command result self.new }
        ensures stands { UnlessFault result
            (StandsOn D.reading D.images self.new.kept.journal a.new b.new) }
        ensures holds { BothRead D.reading a.old b.old (Holds self.old.kept)
            → UnlessFault result (BothRead D.reading a.new b.new (Holds self.new.kept)) }

        // The octets of a command that was made stand behind the entries before them.
        ensures written { (g : ℕ) (s : List ℕ) (es : List (List ℕ)) (x y : List ℕ)
            → D.reading a.old ≡ Some x → D.reading b.old ≡ Some y → OpensPair x y g s es
            → OnMade result (BothRead D.reading a.new b.new
            (λ u v. OpensPair u v g s (es ++ command_octets command ∷ []))) }

        // Of a command that is accepted nothing is asked of the disks, or at each moment every image
        // pair opens to the configuration before or to the one after. At a refusal no disk is asked.
        ensures any_moment { (after : Config) (what : Made)
            → Decides (config_of self.old.kept) command (Ok (after, what))
            → BothRead D.reading a.old b.old (Holds self.old.kept)
            → ((a.new ≡ a.old) × (b.new ≡ b.old))
            ⊎ EachPair D.moment D.images_since a.old a.new b.old b.new
            (OpensEither (config_of self.old.kept) after) }
        ensures refused { Untouched result ((a.new ≡ a.old) × (b.new ≡ b.old)) }
        ensures faulted { result ≡ Err refusal.DiskFault
            → IsAccepted (config_of self.old.kept) command }

        // A fault comes only where the count of a disk rose.
        ensures a_counts { D.faults a.old ≤ D.faults a.new }
        ensures b_counts { D.faults b.old ≤ D.faults b.new }
        ensures failed { result ≡ Err refusal.DiskFault
            → Rose (D.faults a.old) (D.faults a.new) ⊎ Rose (D.faults b.old) (D.faults b.new) }
    {
        checks_are_later();
        let collections = is_on_collections(&command);
        let ready = match self.kept.prepare(alloc, command) {
            Ok(ready) => ready,
            Err(why) => return Err(why),
        };
        let Ok(()) = self.index.reserve(self.kept.config().zones()) else {
            drop(ready);
            return Err(Refusal::OutOfMemory);
        };
        match self.kept.commit(a, b, ready) {
            Ok(made) => {
                self.follow(collections);
                Ok(made)
            }
            Err(why) => Err(why),
        }
    }

    /// Has the index follow a command that was made; one on collections changes no zone and no check.
    fn follow(&mut self, collections: bool)
        requires room { HasRoom self.old.index self.old.kept.config.table.slots }
        ensures kept { self.new.kept ≡ self.old.kept }
        ensures follows { (before : List Zone) (checks : Checks) (reports : List Report)
            → HasHealth before checks reports self.old.index
            → AreLeft before checks self.old.kept.config.table.zones
            self.old.kept.config.checks.checks self.old.kept.config.told
            → (IsTrue collections → (self.old.kept.config.table.zones ≡ before)
            × (self.old.kept.config.checks.checks ≡ checks))
            → HasHealth self.old.kept.config.table.zones self.old.kept.config.checks.checks
            reports self.new.index }
    {
        if collections {
            return;
        }
        let config = self.kept.config();
        config.well_formed();
        sound_is_watched();
        self.index
            .on_command(config.zones(), config.checks(), config.last_delta());
    }

    /// Makes so many pieces of the compaction that is in progress, or of one that begins with them;
    /// fewer where the new file decides before. The configuration and the reports stay.
    ///
    /// Memory is wanted where a compaction begins alone. After a fault of a disk the compaction is
    /// dropped, and the store is opened again for commands and compactions; reports and queries go
    /// on.
    pub fn compact<D: Disk>(
        &mut self,
        alloc: Global,
        a: &mut D,
        b: &mut D,
        pieces: u32,
    ) -> Compacted
        requires some { 1 ≤ pieces }
        requires stands { StandsOn D.reading D.images self.old.kept.journal a.old b.old }

        // The outcome is that of the definitions, and so is the store after it.
        ensures gives { (engine : Engine) → StandsFor engine self.old
            → CompactionGives engine pieces result self.new }
        ensures stands { UnlessFaulty result
            (StandsOn D.reading D.images self.new.kept.journal a.new b.new) }
        ensures holds { BothRead D.reading a.old b.old (Holds self.old.kept)
            → UnlessFaulty result (BothRead D.reading a.new b.new (Holds self.new.kept)) }

        // At each moment every image pair opens to the configuration. Where no piece is made no disk
        // is asked.
        ensures any_moment { BothRead D.reading a.old b.old (Holds self.old.kept)
            → EachPair D.moment D.images_since a.old a.new b.old b.new
            (λ x y. OpensConfig x y (config_of self.old.kept)) }
        ensures none { WhereNone result ((a.new ≡ a.old) × (b.new ≡ b.old)) }

        // A fault comes only where the count of a disk rose.
        ensures a_counts { D.faults a.old ≤ D.faults a.new }
        ensures b_counts { D.faults b.old ≤ D.faults b.new }
        ensures failed { result ≡ Compacted.DiskFault
            → Rose (D.faults a.old) (D.faults a.new) ⊎ Rose (D.faults b.old) (D.faults b.new) }
    {
        self.kept.compact(alloc, a, b, pieces)
    }

    /// Takes a report of a checker on a check of an endpoint. It takes no memory.
    pub fn report<L: Ledger>(
        &mut self,
        id: u32,
        checker: u8,
        pass: bool,
        steps: &mut Steps<L>,
    ) -> Reported
        ensures reports { (engine : Engine) → StandsFor engine self.old
            → (after : Engine) × ReportSteps engine id checker pass result after
            × StandsFor after self.new }
        ensures kept { self.new.kept ≡ self.old.kept }

        // No gate is worked out where the status stays, or the report isn't taken; else as many are
        // as there are nodes above the check at most, itself too.
        ensures quiet { (engine : Engine) → StandsFor engine self.old
            → status engine.config.checks.list (reported id checker pass ∷ engine.reports) id
            ≡ status engine.config.checks.list engine.reports id → steps.new ≡ steps.old }
        ensures untaken { result ≢ Reported.Taken → steps.new ≡ steps.old }
        ensures cost { (engine : Engine) (cone : List Node) → StandsFor engine self.old
            → ((node : Node) → InCone (watched_in engine.config) (CheckNode id) node
            → Contains cone node) → steps.new ≤ steps.old + length cone }
    {
        let Some(Check::Endpoint { .. }) = self.kept.config().checks().get(id) else {
            return Reported::NoSuchHealthCheck;
        };
        if checker >= 50 {
            return Reported::BadChecker;
        }
        self.index.on_report(id, checker, pass, steps);
        Reported::Taken
    }

    /// Makes the reply to a packet that came from `peer`, with eight words that were drawn for it.
    /// It takes no memory, and asks no disk.
    pub fn query(
        &mut self,
        tables: &Tables,
        packet: &[u8],
        peer: IpAddress,
        words: &[u64; 8],
        reply: &mut Reply,
    ) -> Option<usize>
        requires room { 4096 ≤ reply.old.room }
        ensures gives { (engine : Engine) → StandsFor engine self.old
            → QueryGives engine tables.now (asker_of peer words.now) packet.now
            (answer_of result reply.new) }
        ensures same { self.new ≡ self.old }
        ensures length { IfSome result (λ n. n ≡ length reply.new.bytes) }
        ensures room { reply.new.room ≡ reply.old.room }
        ensures silent { result ≡ None → reply.new ≡ reply.old }
    {
        let config = self.kept.config();
        config.well_formed();
        sound_is_served();
        index_serves();
        answer(
            config.zones(),
            &self.index,
            tables,
            packet,
            peer,
            words,
            &mut self.scratch,
            reply,
        )
    }

    /// Makes the reply to a packet where it is the same whoever asks, as long as no command is made and no set becomes
    /// healthy or unhealthy, and says how many octets it has; else None. It takes no memory.
    pub fn settle(&mut self, tables: &Tables, packet: &[u8], reply: &mut Reply) -> Option<usize>
        requires room { 4096 ≤ reply.old.room }
        ensures answers { IfSome result (λ n. (engine : Engine) → StandsFor engine self.old
            → AnswersAll engine.config.zones engine.config.collections.list
            (is_healthy engine.config engine.reports) tables.now packet.now reply.new.bytes) }
        ensures settled { IfSome result (λ n. (engine : Engine) → StandsFor engine self.old
            → IsSettled engine.config.zones engine.config.collections.list
            (is_healthy engine.config engine.reports) tables.now (drop 2 packet.now)
            (drop 2 reply.new.bytes)) }
        ensures exact { (engine : Engine) → StandsFor engine self.old
            → (IsSome result ↔ CanSettle (served_in engine tables.now) packet.now) }
        ensures same { self.new ≡ self.old }
        ensures length { IfSome result (λ n. n ≡ length reply.new.bytes) }
        ensures room { reply.new.room ≡ reply.old.room }
        ensures unsettled { result ≡ None → reply.new ≡ reply.old }
    {
        let config = self.kept.config();
        config.well_formed();
        sound_is_served();
        index_serves();
        settle(
            config.zones(),
            &self.index,
            tables,
            packet,
            &mut self.scratch,
            reply,
        )
    }

    /// The status of a check, with the number of its checkers that see a pass, or of its healthy
    /// children.
    pub fn check_status(&self, id: u32) -> Option<(bool, u16)>
        ensures { (engine : Engine) → StandsFor engine self.now
            → result ≡ status_told engine.config.checks.list engine.reports id }
    {
        self.index.check_status(id)
    }

    /// Whether the set that a reference names is healthy, by all reports.
    pub fn is_healthy(&self, set: SetRef) -> bool
        ensures { (engine : Engine) (named : RecordSet) → StandsFor engine self.now
            → RefersTo self.now.kept.config.table.zones set named
            → result ≡ is_healthy engine.config engine.reports set.zone (key_of named) }
    {
        index_serves();
        self.index.is_healthy(set)
    }
}

/// The index of health over a configuration, with no reports yet, and a scratch.
fn parts_over(alloc: Global, kept: &ConfigJournal) -> Result<(HealthIndex, Scratch), OutOfMemory>
    ensures { IfOk result (λ parts. HasHealth kept.now.config.table.zones kept.now.config.checks.checks
        [] parts.0) }
{
    let config = kept.config();
    config.well_formed();
    sound_is_watched();
    let scratch = Scratch::new(alloc)?;
    let Ok(index) = HealthIndex::rebuild(alloc, config.zones(), config.checks()) else {
        drop(scratch);
        return Err(OutOfMemory);
    };
    Ok((index, scratch))
}

/// Whether a command is on collections of address blocks.
fn is_on_collections(command: &Command) -> bool
    ensures { IsTrue result ↔ IsOnCollections command.now }
{
    match command {
        Command::CreateZone { .. } => false,
        Command::DeleteZone(_) => false,
        Command::Change(_) => false,
        Command::Health(_) => false,
        Command::Cidr(_) => true,
    }
}
