//! The configuration with its journal.

ghost use Rattle.std.specs.Prelude.{◌≡◌, ◌≤◌, ◌⊎◌, ℕ, List, [], ◌∷◌, ◌++◌, Some, IfErr, IfOk, Ok, Err};
ghost use Rattle.store_model.specs.LawsOfCommandBounds.{HasShortLists};
ghost use Rattle.r53_state.specs.CommandRecord.{Command};
ghost use Rattle.config_journal.specs.Holding.{Holds};
ghost use Rattle.config_journal.specs.States.{IsReady, Ready, State, config_of};
ghost use Rattle.config_journal.specs.Steps.{CommitGives, OnFull, OnMade, StaysSo, UnlessFault};
ghost use Rattle.r53_state.specs.Applying.{Applies, Decides};
ghost use Rattle.r53_state.specs.Configs.{Config as Configuration};
ghost use Rattle.r53_state.specs.Laws.{IsBounded};
ghost use Rattle.r53_state.specs.MadeRecord.{Made};
ghost use Rattle.r53_state.specs.RefusalRecord.TheVariants as refusal;
ghost use Rattle.octets.specs.Counts.{Rose};
ghost use Rattle.r53_disk.specs.Disk.{Rests};
ghost use Rattle.r53_state.specs.States.{IsReady as IsPrepared};
ghost use Rattle.store_model.specs.Leaving.{OpensEither};
ghost use Rattle.zone_journal.specs.Pairs.{EachPair, BothRead, OpensPair, other_of};
ghost use Rattle.zone_journal.specs.Standing.{StandsOn};

use crate::ready::ReadyCommand;
use gate_journal::{Appended, Entry};
use r53_disk::Disk;
use r53_state::{Command, Config, Made, Prepared, Refusal, write};
use std::alloc::Global;
use std::marker::Model;
use store_model::{
    accepted_are_short, accepted_are_taken, accepted_have_spelling, appends_may_open, appends_open,
    plan_goes_on,
};
use zone_journal::ZoneJournal;

/// A configuration, and the journal over two files that keeps it.
#[derive(Drop)]
pub struct ConfigJournal {
    pub(crate) config: Config,
    pub(crate) journal: ZoneJournal,
}

impl Model for ConfigJournal {
    ghost use Rattle.config_journal.specs.States.{State};

    ghost Value = { State };

    ghost view = { λ c. record { config = c.config; journal = c.journal } };
}

impl ConfigJournal {
    /// The configuration that a journal keeps.
    pub fn new(config: Config, journal: ZoneJournal) -> ConfigJournal
        ensures { result ≡ record { config = config; journal = journal } }
    {
        ConfigJournal { config, journal }
    }

    /// The configuration.
    pub fn config(&self) -> &Config
        ensures { result.now ≡ self.now.config }
    {
        &self.config
    }

    /// The journal.
    pub fn journal(&self) -> &ZoneJournal
        ensures { result.now ≡ self.now.journal }
    {
        &self.journal
    }

    /// Judges a command, and takes all its memory. The configuration stays as it is, and commands
    /// that are ready stay ready.
    ///
    /// Refusals come in the order that each command's rules have. Memory may be wanted at any
    /// point.
    pub fn prepare(&mut self, alloc: Global, command: Command) -> Result<ReadyCommand, Refusal>
        requires bounded { IsBounded command }
        requires short { HasShortLists command }
        ensures stays { StaysSo self.old self.new }
        ensures refused { IfErr result (λ why. Applies (config_of self.old) command (Err why)) }
        ensures command { IfOk result (λ ready. ready.prepared.command ≡ command) }
        ensures ready { IfOk result (λ ready. IsReady self.new ready) }
        ensures others { (ready : Ready) → IsReady self.old ready → IsReady self.new ready }
    {
        let prepared = self.config.prepare(alloc, command)?;
        self.write(alloc, prepared)
    }

    /// Takes the memory of a command's entry.
    fn write(&self, alloc: Global, prepared: Prepared) -> Result<ReadyCommand, Refusal>
        requires ready { IsPrepared self.now.config prepared }
        requires short { HasShortLists prepared.command }
        ensures refused { IfErr result (λ why. why ≡ refusal.OutOfMemory) }
        ensures command { IfOk result (λ ready. ready.prepared ≡ prepared) }
        ensures ready { IfOk result (λ ready. IsReady self.now ready) }
    {
        self.config.well_formed();
        accepted_have_spelling();
        accepted_are_short();
        let Ok(octets) = write(alloc, prepared.command()) else {
            drop(prepared);
            return Err(Refusal::OutOfMemory);
        };
        let Ok(entry) = Entry::new(alloc, &octets) else {
            drop(octets);
            drop(prepared);
            return Err(Refusal::OutOfMemory);
        };
        drop(octets);
        Ok(ReadyCommand { prepared, entry })
    }

    /// Writes a command down and makes it. It takes no memory.
    ///
    /// The command was made ready by this call's configuration, with nothing made since. Where the
    /// file is full nothing is asked of the disks. After a fault of a disk the configuration is the
    /// one before, and the files open to that one or to the one behind the command.
    pub fn commit<D: Disk>(
        &mut self,
        a: &mut D,
        b: &mut D,
        ready: ReadyCommand,
    ) -> Result<Made, Refusal>
        requires stands { StandsOn D.reading D.images self.old.journal a.old b.old }
        requires ready { IsReady self.old ready }
        ensures gives { CommitGives result self.old ready self.new }
        ensures stands { UnlessFault result
            (StandsOn D.reading D.images self.new.journal a.new b.new) }

        // The files that hold the configuration before hold the one after.
        ensures holds { BothRead D.reading a.old b.old (Holds self.old)
            → UnlessFault result (BothRead D.reading a.new b.new (Holds self.new)) }

        // The entry stands behind those before it.
        ensures written { (g : ℕ) (s : List ℕ) (es : List (List ℕ)) (x y : List ℕ)
            → D.reading a.old ≡ Some x → D.reading b.old ≡ Some y → OpensPair x y g s es
            → OnMade result (BothRead D.reading a.new b.new
            (λ u v. OpensPair u v g s (es ++ ready.entry ∷ []))) }

        // At each moment every image pair opens to the configuration before, or to the one after.
        ensures any_moment { (after : Configuration) (what : Made)
            → Decides (config_of self.old) ready.prepared.command (Ok (after, what))
            → BothRead D.reading a.old b.old (Holds self.old)
            → EachPair D.moment D.images_since a.old a.new b.old b.new
            (OpensEither (config_of self.old) after) }

        // Where it is full both disks are as they were; the other file is left as it is.
        ensures full { OnFull result ((a.new ≡ a.old) × (b.new ≡ b.old)) }
        ensures rests { Rests D.reading D.images D.moment D.images_since
            (other_of self.old.journal.side a.old b.old)
            (other_of self.old.journal.side a.new b.new) }

        // It fails only where the count of a disk rose.
        ensures a_counts { D.faults a.old ≤ D.faults a.new }
        ensures b_counts { D.faults b.old ≤ D.faults b.new }
        ensures failed { result ≡ Err refusal.DiskFault
            → Rose (D.faults a.old) (D.faults a.new) ⊎ Rose (D.faults b.old) (D.faults b.new) }
    {
        accepted_are_taken();
        appends_may_open::<D>();
        appends_open::<D>();
        plan_goes_on();
        let ReadyCommand { prepared, entry } = ready;
        match self.journal.append(a, b, &entry) {
            Appended::Done => {
                drop(entry);
                Ok(self.config.install(prepared))
            }
            Appended::Full(length) => {
                drop(entry);
                drop(prepared);
                Err(Refusal::JournalFull(length))
            }
            Appended::DiskFault => {
                drop(entry);
                drop(prepared);
                Err(Refusal::DiskFault)
            }
        }
    }
}
