//! The configuration of a server.

ghost use Rattle.std.specs.Prelude.{◌≡◌, ◌≤◌, IfErr, IfOk, Err, Ok};
ghost use Rattle.zone_commands.specs.CommandRecord.{Command};
ghost use Rattle.check_commands.specs.Applying.{Applies, Decides};
ghost use Rattle.check_commands.specs.Configs.{Config, empty};
ghost use Rattle.check_commands.specs.Laws.{IsBounded};
ghost use Rattle.check_commands.specs.Sound.{Sound};
ghost use Rattle.check_commands.specs.RefusalRecord.TheVariants as refusal;
ghost use Rattle.zone_commands.specs.Configured.{IsEditFor, config_of};
ghost use Rattle.health_check.specs.Stored.{HasRoom};
ghost use Rattle.r53_state.specs.States.{IsAccepted, IsOnChecks, IsReady, StayReady, config_in};
ghost use Rattle.r53_state.specs.States.{nothing_told};
ghost use Rattle.r53_state.specs.Steps.{TellsSets, checks_of};
ghost use Rattle.zone_commands.specs.Edits.{Edits, IsReady as IsEditReady};

use crate::editing::work_for;
use crate::installing::{apply, made_by, next_after};
use crate::prepared::Prepared;
use check_commands::{CheckUses, Made, Refusal, commands_keep_sound, empty_is_sound};
use health_check::CheckTable;
use octets::OutOfMemory;
use std::alloc::Global;
use std::marker::Model;
use zone_commands::{Command, Delta, Ready, Scratch, SetRefs, ZoneEdit, Zones};

/// The hosted zones, health checks and collections of a server, which are sound.
#[derive(Drop)]
pub struct Config {
    zones: Zones,
    checks: CheckTable,
    next_zone: u32,
    /// Which sets name which checks.
    uses: CheckUses,
    /// What the last command took away and put.
    told: Delta,
    scratch: Scratch,
}

impl Model for Config {
    ghost use Rattle.check_commands.specs.Sound.{Sound};
    ghost use Rattle.check_commands.specs.Uses.{KnowsUses};
    ghost use Rattle.zone_commands.specs.Configured.{config_of};
    ghost use Rattle.r53_state.specs.States.{State};

    ghost Value = { State };

    ghost view = { λ c. record {
      table = c.zones;
      checks = c.checks;
      next_zone = c.next_zone;
      told = c.told;
    } };

    ghost invariant = { λ c. Sound (config_of c.zones c.checks.checks c.next_zone)
        × KnowsUses c.uses c.zones.zones };
}

impl Config {
    /// Nothing yet. The first zone, check and collection get number 1.
    pub fn new(alloc: Global) -> Result<Config, OutOfMemory>
        ensures config { IfOk result (λ config. config_in config ≡ empty) }
        ensures told { IfOk result (λ config. config.told ≡ nothing_told) }
    {
        empty_is_sound();
        let scratch = Scratch::new(alloc)?;
        Ok(Config {
            zones: Zones::new(alloc),
            checks: CheckTable::new(alloc),
            next_zone: 1,
            uses: CheckUses::new(alloc),
            told: nothing(alloc),
            scratch,
        })
    }

    /// These zones and collections, these checks, and the number that the next zone gets. It goes
    /// through the sets of zones in which any names a check.
    pub fn restore(
        alloc: Global,
        zones: Zones,
        checks: CheckTable,
        next_zone: u32,
    ) -> Result<Config, OutOfMemory>
        requires { Sound (config_of zones checks.checks next_zone) }
        ensures { IfOk result (λ config. config ≡ record {
          table = zones;
          checks = checks;
          next_zone = next_zone;
          told = nothing_told;
        }) }
    {
        let scratch = Scratch::new(alloc)?;
        let uses = CheckUses::all_of(alloc, &zones)?;
        Ok(Config {
            zones,
            checks,
            next_zone,
            uses,
            told: nothing(alloc),
            scratch,
        })
    }

    /// It is sound; it does nothing.
    pub fn well_formed(&self)
        ensures { Sound (config_in self.now) }
    {
        self.zones.well_formed();
    }

    /// The zones, with the collections.
    pub fn zones(&self) -> &Zones
        ensures { result.now ≡ self.now.table }
    {
        &self.zones
    }

    /// The health checks.
    pub fn checks(&self) -> &CheckTable
        ensures { result.now ≡ self.now.checks }
    {
        &self.checks
    }

    /// The number that the next zone gets.
    pub fn next_zone(&self) -> u32
        ensures { result ≡ self.now.next_zone }
    {
        self.next_zone
    }

    /// What the last command took away from a zone and put into it; of zone 0 and nothing before
    /// the first command, and after one on health checks or collections.
    pub fn last_delta(&self) -> &Delta
        ensures { result.now ≡ self.now.told }
    {
        &self.told
    }

    /// Judges a command and takes all its memory. The configuration stays as it is, and commands
    /// that are ready stay ready, also where this one is refused; it is dropped then.
    ///
    /// Refusals come in the order that each command's rules have. Memory may be wanted at any
    /// point.
    pub fn prepare(&mut self, alloc: Global, command: Command) -> Result<Prepared, Refusal>
        requires { IsBounded command }
        ensures zones { self.new.table.zones ≡ self.old.table.zones }
        ensures slots { self.old.table.slots ≤ self.new.table.slots }
        ensures config { config_in self.new ≡ config_in self.old }
        ensures told { self.new.told ≡ self.old.told }
        ensures refused { IfErr result (λ why. Applies (config_in self.old) command (Err why)) }
        ensures command { IfOk result (λ prepared. prepared.command ≡ command) }
        ensures ready { IfOk result (λ prepared. IsReady self.new prepared) }
        ensures others { StayReady self.old self.new }
    {
        let work = work_for(
            alloc,
            &self.zones,
            &self.checks,
            &self.uses,
            self.next_zone,
            &command,
            &mut self.scratch,
        );
        match work {
            Ok(Some(edit)) => self.make_ready(alloc, command, edit),
            Ok(None) => self.make_room(alloc, command),
            Err(why) => Err(why),
        }
    }

    /// Makes a command that is ready. It can't fail, and takes no memory; the slots of the zones stay
    /// as many.
    ///
    /// The command was prepared by this configuration, with nothing installed since.
    pub fn install(&mut self, prepared: Prepared) -> Made
        requires { IsReady self.old prepared }
        ensures installed { Decides (config_in self.old) prepared.command
            (Ok (config_in self.new, result)) }
        ensures told { TellsSets self.old prepared.edit self.new }
        ensures slots { self.new.table.slots ≡ self.old.table.slots }
        ensures checks { self.new.checks.checks
            ≡ checks_of self.old.checks.checks prepared.command }
    {
        let Prepared {
            command,
            ready,
            nothing,
        } = prepared;
        match ready {
            Some(ready) => self.make_edit(&command, ready),
            None => self.make_check(command, nothing),
        }
    }

    /// Commands put it off from now on that hints are made anew, which only tell where to look
    /// first: for commands that follow one another, as where a journal is read.
    pub fn put_hints_off(&mut self)
        ensures { self.new ≡ self.old }
    {
        self.zones.put_hints_off();
    }

    /// Makes all hints anew that are old; from now on commands do so.
    pub fn settle_hints(&mut self)
        ensures { self.new ≡ self.old }
    {
        self.zones.settle_hints();
    }

    /// Makes the edit of the zones that is ready for a command.
    fn make_edit(&mut self, command: &Command, ready: Ready) -> Made
        requires bounded { IsBounded command.now }
        requires kind { IsOnChecks command.now → ⊥ }
        requires ready { IsEditReady self.old.table ready }
        requires edit { IsEditFor (config_in self.old) command.now self.old.table ready.made }
        ensures installed { Decides (config_in self.old) command.now
            (Ok (config_in self.new, result)) }
        ensures told { Edits self.old.table.zones ready.made self.new.table.zones self.new.told }
        ensures slots { self.new.table.slots ≡ self.old.table.slots }
        ensures checks { self.new.checks.checks ≡ self.old.checks.checks }
    {
        commands_keep_sound();
        self.zones.well_formed();
        self.zones.slots_apart();
        let made = made_by(&self.zones, &self.checks, self.next_zone, command);
        self.next_zone = next_after(self.next_zone, command);
        self.told = self.zones.edit(ready);
        self.uses.note(&self.zones, &self.told);
        self.zones.well_formed();
        made
    }

    /// Makes a command on health checks, which tells nothing of sets.
    fn make_check(&mut self, command: Command, nothing: Delta) -> Made
        requires bounded { IsBounded command }
        requires kind { IsOnChecks command }
        requires accepted { IsAccepted (config_in self.old) command }
        requires room { HasRoom self.old.checks 1 }
        requires nothing { nothing ≡ nothing_told }
        ensures installed { Decides (config_in self.old) command
            (Ok (config_in self.new, result)) }
        ensures told { self.new.told ≡ nothing_told }
        ensures zones { self.new.table ≡ self.old.table }
        ensures checks { self.new.checks.checks ≡ checks_of self.old.checks.checks command }
    {
        commands_keep_sound();
        let made = made_by(&self.zones, &self.checks, self.next_zone, &command);
        apply(&mut self.checks, command);
        self.told = nothing;
        made
    }

    /// Takes the memory of an edit that a command makes.
    fn make_ready(
        &mut self,
        alloc: Global,
        command: Command,
        edit: ZoneEdit,
    ) -> Result<Prepared, Refusal>
        requires bounded { IsBounded command }
        requires kind { IsOnChecks command → ⊥ }
        requires edit { IsEditFor (config_in self.old) command self.old.table edit }
        ensures zones { self.new.table.zones ≡ self.old.table.zones }
        ensures slots { self.old.table.slots ≤ self.new.table.slots }
        ensures config { config_in self.new ≡ config_in self.old }
        ensures told { self.new.told ≡ self.old.told }
        ensures refused { IfErr result (λ why. why ≡ refusal.OutOfMemory) }
        ensures command { IfOk result (λ prepared. prepared.command ≡ command) }
        ensures ready { IfOk result (λ prepared. IsReady self.new prepared) }
        ensures others { StayReady self.old self.new }
    {
        let Ok(()) = self.uses.reserve(&self.zones, &edit) else {
            return Err(Refusal::OutOfMemory);
        };
        let Ok(ready) = self.zones.ready(alloc, edit) else {
            return Err(Refusal::OutOfMemory);
        };
        Ok(Prepared {
            command,
            ready: Some(ready),
            nothing: nothing(alloc),
        })
    }

    /// Takes the memory of a command on health checks.
    fn make_room(&mut self, alloc: Global, command: Command) -> Result<Prepared, Refusal>
        requires bounded { IsBounded command }
        requires kind { IsOnChecks command }
        requires accepted { IsAccepted (config_in self.old) command }
        ensures zones { self.new.table.zones ≡ self.old.table.zones }
        ensures slots { self.old.table.slots ≤ self.new.table.slots }
        ensures config { config_in self.new ≡ config_in self.old }
        ensures told { self.new.told ≡ self.old.told }
        ensures refused { IfErr result (λ why. why ≡ refusal.OutOfMemory) }
        ensures command { IfOk result (λ prepared. prepared.command ≡ command) }
        ensures ready { IfOk result (λ prepared. IsReady self.new prepared) }
        ensures others { StayReady self.old self.new }
    {
        match self.checks.reserve() {
            Ok(()) => Ok(Prepared {
                command,
                ready: None,
                nothing: nothing(alloc),
            }),
            Err(_) => Err(Refusal::OutOfMemory),
        }
    }
}

/// No sets that went or came.
fn nothing(alloc: Global) -> Delta
    ensures { result ≡ nothing_told }
{
    Delta {
        zone: 0,
        removed: SetRefs::from_vec(Vec::new(alloc)),
        added: SetRefs::from_vec(Vec::new(alloc)),
    }
}
