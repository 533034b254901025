//! What a command asks for: an edit of the zones, or a change of the health checks.

ghost use Rattle.std.specs.Prelude.{◌≡◌};
ghost use Rattle.check_commands.specs.Laws.{IsBounded};
ghost use Rattle.check_commands.specs.Sound.{Sound};
ghost use Rattle.check_commands.specs.Uses.{KnowsUses};
ghost use Rattle.zone_commands.specs.Configured.{config_of};
ghost use Rattle.r53_state.specs.Steps.{TellsWork};

use batch_commands::change_zone;
use check_commands::{CheckUses, Refusal, judge_checks};
use collection_commands::change_collections;
use health_check::CheckTable;
use std::alloc::Global;
use zone_commands::{Command, Scratch, ZoneEdit, Zones, create_zone, delete_zone};

/// The edit of the zones that a command makes, none where it is on health checks; or why it is
/// refused.
pub fn work_for(
    alloc: Global,
    zones: &Zones,
    checks: &CheckTable,
    uses: &CheckUses,
    next: u32,
    command: &Command,
    scratch: &mut Scratch,
) -> Result<Option<ZoneEdit>, Refusal>
    requires sound { Sound (config_of zones.now checks.now.checks next) }
    requires known { KnowsUses uses.now zones.now.zones }
    requires bounded { IsBounded command.now }
    ensures { TellsWork (config_of zones.now checks.now.checks next) command.now zones.now result }
{
    match command {
        Command::CreateZone { name, servers } => {
            some(create_zone(alloc, zones, next, name, servers))
        }
        Command::DeleteZone(id) => some(delete_zone(zones, *id, scratch)),
        Command::Change(batch) => some(change_zone(alloc, zones, checks, batch, scratch)),
        Command::Health(health) => match judge_checks(zones, checks, uses, health) {
            Ok(()) => Ok(None),
            Err(why) => Err(why),
        },
        Command::Cidr(cidr) => some(change_collections(alloc, zones, cidr, scratch)),
    }
}

/// The edit, as one that there is.
fn some(edit: Result<ZoneEdit, Refusal>) -> Result<Option<ZoneEdit>, Refusal>
    ensures { result ≡ Rattle.r53_state.specs.Steps.some_edit edit }
{
    match edit {
        Ok(edit) => Ok(Some(edit)),
        Err(why) => Err(why),
    }
}
