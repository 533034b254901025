//! Commands on collections (API Reference, CreateCidrCollection, ChangeCidrCollection and
//! DeleteCidrCollection).

ghost use Rattle.std.specs.Prelude.{◌≡◌, ℕ, IfOk};
ghost use Rattle.check_model.specs.Checks.{Checks};
ghost use Rattle.cidr_commands.specs.Commands.{HasNames, outcome};
ghost use Rattle.config_zones.specs.CommandRecord.TheVariants.{Cidr};
ghost use Rattle.config_zones.specs.Edited.{hosted_in};
ghost use Rattle.config_zones.specs.Others.{used_by};
ghost use Rattle.config_zones.specs.Configured.{TellsEdit, config_of};

use crate::naming::used_by;
use cidr_routing::{CidrCommand, Ident};
use config_zones::{Refusal, Scratch, ZoneEdit, Zones, of_fault};
use octets::OutOfMemory;
use std::alloc::Global;

/// The edit by which collections come to be what a command makes of them, or why it is refused.
/// What the scratch holds afterwards is left open.
///
/// But for a new collection, and one that isn't there, it goes through the sets of all zones.
pub fn change_collections(
    alloc: Global,
    zones: &Zones,
    command: &CidrCommand,
    scratch: &mut Scratch,
) -> Result<ZoneEdit, Refusal>
    requires names { HasNames command.now }
    ensures { (checks : Checks) (next : ℕ)
        → TellsEdit (config_of zones.now checks next) (Cidr command.now) zones.now result }
{
    let Ok(used) = used_for(alloc, zones, command, scratch) else {
        return Err(Refusal::OutOfMemory);
    };
    match zones.collections().after(alloc, command, used.as_slice()) {
        Ok(after) => Ok(ZoneEdit::Collections(after)),
        Err(fault) => Err(of_fault(&fault)),
    }
}

/// What sets name, as far as the command asks for it: a new collection is named by no set, and one
/// that isn't there is refused whatever they name.
fn used_for(
    alloc: Global,
    zones: &Zones,
    command: &CidrCommand,
    scratch: &mut Scratch,
) -> Result<Vec<(u32, Ident)>, OutOfMemory>
    ensures { IfOk result (λ used. outcome zones.now.collections command.now used.items
        ≡ outcome zones.now.collections command.now (used_by (hosted_in zones.now.zones))) }
{
    match command {
        CidrCommand::Create(_) => Ok(Vec::new(alloc)),
        CidrCommand::Change { id, .. } | CidrCommand::Delete(id) => {
            if zones.collections().get(*id).is_none() {
                return Ok(Vec::new(alloc));
            }
            used_by(alloc, zones, scratch)
        }
    }
}
