//! Commands on collections.

ghost use Rattle.std.specs.Prelude.{IsTrue, ◌↔◌};
ghost use Rattle.std.specs.List.{AllByRecursion};
ghost use Rattle.cidr_changes.specs.Prefixes.{IsPrefix, Prefix};
ghost use Rattle.cidr_changes.specs.Laws.{HasName, HaveNames};
ghost use Rattle.cidr_commands.specs.Commands.{HasNames};

use cidr_changes::{Changes, CidrChange, Ident, IpPrefix};

/// A command on collections.
#[derive(Drop)]
pub enum CidrCommand {
    /// A new collection of this name.
    Create(Ident),
    /// Changes of the blocks of a collection, in this order.
    Change { id: u32, changes: Changes },
    /// The end of a collection.
    Delete(u32),
}

/// Whether a command gives names as they are: 1 to 64 letters, digits, `_` and `-` to a collection,
/// 1 to 16 to a location. Its blocks are prefixes, as each `IpPrefix` is.
pub fn has_names(command: &CidrCommand) -> bool
    ensures { IsTrue result ↔ HasNames command.now }
{
    match command {
        CidrCommand::Create(name) => name.is_collection_name(),
        CidrCommand::Change { id: _, changes } => have_names(changes.as_slice()),
        CidrCommand::Delete(_) => true,
    }
}

/// Whether changes name locations.
fn have_names(changes: &[CidrChange]) -> bool
    ensures { IsTrue result ↔ HaveNames changes.now }
{
    for change in changes {
        if !has_name(change) {
            return false;
        }
    }
    true
}

/// Whether a change names a location.
fn has_name(change: &CidrChange) -> bool
    ensures { IsTrue result ↔ HasName change.now }
{
    are_prefixes(change.blocks.as_slice());
    change.location.is_location_name()
}

/// What all these are; it does nothing else.
fn are_prefixes(blocks: &[IpPrefix])
    ensures { AllByRecursion (λ (block : Prefix). IsPrefix block.address block.length) blocks.now }
{
    for block in blocks {
        block.address();
    }
}
