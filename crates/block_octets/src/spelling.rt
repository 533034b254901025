//! Which commands on collections have a spelling.

ghost use Rattle.std.specs.Prelude.{◌<◌, ◌^◌, length, IsTrue, ◌↔◌};
ghost use Rattle.std.specs.List.{AllByRecursion};
ghost use Rattle.block_octets.specs.Octets.{HasFewBlocks, IsListable, HasSpelling};

use cidr_commands::{CidrChange, CidrCommand, has_names};

/// Whether a command has a spelling: its names are names of collections and of locations, and its
/// lists can be counted.
pub fn has_cidr_spelling(command: &CidrCommand) -> bool
    ensures { IsTrue result ↔ HasSpelling command.now }
{
    has_names(command) && is_listed(command)
}

/// Whether the lists of a command can be counted.
fn is_listed(command: &CidrCommand) -> bool
    ensures { IsTrue result ↔ IsListable command.now }
{
    match command {
        CidrCommand::Change { changes, .. } => are_listed(changes.as_slice()),
        CidrCommand::Create(_) | CidrCommand::Delete(_) => true,
    }
}

/// Whether changes, and the blocks of each, can be counted.
fn are_listed(changes: &[CidrChange]) -> bool
    ensures { IsTrue result
        ↔ ((length changes.now < 2 ^ 16) × AllByRecursion HasFewBlocks changes.now) }
{
    changes.len() < 1 << 16 && have_few_blocks(changes)
}

/// Whether the blocks of each change can be counted.
fn have_few_blocks(changes: &[CidrChange]) -> bool
    ensures { IsTrue result ↔ AllByRecursion HasFewBlocks changes.now }
{
    for change in changes {
        if change.blocks.as_slice().len() >= 1 << 16 {
            return false;
        }
    }
    true
}
