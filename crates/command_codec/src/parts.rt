//! What every command is.

ghost use Rattle.std.specs.Prelude.{◌≡◌, length};
ghost use Rattle.std.specs.List.{AllByRecursion};
ghost use Rattle.set_reading.specs.Names.{IsName};
ghost use Rattle.command_codec.specs.Commands.{HasSet, IsCommand};

use command_octets::{Change, Command};
use set_reading::Name;

/// What every command is, for the premises of laws; it does nothing.
pub fn well_formed(command: &Command)
    ensures { IsCommand command.now }
{
    match command {
        Command::CreateZone { name, servers } => {
            name.well_formed();
            four_names(servers);
        }
        Command::DeleteZone(_) | Command::Health(_) | Command::Cidr(_) => {}
        Command::Change(batch) => sets_in_changes(batch.changes.as_slice()),
    }
}

/// The names of servers.
fn four_names(servers: &[Name; 4])
    ensures four { length servers.now ≡ 4 }
    ensures names { AllByRecursion IsName servers.now }
{
    for server in servers {
        server.well_formed();
    }
}

/// The sets of changes.
fn sets_in_changes(changes: &[Change])
    ensures { AllByRecursion HasSet changes.now }
{
    for change in changes {
        set_reading::well_formed(&change.set);
    }
}
