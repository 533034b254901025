//! Which commands have a spelling.

ghost use Rattle.std.specs.Prelude.{◌<◌, ◌^◌, length, IsTrue, ◌↔◌};
ghost use Rattle.std.specs.List.{AllByRecursion};
ghost use Rattle.command_octets.specs.Octets.{HasSpelledSet, HasSpelling};

use crate::commands::Command;
use batch_model::Change;
use block_octets::has_cidr_spelling;
use check_octets::has_check_spelling;

/// Whether a command has a spelling in the version that is written: its parts are within their
/// bounds, and its lists can be counted.
pub fn has_spelling(command: &Command) -> bool
    ensures { IsTrue result ↔ HasSpelling 2 command.now }
{
    match command {
        Command::CreateZone { .. } | Command::DeleteZone(_) => true,
        Command::Change(batch) => {
            batch.changes.len() < 1 << 16 && have_spellings(batch.changes.as_slice())
        }
        Command::Health(command) => has_check_spelling(command),
        Command::Cidr(command) => has_cidr_spelling(command),
    }
}

/// Whether each set has a spelling.
fn have_spellings(changes: &[Change]) -> bool
    ensures { IsTrue result ↔ AllByRecursion HasSpelledSet changes.now }
{
    for change in changes {
        if !batch_model::has_spelling(&change.set) {
            return false;
        }
    }
    true
}
