//! Which commands on health checks have a spelling.

ghost use Rattle.std.specs.Prelude.{◌<◌, ◌^◌, length, IsTrue, ◌↔◌};
ghost use Rattle.octet_reading.specs.Rules.{WhereSome};
ghost use Rattle.check_octets.specs.Octets.{IsListable, HasSpelling};

use check_model::{CheckCommand, Children, is_bounded};

/// Whether a command has a spelling in the version that is written: its numbers are within their
/// bounds.
pub fn has_check_spelling(command: &CheckCommand) -> bool
    ensures { IsTrue result ↔ HasSpelling 2 command.now }
{
    if !is_bounded(command) {
        return false;
    }
    match command {
        CheckCommand::Update { children, .. } => are_listable(children),
        CheckCommand::Create(_) | CheckCommand::Delete(_) => true,
    }
}

/// Whether children can be counted, where they are given.
fn are_listable(children: &Option<Children>) -> bool
    ensures { IsTrue result ↔ WhereSome IsListable children.now }
{
    match children {
        Some(children) => children.as_slice().len() < 1 << 16,
        None => true,
    }
}
