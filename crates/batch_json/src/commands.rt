//! Commands, from what lines tell of them.

ghost use Rattle.std.specs.Prelude.{◌≡◌, option_map};
ghost use Rattle.batch_json.specs.Lines.{check_of, update_of, zone_of};

use check_lines::{CheckUpdate, Ids, NewCheck};
use check_model::{Check, CheckCommand, Children};
use command_octets::Command;
use zone_lines::NewZone;

/// The command that makes a zone.
pub(crate) fn zone_command(zone: NewZone) -> Command
    ensures { result ≡ zone_of zone }
{
    let NewZone { name, servers } = zone;
    Command::CreateZone { name, servers }
}

/// The command that makes a health check.
pub(crate) fn check_command(check: NewCheck) -> CheckCommand
    ensures { result ≡ check_of check }
{
    CheckCommand::Create(match check {
        NewCheck::Endpoint {
            threshold,
            inverted,
            disabled,
        } => Check::Endpoint {
            threshold,
            inverted,
            disabled,
        },
        NewCheck::Calculated {
            threshold,
            inverted,
            disabled,
            children,
        } => Check::Calculated {
            threshold,
            inverted,
            disabled,
            children: Children::from_vec(children.into_vec()),
        },
    })
}

/// The command that changes a health check.
pub(crate) fn update_command(update: CheckUpdate) -> CheckCommand
    ensures { result ≡ update_of update }
{
    CheckCommand::Update {
        id: update.id,
        inverted: update.inverted,
        disabled: update.disabled,
        threshold: update.threshold,
        children: children_of(update.children),
    }
}

/// Children, where they are given.
fn children_of(ids: Option<Ids>) -> Option<Children>
    ensures { result ≡ ids }
{
    match ids {
        Some(ids) => Some(Children::from_vec(ids.into_vec())),
        None => None,
    }
}
