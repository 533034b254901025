//! What a command that is ready makes.

ghost use Rattle.std.specs.Prelude.{◌≡◌, ◌<◌};
ghost use Rattle.zone_commands.specs.Configured.{config_of};
ghost use Rattle.health_check.specs.Stored.{HasRoom};
ghost use Rattle.r53_state.specs.Steps.{CanApply, checks_of, BeginsZone, made_of, next_after};

use check_commands::Made;
use cidr_routing::CidrCommand;
use health_check::{CheckCommand, CheckTable};
use zone_commands::{Command, Zones};

/// What a command makes of a configuration, by its number.
pub fn made_by(zones: &Zones, checks: &CheckTable, next: u32, command: &Command) -> Made
    ensures { result ≡ made_of (config_of zones.now checks.now.checks next) command.now }
{
    match command {
        Command::CreateZone { .. } => Made::Zone(next),
        Command::DeleteZone(_) | Command::Change(_) => Made::Nothing,
        Command::Health(CheckCommand::Create(_)) => Made::Check(checks.next_number()),
        Command::Health(_) => Made::Nothing,
        Command::Cidr(CidrCommand::Create(_)) => {
            Made::Collection(zones.collections().next_number())
        }
        Command::Cidr(_) => Made::Nothing,
    }
}

/// The number that the next zone gets after a command.
pub fn next_after(next: u32, command: &Command) -> u32
    requires { BeginsZone command.now → next < 4294967295 }
    ensures { result ≡ next_after next command.now }
{
    match command {
        Command::CreateZone { .. } => next + 1,
        Command::DeleteZone(_) | Command::Change(_) | Command::Health(_) | Command::Cidr(_) => next,
    }
}

/// Makes a command on health checks. It takes no memory.
pub fn apply(checks: &mut CheckTable, command: Command)
    requires accepted { CanApply checks.old.checks command }
    requires room { HasRoom checks.old 1 }
    ensures { checks.new.checks ≡ checks_of checks.old.checks command }
{
    match command {
        Command::Health(health) => {
            checks.apply(health);
        }
        Command::CreateZone { .. }
        | Command::DeleteZone(_)
        | Command::Change(_)
        | Command::Cidr(_) => {}
    }
}
