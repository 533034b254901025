//! The first refusal of a command on health checks (API Reference, CreateHealthCheck,
//! UpdateHealthCheck and DeleteHealthCheck).

ghost use Rattle.std.specs.Prelude.{◌≡◌, ◌∷◌, [], option_map};
ghost use Rattle.check_model.specs.Commands.{refusal_of};
ghost use Rattle.config_zones.specs.Edited.{hosted_in};
ghost use Rattle.config_zones.specs.Others.{in_use};
ghost use Rattle.config_zones.specs.Telling.{first_of, of_check, unless};
ghost use Rattle.check_commands.specs.Uses.{KnowsUses};

use crate::naming::is_check_named;
use crate::uses::CheckUses;
use config_zones::{Refusal, Zones, of_check};
use health_check::{CheckCommand, CheckTable};

/// The first refusal of a command on health checks: that of the table, or where a check is deleted
/// that a set names. It takes no memory.
///
/// Where a check is deleted it asks how many sets name it, and looks at no set; where this isn't
/// known it goes through the sets of all zones.
pub fn judge_checks(
    zones: &Zones,
    checks: &CheckTable,
    uses: &CheckUses,
    command: &CheckCommand,
) -> Result<(), Refusal>
    requires known { KnowsUses uses.now zones.now.zones }
    ensures { result ≡ unless (first_of (
        option_map of_check (refusal_of checks.now.checks command.now)
        ∷ in_use (hosted_in zones.now.zones) command.now
        ∷ [])) tt }
{
    match checks.judge(command) {
        Ok(()) => judge_use(zones, uses, command),
        Err(why) => Err(of_check(why)),
    }
}

/// Refuses the end of a check that a set names.
fn judge_use(zones: &Zones, uses: &CheckUses, command: &CheckCommand) -> Result<(), Refusal>
    requires known { KnowsUses uses.now zones.now.zones }
    ensures { result ≡ unless (in_use (hosted_in zones.now.zones) command.now) tt }
{
    let CheckCommand::Delete(id) = command else {
        return Ok(());
    };
    if is_check_named(zones, uses, *id) {
        return Err(Refusal::HealthCheckInUse(*id));
    }
    Ok(())
}
