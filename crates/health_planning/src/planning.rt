//! All valves of a configuration, and what feeds each of them.

ghost use Rattle.std.specs.Prelude.{◌≡◌, ◌≤◌, ◌<◌, ◌+◌, ◌*◌, ◌⊎◌, [], ℕ, List, length};
ghost use Rattle.health_valves.specs.Valves.{Feeds};
ghost use Rattle.health_valves.specs.Blueprint.{IsDrawn, net_in};
ghost use Rattle.health_valves.specs.Walk.{PathsEnd};
ghost use Rattle.health_planning.specs.Building.{AllListed, AreAsked, AreFree, AreGiven, AreNoted};
ghost use Rattle.health_planning.specs.Building.{AreSeen, AreTriggered, IsBuilt, IsSmallAt, TellSlot};
ghost use Rattle.health_planning.specs.Building.{TellsOn};
ghost use Rattle.health_planning.specs.Rooms.{HasBlueprintRoom};
ghost use Rattle.health_planning.specs.Wired.{HaveValves, ids_of, watched_of};
ghost use Rattle.health_model.specs.Sound.{IsSound};
ghost use Rattle.health_model.specs.Statuses.{Report};

use crate::building::{add_spares, join_checks, put_checks};
use crate::grouping::group_all;
use crate::joining::join_sets;
use crate::listing::{list_asked, list_targets};
use crate::seats::Seat;
use checker_state::Checkers;
use health_check::CheckTable;
use health_model::paths_end;
use health_valves::Blueprint;
use policy_select::{SetRef, Zones};

/// Plans all valves and what feeds them, one kind after another. The sets of the groups with valves
/// are noted in place of those that were known.
fn plan_all(
    zones: &Zones,
    checks: &CheckTable,
    ids: &[u32],
    numbers: &[u32],
    seen: &[Option<Checkers>],
    whole: bool,
    known: &mut Vec<SetRef>,
    came: &[SetRef],
    refs: &mut Vec<SetRef>,
    seats: &mut Vec<Seat>,
    blueprint: &mut Blueprint,
)
    requires sound { IsSound (watched_of zones.now.zones checks.now.checks) }
    requires ids { ids.now ≡ ids_of checks.now.checks.list }
    requires valves { HaveValves (length checks.now.checks.list) numbers.now }
    requires as_many { length seen.now ≡ length checks.now.checks.list }
    requires no_refs { refs.old.items ≡ [] }
    requires no_seats { AreFree zones.now.slots seats.old.items }
    requires no_valves { blueprint.old.triggers ≡ [] }
    requires no_links { blueprint.old.links ≡ [] }
    requires room { HasBlueprintRoom blueprint.old refs.old known.old zones.now.slots }
    ensures built { IsBuilt zones.now.zones checks.now.checks.list numbers.now refs.new.items
        seats.new.items blueprint.new.triggers blueprint.new.links }
    ensures all { AreAsked zones.now.zones whole known.old.items came.now
        → AllListed zones.now.zones refs.new.items }
    ensures rest { (slot : ℕ) → TellSlot refs.new.items slot
        ⊎ TellsOn seats.old.items seats.new.items slot }
    ensures given { AreGiven refs.new.items known.new.items seats.new.items }
    ensures noted { AreNoted known.new.items seats.new.items }
    ensures checks { (reports : List Report)
        → AreSeen reports checks.now.checks.list seen.now
        → AreTriggered reports checks.now.checks.list numbers.now blueprint.new.triggers }
    ensures small { (valve : ℕ) → valve < 200
        → IsSmallAt blueprint.new.triggers valve }
    ensures few_valves { length blueprint.new.triggers ≤ zones.now.slots * 2 + 200 }
    ensures few_links { length blueprint.new.links ≤ zones.now.slots * 3 + 51200 }
    ensures links_by_refs { length blueprint.new.links ≤ length refs.new.items * 3 + 51200 }
{
    zones.well_formed();
    zones.slots_apart();
    let list = checks.as_slice();
    add_spares(blueprint);
    put_checks(blueprint, list, numbers, seen);
    join_checks(blueprint, ids, numbers, list);
    list_asked(zones, whole, known, came, refs, seats, blueprint);
    list_targets(zones, refs, seats, blueprint);
    known.clear();
    group_all(zones, refs, seats, blueprint, known);
    join_sets(zones, refs, ids, numbers, seats, blueprint);
}

/// Plans the valves of a configuration, where none are planned, by what the checkers of its checks
/// saw. All sets are asked whether they are evaluated aliases, or the ones that are known and the
/// ones that came, and the sets of target groups whether something decides them. In the end the sets of the groups with valves stand in place of the known ones. It takes
/// no memory.
pub fn plan_valves(
    zones: &Zones,
    checks: &CheckTable,
    ids: &[u32],
    numbers: &[u32],
    seen: &[Option<Checkers>],
    whole: bool,
    known: &mut Vec<SetRef>,
    came: &[SetRef],
    refs: &mut Vec<SetRef>,
    seats: &mut Vec<Seat>,
    blueprint: &mut Blueprint,
)
    requires sound { IsSound (watched_of zones.now.zones checks.now.checks) }
    requires ids { ids.now ≡ ids_of checks.now.checks.list }
    requires valves { HaveValves (length checks.now.checks.list) numbers.now }
    requires as_many { length seen.now ≡ length checks.now.checks.list }
    requires no_refs { refs.old.items ≡ [] }
    requires no_seats { AreFree zones.now.slots seats.old.items }
    requires no_valves { blueprint.old.triggers ≡ [] }
    requires no_links { blueprint.old.links ≡ [] }
    requires room { HasBlueprintRoom blueprint.old refs.old known.old zones.now.slots }
    ensures built { IsBuilt zones.now.zones checks.now.checks.list numbers.now refs.new.items
        seats.new.items blueprint.new.triggers blueprint.new.links }
    ensures all { AreAsked zones.now.zones whole known.old.items came.now
        → AllListed zones.now.zones refs.new.items }
    ensures rest { (slot : ℕ) → TellSlot refs.new.items slot
        ⊎ TellsOn seats.old.items seats.new.items slot }
    ensures given { AreGiven refs.new.items known.new.items seats.new.items }
    ensures noted { AreNoted known.new.items seats.new.items }
    ensures checks { (reports : List Report)
        → AreSeen reports checks.now.checks.list seen.now
        → AreTriggered reports checks.now.checks.list numbers.now blueprint.new.triggers }
    ensures planned { IsDrawn blueprint.new }
    ensures ends { PathsEnd (Feeds (net_in blueprint.new)) 64 }
    ensures few_valves { length blueprint.new.triggers ≤ zones.now.slots * 2 + 200 }
    ensures few_links { length blueprint.new.links ≤ zones.now.slots * 3 + 51200 }
    ensures links_by_refs { length blueprint.new.links ≤ length refs.new.items * 3 + 51200 }
{
    zones.well_formed();
    zones.slots_apart();
    paths_end();
    let list = checks.as_slice();
    plan_all(
        zones, checks, ids, numbers, seen, whole, known, came, refs, seats, blueprint,
    );
}
