//! The choice from one group, by the policy of its first set.

ghost use Rattle.std.specs.Prelude.{◌≡◌, ◌<◌, ◌≤◌, ◌∷◌, [], ℕ, IsTrue, List, Some};
ghost use Rattle.std.specs.Prelude.{option_to_list, slice_get};
ghost use Rattle.answer_model.specs.Clients.{client_with};
ghost use Rattle.answer_model.specs.Descent.{group_uses};
ghost use Rattle.multivalue.specs.Answer.{picked};
ghost use Rattle.zone_table.specs.RecordSetRecord.{RecordSet};
ghost use Rattle.zone_table.specs.Looking.{IsGroupNow};
ghost use Rattle.policy_select.specs.Groups.{sets_in};
ghost use Rattle.policy_select.specs.Members.{PoliciesAreAt};
ghost use Rattle.policy_select.specs.Rules.{IsOf};
ghost use Rattle.policy_select.specs.Seen.{IsSeen};
ghost use Rattle.policy_select.specs.Selecting.{choice_of, selected_of};

use crate::client::{Seen, block_of};
use crate::group::{load_member, policy_place};
use crate::leaves::{
    choose_block, choose_failover, choose_place, choose_region, choose_several, choose_weighted,
};
use crate::rules::{Rule, block_held, region_of_first, rule_held};
use crate::view::HealthView;
use address_text::IpAddress;
use answer_model::{Tables, Used};
use multivalue::Picked;
use zone_table::{Group, Scratch, Zones};

/// What is chosen of a group.
#[derive(Clone, Copy, Debug, PartialEq, Eq)]
pub enum Selected {
    /// No set applies to the client.
    Nothing,
    /// The sets at these places of the group, in the order of the choice.
    Sets(Group, Picked),
}

/// Chooses from a group of 1 to 100 sets by its policy.
pub fn select<V: HealthView>(
    zones: &Zones,
    group: Group,
    view: &V,
    tables: &Tables,
    client: IpAddress,
    word: u64,
    scratch: &mut Scratch,
) -> Selected
    requires group { IsGroupNow zones.now.zones group }
    requires some { 0 < group.length }
    requires few { group.length ≤ 100 }
    ensures { result
        ≡ choice_of zones.now.zones (V.test view.now)
        (client_with tables.now zones.now.collections.list client) group word }
{
    let mut used = Used {
        places: false,
        latencies: false,
        blocks: 0,
    };
    let mut seen = Seen {
        places: None,
        latencies: None,
    };
    load_member(zones, group, 0, scratch);
    let rule = rule_held(scratch);
    let at = policy_place(scratch);
    choose(
        &rule, zones, group, view, tables, client, word, at, true, &mut used, &mut seen, scratch,
    )
}

/// Chooses from a group by the policy of its first set, and notes what the choice used, and what it
/// saw in the tables. Where the scratch holds the first set before, which is told, it does so after.
#[inline(always)]
pub(crate) fn choose<V: HealthView>(
    rule: &Rule,
    zones: &Zones,
    group: Group,
    view: &V,
    tables: &Tables,
    client: IpAddress,
    word: u64,
    at: usize,
    held: bool,
    used: &mut Used,
    seen: &mut Seen,
    scratch: &mut Scratch,
) -> Selected
    requires group { IsGroupNow zones.now.zones group }
    requires some { 0 < group.length }
    requires few { group.length ≤ 100 }
    requires seen { IsSeen tables.now client seen.old }
    requires at { PoliciesAreAt (sets_in zones.now.zones group) at }
    requires first { (set : RecordSet)
        × (slice_get (sets_in zones.now.zones group) 0 ≡ Some set)
        × IsOf rule.now set.routing }
    requires held { IsTrue held → scratch.old ≡ slice_get (sets_in zones.now.zones group) 0 }
    ensures selected { result
        ≡ choice_of zones.now.zones (V.test view.now)
        (client_with tables.now zones.now.collections.list client) group word }
    ensures used { used.new
        ≡ group_uses (client_with tables.now zones.now.collections.list client)
        (sets_in zones.now.zones group) used.old }
    ensures seen { IsSeen tables.now client seen.new }
    ensures held { IsTrue held → scratch.new ≡ slice_get (sets_in zones.now.zones group) 0 }
{
    match rule {
        Rule::Simple => one(group, 0),
        Rule::Weighted(weight) => {
            one(
                group,
                choose_weighted(zones, group, view, *weight, word, at),
            )
        }
        Rule::Failover(role) => { one(group, choose_failover(zones, group, view, *role, at)) }
        Rule::Geolocation(place) => {
            used.places = true;
            let (set, scope) = choose_place(zones, group, view, place, tables, client, at);
            seen.places = Some(scope);
            one_or_none(group, set)
        }
        Rule::Latency => {
            used.latencies = true;
            let region = region_of_first(zones, group, at);
            let (set, scope) = choose_region(zones, group, view, &region, tables, client, at);
            seen.latencies = Some(scope);
            one(group, set)
        }
        Rule::Multivalue => several(group, choose_several(zones, group, view, word)),
        Rule::Cidr => {
            hold_first(zones, group, held, scratch);
            let (id, location) = block_held(scratch);
            let (block, scope) = block_of(zones.collections(), id, client);
            used.blocks = used.blocks.max(scope);
            let set = choose_block(zones, group, view, &location, block, scratch);
            hold_again(zones, group, held, scratch);
            one_or_none(group, set)
        }
    }
}

/// Holds the first set of a group, where it isn't held yet, which is told.
fn hold_first(zones: &Zones, group: Group, held: bool, scratch: &mut Scratch)
    requires group { IsGroupNow zones.now.zones group }
    requires some { 0 < group.length }
    requires held { IsTrue held → scratch.old ≡ slice_get (sets_in zones.now.zones group) 0 }
    ensures { scratch.new ≡ slice_get (sets_in zones.now.zones group) 0 }
{
    if held {
        return;
    }
    load_member(zones, group, 0, scratch);
}

/// Holds the first set of a group again behind a choice, where it was held before, which is told.
fn hold_again(zones: &Zones, group: Group, held: bool, scratch: &mut Scratch)
    requires group { IsGroupNow zones.now.zones group }
    requires some { 0 < group.length }
    ensures { IsTrue held → scratch.new ≡ slice_get (sets_in zones.now.zones group) 0 }
{
    if held {
        load_member(zones, group, 0, scratch);
    }
}

/// One set of a group.
pub(crate) fn one(group: Group, place: usize) -> Selected
    ensures { result ≡ selected_of group (place ∷ []) }
{
    let places = [place, 0, 0, 0, 0, 0, 0, 0];
    Selected::Sets(group, Picked { places, count: 1 })
}

/// One set of a group, or none.
fn one_or_none(group: Group, place: Option<usize>) -> Selected
    ensures { result ≡ selected_of group (option_to_list place) }
{
    match place {
        Some(place) => one(group, place),
        None => Selected::Nothing,
    }
}

/// Several sets of a group, or none.
fn several(group: Group, sets: Picked) -> Selected
    ensures { (places : List ℕ) → sets ≡ picked places → result ≡ selected_of group places }
{
    if sets.count == 0 {
        return Selected::Nothing;
    }
    Selected::Sets(group, sets)
}
