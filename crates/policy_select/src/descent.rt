//! From a group to the sets that answer, through aliases.

ghost use Rattle.std.specs.Prelude.{◌≡◌, ◌<◌, ◌≤◌, ◌+◌, ℕ, Bool, IfSome, IsTrue, Some, length};
ghost use Rattle.std.specs.Prelude.{get_or, slice_get};
ghost use Rattle.std.specs.Option.{option_map};
ghost use Rattle.answer_model.specs.Clients.{Client, client_with};
ghost use Rattle.answer_model.specs.Descent.{descend as descended, descends, group_uses, word_of};
ghost use Rattle.answer_model.specs.declared.used.Used.{Used};
ghost use Rattle.zone_table.specs.Reasons.{IsAlias};
ghost use Rattle.zone_table.specs.RecordSetRecord.{RecordSet};
ghost use Rattle.routing.specs.declared.policies.Routing.TheVariants as policy;
ghost use Rattle.dns_name.specs.Labels.{wire};
ghost use Rattle.zone_table.specs.Octets.{HasSpelling};
ghost use Rattle.zone_table.specs.Bodies.{alias_of, values_of};
ghost use Rattle.zone_table.specs.Holding.{IsHolding};
ghost use Rattle.zone_table.specs.SetRefRecord.{SetRef};
ghost use Rattle.zone_table.specs.Sets.{IsAmong};
ghost use Rattle.zone_table.specs.Looking.{IsGroupNow};
ghost use Rattle.policy_select.specs.Groups.{FewInGroups, sets_in, sets_in_zone};
ghost use Rattle.policy_select.specs.Members.{PoliciesAreAt};
ghost use Rattle.policy_select.specs.Seen.{IsSeen};
ghost use Rattle.policy_select.specs.Selecting.{AnswersAlone, AreOfGroup, EndsWithFirst, GivesDescent};
ghost use Rattle.policy_select.specs.Selecting.{HoldsFirst};
ghost use Rattle.policy_select.specs.Selecting.{HoldsFront, IsInZone};
ghost use Rattle.policy_select.specs.Selecting.{LeadsTo, TargetOf, choice_of};

use crate::client::Seen;
use crate::group::{load_member, policy_place};
use crate::parts::is_simple_in;
use crate::rules::rule_of;
use crate::selection::{Selected, choose, one};
use crate::view::HealthView;
use address_text::IpAddress;
use answer_model::{Tables, Used, chosen_are_of_group};
use dns_name::Name;
use multivalue::Picked;
use zone_table::{Group, Scratch, Zones};

/// The most choices from group to group.
const MOST: u8 = 17;

/// Of a group of up to so many sets, as one of failover is, the first one is loaded before the choice,
/// since mostly it is chosen.
const HELD_FIRST: usize = 2;

/// Chooses from a group, and where an alias is chosen from its target's group, and so on, 17 times
/// at most.
///
/// Each choice is made by the next of the query's eight words, of which `choices` were used before.
/// What it used is added to `used`. The scratch holds the first selected set then, if any.
pub fn descend<V: HealthView>(
    zones: &Zones,
    group: Group,
    view: &V,
    tables: &Tables,
    client: IpAddress,
    words: &[u64; 8],
    choices: &mut u8,
    used: &mut Used,
    scratch: &mut Scratch,
) -> Selected
    requires group { IsGroupNow zones.now.zones group }
    requires few { FewInGroups (sets_in_zone zones.now.zones group.zone) }
    requires room { choices.old ≤ 238 }
    ensures gives { GivesDescent zones.now.zones (V.test view.now)
        (client_with tables.now zones.now.collections.list client) words.now group descended
        (record { count = choices.old; used = used.old }) result choices.new used.new }
    ensures places { AreOfGroup zones.now.zones result }
    ensures held { HoldsFirst zones.now.zones result scratch.new }
    ensures most { choices.new ≤ choices.old + 17 }
{
    let mut seen = Seen {
        places: None,
        latencies: None,
    };
    descend_seen(
        zones, group, view, tables, client, words, choices, used, &mut seen, scratch,
    )
}

/// The same, which tells what it saw of the client in the tables.
pub fn descend_seen<V: HealthView>(
    zones: &Zones,
    group: Group,
    view: &V,
    tables: &Tables,
    client: IpAddress,
    words: &[u64; 8],
    choices: &mut u8,
    used: &mut Used,
    seen: &mut Seen,
    scratch: &mut Scratch,
) -> Selected
    requires group { IsGroupNow zones.now.zones group }
    requires few { FewInGroups (sets_in_zone zones.now.zones group.zone) }
    requires room { choices.old ≤ 238 }
    requires seen { IsSeen tables.now client seen.old }
    ensures gives { GivesDescent zones.now.zones (V.test view.now)
        (client_with tables.now zones.now.collections.list client) words.now group descended
        (record { count = choices.old; used = used.old }) result choices.new used.new }
    ensures places { AreOfGroup zones.now.zones result }
    ensures held { HoldsFirst zones.now.zones result scratch.new }
    ensures most { choices.new ≤ choices.old + 17 }

    // What was seen before stays, or was looked up again.
    ensures seen { IsSeen tables.now client seen.new }
{
    descend_from(
        MOST, zones, group, view, tables, client, words, choices, used, seen, scratch,
    )
}

/// The same from a group whose first set is held.
pub fn descend_held<V: HealthView>(
    zones: &Zones,
    group: Group,
    view: &V,
    tables: &Tables,
    client: IpAddress,
    words: &[u64; 8],
    choices: &mut u8,
    used: &mut Used,
    seen: &mut Seen,
    scratch: &mut Scratch,
) -> Selected
    requires group { IsGroupNow zones.now.zones group }
    requires some { 0 < group.length }
    requires few { FewInGroups (sets_in_zone zones.now.zones group.zone) }
    requires room { choices.old ≤ 238 }
    requires first { (set : RecordSet)
        × (slice_get (sets_in zones.now.zones group) 0 ≡ Some set)
        × (scratch.old ≡ Some set) × HasSpelling set }
    requires seen { IsSeen tables.now client seen.old }
    ensures gives { GivesDescent zones.now.zones (V.test view.now)
        (client_with tables.now zones.now.collections.list client) words.now group descended
        (record { count = choices.old; used = used.old }) result choices.new used.new }
    ensures places { AreOfGroup zones.now.zones result }
    ensures held { HoldsFirst zones.now.zones result scratch.new }
    ensures most { choices.new ≤ choices.old + 17 }
    ensures seen { IsSeen tables.now client seen.new }
{
    let at = policy_place(scratch);
    descend_on(
        MOST, zones, group, at, true, view, tables, client, words, choices, used, seen, scratch,
    )
}

/// The same from a group of sets of this name. Of one set or two the first one is held.
///
/// Of more sets mostly another one than the first is chosen, which then is the only one that is loaded:
/// the name tells where their policies stand, and so the first set tells its own where it is.
pub fn descend_named<V: HealthView>(
    zones: &Zones,
    group: Group,
    name: &Name,
    view: &V,
    tables: &Tables,
    client: IpAddress,
    words: &[u64; 8],
    choices: &mut u8,
    used: &mut Used,
    seen: &mut Seen,
    scratch: &mut Scratch,
) -> Selected
    requires group { IsGroupNow zones.now.zones group }
    requires some { 0 < group.length }
    requires named { (set : RecordSet) → IsAmong (sets_in zones.now.zones group) set
        → set.name ≡ name.now }
    requires few { FewInGroups (sets_in_zone zones.now.zones group.zone) }
    requires room { choices.old ≤ 238 }
    requires held { group.length ≤ 2 → scratch.old ≡ slice_get (sets_in zones.now.zones group) 0 }
    requires seen { IsSeen tables.now client seen.old }
    ensures gives { GivesDescent zones.now.zones (V.test view.now)
        (client_with tables.now zones.now.collections.list client) words.now group descended
        (record { count = choices.old; used = used.old }) result choices.new used.new }
    ensures places { AreOfGroup zones.now.zones result }
    ensures held { HoldsFirst zones.now.zones result scratch.new }
    ensures most { choices.new ≤ choices.old + 17 }
    ensures seen { IsSeen tables.now client seen.new }
{
    let at = place_behind(name);
    let held = is_held_first(group);
    descend_on(
        MOST, zones, group, at, held, view, tables, client, words, choices, used, seen, scratch,
    )
}

/// Whether the first set of a group of one set or two answers alone: it is simple and has values. Then it is
/// chosen by whatever word, and nothing is chosen behind it. It is held then, and of such a group in any case;
/// false for larger groups, as no group of a simple set is.
#[inline(always)]
pub fn first_answers(zones: &Zones, group: Group, scratch: &mut Scratch) -> bool
    requires group { IsGroupNow zones.now.zones group }
    requires some { 0 < group.length }
    ensures held { group.length ≤ 2 → scratch.new ≡ slice_get (sets_in zones.now.zones group) 0 }
    ensures first { IsTrue result → (set : RecordSet)
        × (slice_get (sets_in zones.now.zones group) 0 ≡ Some set)
        × (scratch.new ≡ Some set) × HasSpelling set }
    ensures alone { IsTrue result → EndsWithFirst zones.now.zones group }

    // Of one set or two, a first one that is simple and has values is always told.
    ensures sure { group.length ≤ 2 → (set : RecordSet)
        → slice_get (sets_in zones.now.zones group) 0 ≡ Some set → AnswersAlone set → IsTrue result }
{
    if group.length > HELD_FIRST {
        return false;
    }
    load_member(zones, group, 0, scratch);
    answers_alone(scratch)
}

/// The same with so many choices at most.
#[cycle(descend_from)]
fn descend_from<V: HealthView>(
    most: u8,
    zones: &Zones,
    group: Group,
    view: &V,
    tables: &Tables,
    client: IpAddress,
    words: &[u64; 8],
    choices: &mut u8,
    used: &mut Used,
    seen: &mut Seen,
    scratch: &mut Scratch,
) -> Selected
    requires group { IsGroupNow zones.now.zones group }
    requires few { FewInGroups (sets_in_zone zones.now.zones group.zone) }
    requires room { choices.old + most ≤ 255 }
    requires seen { IsSeen tables.now client seen.old }
    ensures gives { GivesDescent zones.now.zones (V.test view.now)
        (client_with tables.now zones.now.collections.list client) words.now group (descends most)
        (record { count = choices.old; used = used.old }) result choices.new used.new }
    ensures places { AreOfGroup zones.now.zones result }
    ensures held { HoldsFirst zones.now.zones result scratch.new }
    ensures most { choices.new ≤ choices.old + most }
    ensures seen { IsSeen tables.now client seen.new }
{
    if most == 0 {
        return Selected::Nothing;
    }
    if group.length == 0 {
        return Selected::Nothing;
    }
    load_member(zones, group, 0, scratch);
    if answers_alone(scratch) {
        *choices += 1;
        return choose_simple(zones, group, scratch);
    }
    let at = policy_place(scratch);
    descend_on(
        most, zones, group, at, true, view, tables, client, words, choices, used, seen, scratch,
    )
}

/// The same from a group whose policies stand at this place; it is told whether the first set is held.
// Apart, so that a group whose first set answers alone passes by what it doesn't need.
#[cycle(descend_from)]
#[inline(never)]
fn descend_on<V: HealthView>(
    most: u8,
    zones: &Zones,
    group: Group,
    at: usize,
    held: bool,
    view: &V,
    tables: &Tables,
    client: IpAddress,
    words: &[u64; 8],
    choices: &mut u8,
    used: &mut Used,
    seen: &mut Seen,
    scratch: &mut Scratch,
) -> Selected
    requires many { 0 < most }
    requires group { IsGroupNow zones.now.zones group }
    requires some { 0 < group.length }
    requires few { FewInGroups (sets_in_zone zones.now.zones group.zone) }
    requires room { choices.old + most ≤ 255 }
    requires at { PoliciesAreAt (sets_in zones.now.zones group) at }
    requires held { IsTrue held → scratch.old ≡ slice_get (sets_in zones.now.zones group) 0 }
    requires seen { IsSeen tables.now client seen.old }
    ensures gives { GivesDescent zones.now.zones (V.test view.now)
        (client_with tables.now zones.now.collections.list client) words.now group (descends most)
        (record { count = choices.old; used = used.old }) result choices.new used.new }
    ensures places { AreOfGroup zones.now.zones result }
    ensures held { HoldsFirst zones.now.zones result scratch.new }
    ensures most { choices.new ≤ choices.old + most }
    ensures seen { IsSeen tables.now client seen.new }
{
    let selected = choose_next(
        zones, group, at, held, view, tables, client, words, choices, used, seen, scratch,
    );
    match lead(zones, group.zone, &selected, scratch) {
        None => selected,
        Some(target) => descend_from(
            most - 1,
            zones,
            target,
            view,
            tables,
            client,
            words,
            choices,
            used,
            seen,
            scratch,
        ),
    }
}

/// Makes one choice more from a group whose policies stand at this place. The scratch holds the first
/// selected set then.
#[inline(always)]
fn choose_next<V: HealthView>(
    zones: &Zones,
    group: Group,
    at: usize,
    held: bool,
    view: &V,
    tables: &Tables,
    client: IpAddress,
    words: &[u64; 8],
    choices: &mut u8,
    used: &mut Used,
    seen: &mut Seen,
    scratch: &mut Scratch,
) -> Selected
    requires group { IsGroupNow zones.now.zones group }
    requires some { 0 < group.length }
    requires few { FewInGroups (sets_in_zone zones.now.zones group.zone) }
    requires room { choices.old < 255 }
    requires at { PoliciesAreAt (sets_in zones.now.zones group) at }
    requires held { IsTrue held → scratch.old ≡ slice_get (sets_in zones.now.zones group) 0 }
    requires seen { IsSeen tables.now client seen.old }
    ensures selected { result
        ≡ choice_of zones.now.zones (V.test view.now)
        (client_with tables.now zones.now.collections.list client) group
        (word_of words.now choices.old) }
    ensures choices { choices.new ≡ choices.old + 1 }
    ensures used { used.new
        ≡ group_uses (client_with tables.now zones.now.collections.list client)
        (sets_in zones.now.zones group) used.old }
    ensures places { AreOfGroup zones.now.zones result }
    ensures zone { IsInZone group.zone result }
    ensures some { 0 < length (sets_in zones.now.zones group) }
    ensures seen { IsSeen tables.now client seen.new }
    ensures held { HoldsFirst zones.now.zones result scratch.new }
{
    known_few(zones, group);
    chosen_are_of_group();
    let word = words[usize::from(*choices % 8)];
    *choices += 1;
    choose_at(
        zones, group, at, held, view, tables, client, word, used, seen, scratch,
    )
}

/// Whether the set that is held is simple and has values, so that it answers for its group, and
/// nothing is chosen behind it. Its policy isn't copied.
fn answers_alone(scratch: &Scratch) -> bool
    requires { IsHolding scratch.now }
    ensures alone { IfSome scratch.now (λ set. IsTrue result
        → (set.routing ≡ policy.Simple) × (IsAlias set.body → ⊥)) }
    ensures sure { IfSome scratch.now (λ set. AnswersAlone set → IsTrue result) }
{
    is_simple_in(scratch.policy()) && has_values(scratch)
}

/// Chooses the first set of a group, which is held, is simple and is no alias.
fn choose_simple(zones: &Zones, group: Group, scratch: &Scratch) -> Selected
    requires group { IsGroupNow zones.now.zones group }
    requires some { 0 < group.length }
    requires first { (set : RecordSet)
        × (slice_get (sets_in zones.now.zones group) 0 ≡ Some set)
        × (set.routing ≡ policy.Simple) × (scratch.now ≡ Some set)
        × (IsAlias set.body → ⊥) }
    ensures selected { (test : SetRef → Bool) (client : Client) (word : ℕ)
        → result ≡ choice_of zones.now.zones test client group word }
    ensures used { (client : Client) (used : Used)
        → used ≡ group_uses client (sets_in zones.now.zones group) used }
    ensures some { 0 < length (sets_in zones.now.zones group) }
    ensures last { LeadsTo zones.now.zones group.zone result None }
    ensures places { AreOfGroup zones.now.zones result }
    ensures held { HoldsFirst zones.now.zones result scratch.now }
{
    one(group, 0)
}

/// Chooses by the policy of the first set of a group, which is read where it stands. The scratch holds
/// the first selected set then.
#[inline(always)]
fn choose_at<V: HealthView>(
    zones: &Zones,
    group: Group,
    at: usize,
    held: bool,
    view: &V,
    tables: &Tables,
    client: IpAddress,
    word: u64,
    used: &mut Used,
    seen: &mut Seen,
    scratch: &mut Scratch,
) -> Selected
    requires group { IsGroupNow zones.now.zones group }
    requires some { 0 < group.length }
    requires few { group.length ≤ 100 }
    requires at { PoliciesAreAt (sets_in zones.now.zones group) at }
    requires held { IsTrue held → scratch.old ≡ slice_get (sets_in zones.now.zones group) 0 }
    requires seen { IsSeen tables.now client seen.old }
    ensures selected { result
        ≡ choice_of zones.now.zones (V.test view.now)
        (client_with tables.now zones.now.collections.list client) group word }
    ensures used { used.new
        ≡ group_uses (client_with tables.now zones.now.collections.list client)
        (sets_in zones.now.zones group) used.old }
    ensures places { AreOfGroup zones.now.zones result }
    ensures held { HoldsFirst zones.now.zones result scratch.new }
    ensures seen { IsSeen tables.now client seen.new }
{
    chosen_are_of_group();
    let rule = rule_of(zones, group, at, held, scratch);
    let selected = choose(
        &rule, zones, group, view, tables, client, word, at, held, used, seen, scratch,
    );
    load_first(zones, &selected, held, scratch);
    selected
}

/// Loads the first selected set. It is told whether the first one of its group is held before.
fn load_first(zones: &Zones, selected: &Selected, held: bool, scratch: &mut Scratch)
    requires there { AreOfGroup zones.now.zones selected.now }
    requires front { IsTrue held → HoldsFront zones.now.zones selected.now scratch.old }
    ensures { HoldsFirst zones.now.zones selected.now scratch.new }
{
    let Selected::Sets(group, picked) = selected else {
        return;
    };
    if is_front_held(held, picked) {
        return;
    }
    load_member(zones, *group, picked.places[0], scratch);
}

/// Whether the first of these places is the front of a group, and the set there is held, which is told.
fn is_front_held(held: bool, picked: &Picked) -> bool
    ensures held { IsTrue result → IsTrue held }
    ensures front { IsTrue result → get_or picked.now.places 0 0 ≡ 0 }
{
    held && picked.places[0] == 0
}

/// Whether a group has one set or two, so that the first one is held before a choice.
fn is_held_first(group: Group) -> bool
    ensures { IsTrue result → group.length ≤ 2 }
{
    group.length <= HELD_FIRST
}

/// The place at which the policies of sets of this name stand: two octets behind it.
fn place_behind(name: &Name) -> usize
    ensures { result ≡ length (wire name.now) + 2 }
{
    name.octets().len() + 2
}

/// A group of a zone whose groups are few has few sets; it does nothing.
fn known_few(zones: &Zones, group: Group)
    requires group { IsGroupNow zones.now.zones group }
    requires few { FewInGroups (sets_in_zone zones.now.zones group.zone) }
    ensures few { group.length ≤ 100 }
    ensures all { length (sets_in zones.now.zones group) ≡ group.length }
{}

/// The target group of the first selected set, which is held, where it is an alias.
fn lead(zones: &Zones, zone: u32, selected: &Selected, scratch: &Scratch) -> Option<Group>
    requires held { HoldsFirst zones.now.zones selected.now scratch.now }
    ensures { LeadsTo zones.now.zones zone selected.now result }
{
    match selected {
        Selected::Nothing => None,
        Selected::Sets(_, _) => target_of(zones, zone, scratch),
    }
}

/// The target group of the set that is held, where it is an alias.
fn target_of(zones: &Zones, zone: u32, scratch: &Scratch) -> Option<Group>
    requires held { IsHolding scratch.now }
    ensures { IfSome scratch.now (λ set. TargetOf zones.now.zones zone set result) }
{
    if has_values(scratch) {
        return None;
    }
    match target_name(scratch) {
        None => None,
        Some(target) => Some(zones.group(zone, &target, scratch.rtype())),
    }
}

/// Whether the set that is held has values, as no alias has. Its name isn't read then.
fn has_values(scratch: &Scratch) -> bool
    requires { IsHolding scratch.now }
    ensures alias { IfSome scratch.now (λ set. IsTrue result → IsAlias set.body → ⊥) }
    ensures values { IfSome scratch.now (λ set. 0 < length (values_of set.body) → IsTrue result) }
{
    scratch.values() > 0
}

/// The name of the target of the set that is held, where it is an alias.
fn target_name(scratch: &Scratch) -> Option<Name>
    requires { IsHolding scratch.now }
    ensures { IfSome scratch.now (λ set. result ≡ option_map (λ told. told.0) (alias_of set.body)) }
{
    match scratch.alias() {
        None => None,
        Some((target, _)) => Some(target),
    }
}
