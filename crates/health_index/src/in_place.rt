//! Commands by which valves change in place: those of sets and groups where little went and came, and those of checks.

ghost use Rattle.std.specs.Prelude.{◌≡◌, ◌≢◌, ◌≤◌, ◌<◌, ◌+◌, ℕ, List, false, true};
ghost use Rattle.std.specs.Prelude.{length};
ghost use Rattle.check_model.specs.Checks.{Checks};
ghost use Rattle.check_model.specs.Checks.{IsSound as AreSoundChecks};
ghost use Rattle.health_planning.specs.Later.{AreLater};
ghost use Rattle.health_valves.specs.Valves.{size_of};
ghost use Rattle.health_index.specs.Index.{StandsFor};
ghost use Rattle.health_index.specs.Following.{AreFewer, AreMore, AreSame, Follows};
ghost use Rattle.health_index.specs.Following.{HasCheckers, IsEndpointAt};
ghost use Rattle.health_index.specs.Following.{IsFollowed, IsOpenTo, IsWay};
ghost use Rattle.health_index.specs.declared.following.Way.{Way};
ghost use Rattle.health_index.specs.declared.following.Way.TheVariants as way;
ghost use Rattle.health_index.specs.Kin.{kin_of};
ghost use Rattle.health_index.specs.Founding.{ComesFirstOwned, FoundsOwned};
ghost use Rattle.health_index.specs.Leading.{ComesToLead, GetsValve};
ghost use Rattle.health_index.specs.Leaving.{AreLeft, SparesValves};
ghost use Rattle.health_index.specs.Regrouping.{HasCome, HasGone, Joins, JoinsGroup, Leaves};
ghost use Rattle.health_index.specs.Regrouping.{LeavesGroup, TellNoOther};
ghost use Rattle.health_index.specs.Room.{AddsFew, AddsLittle, HasAsMuch, HasRoom, HasRoomForAlias, HasRoomForGroup};
ghost use Rattle.health_index.specs.Unfounding.{LeavesLast, Unfounds};
ghost use Rattle.health_index.specs.Unleading.{LeavesValve, Unleads};
ghost use Rattle.health_planning.specs.Wired.{group_seat, is_watched, valves_of, watched_of};
ghost use Rattle.health_model.specs.Sound.{IsSound};
ghost use Rattle.health_model.specs.Statuses.{Report};
ghost use Rattle.health_planning.specs.Looking.{RefersTo};
ghost use Rattle.health_planning.specs.SetRefRecord.{SetRef};
ghost use Rattle.health_planning.specs.Zones.{Zone};
ghost use Rattle.record_set.specs.declared.sets.RecordSet.{RecordSet};
ghost use Rattle.zone_model.specs.Slotted.{Slotted};

use crate::following::{
    Way, fresh_checkers, has_checkers, has_ids, is_endpoint, reshape_checks, way_of,
};
use crate::index::HealthIndex;
use crate::kin::has_kin;
use crate::reserving::{has_room_for, has_room_for_group, has_room_for_one};
use crate::valve_numbers::spare_number;
use health_check::CheckTable;
use health_model::paths_end;
use health_planning::{Delta, MOST_CHECKS, SetRef, Zones, number_at, seat_beside};
use health_standing::{
    alias_come, first_come, group_joined, group_left, last_left, note_those, note_told, one_come,
    one_gone, own_in, own_valves_in, push_alias, push_first, put_seat, seat_first, seat_in,
    seat_without, spares_valves, valve_left,
};

/// How many valves feed that of a group at most that gets one in place.
const MOST_FED: usize = 128;

impl HealthIndex {
    /// Takes a command by which no valve of a set or a group changes: sets went and came beside them, and
    /// checks stay. Those that came are seated by the checks that alone decide them. The answer is whether it
    /// is one; else the index stays as it is. It takes no memory.
    pub(crate) fn reseat(&mut self, zones: &Zones, checks: &CheckTable, delta: &Delta) -> bool
        requires room { HasRoom self.old zones.now.slots }
        requires sound { IsSound (watched_of zones.now.zones checks.now.checks) }
        ensures stands { (before : List Zone) (old : Checks) (reports : List Report)
            → StandsFor before old reports self.old
            → AreLeft before old zones.now.zones checks.now.checks delta.now → result ≡ true
            → StandsFor zones.now.zones checks.now.checks reports self.new }
        ensures spares { result ≡ true → SparesValves zones.now.zones self.old.seats delta.now }
        ensures stays { result ≡ false → self.new ≡ self.old }
        ensures ready { SparesValves zones.now.zones self.old.seats delta.now
            → AreSame self.old.ids checks.now.checks.list → 200 ≤ size_of self.old.valves
            → result ≡ true }
        ensures rest { self.new ≡ record self.old { seats = self.new.seats } }
    {
        zones.well_formed();
        zones.slots_apart();
        if !spares_valves(zones, &self.seats, delta, &mut self.scratch) {
            return false;
        }
        let list = checks.as_slice();
        if !has_ids(&self.ids, list) {
            return false;
        }
        if self.valves.len() < MOST_CHECKS {
            return false;
        }
        seat_beside(
            zones,
            delta.removed.as_slice(),
            delta.added.as_slice(),
            &self.ids,
            &self.numbers,
            &mut self.seats,
        );
        true
    }

    /// Takes a command by which one set alone went or came: one that nothing decides, from a group with a valve or
    /// into one; one with a valve of its own that went from a group without one, as an evaluated alias has; or an
    /// evaluated alias that came into a group without a valve, and leads to one with a valve, or to one of whose sets
    /// nothing decides any. The answer is whether it is one, and there is room for what it brings; else the index
    /// stays as it is. It takes no memory.
    pub(crate) fn regroup(&mut self, zones: &Zones, checks: &CheckTable, delta: &Delta) -> bool
        requires room { HasRoom self.old zones.now.slots }
        requires sound { IsSound (watched_of zones.now.zones checks.now.checks) }
        ensures stands { (before : List Zone) (old : Checks) (reports : List Report)
            → StandsFor before old reports self.old
            → AreLeft before old zones.now.zones checks.now.checks delta.now → result ≡ true
            → StandsFor zones.now.zones checks.now.checks reports self.new }
        ensures zone { result ≡ true → delta.now.zone ≢ 0 }
        ensures adds { AddsLittle zones.now.zones zones.now.slots delta.now self.old self.new }
        ensures stays { result ≡ false → self.new ≡ self.old }
        ensures left { (ref : SetRef) (valve : ℕ) → HasGone delta.now ref
            → LeavesGroup zones.now.zones self.old.seats self.old.valves ref valve
            → (result ≡ true) × Leaves ref valve self.old self.new }
        ensures joined { (ref : SetRef) (named : RecordSet) (valve : ℕ) → HasCome delta.now ref
            → JoinsGroup zones.now.zones self.old.seats self.old.valves ref valve
            → RefersTo zones.now.zones ref named
            → TellNoOther zones.now.zones self.old.seats ref.zone named.name named.rtype valve
            → length self.old.members < self.old.space.members
            → (result ≡ true) × Joins ref valve self.old self.new }
        ensures unled { (ref : SetRef) (valve : ℕ) → HasGone delta.now ref
            → LeavesValve zones.now.zones self.old.seats self.old.valves ref valve
            → (result ≡ true) × Unleads ref valve self.old self.new }
        ensures unfounded { (ref : SetRef) (valve group : ℕ) → HasGone delta.now ref
            → LeavesLast zones.now.zones self.old.seats self.old.valves ref valve group
            → (result ≡ true) × Unfounds ref valve group self.old self.new }
        ensures led { (ref : SetRef) (feeders : List ℕ) → HasCome delta.now ref
            → ComesToLead zones.now.zones self.old.ids self.old.numbers self.old.seats self.old.valves ref feeders
            → HasRoomForAlias self.old zones.now.slots
            → (result ≡ true) × GetsValve ref feeders self.old self.new }
        ensures founded { (ref : SetRef) (members : List Slotted) (feeders : List ℕ) → HasCome delta.now ref
            → ComesFirstOwned zones.now.zones self.old.ids self.old.numbers self.old.seats self.old.valves ref members
            feeders
            → HasRoomForGroup self.old (length (valves_of self.old.seats members)) (length members) zones.now.slots
            → (result ≡ true) × FoundsOwned ref members feeders self.old self.new }
    {
        zones.well_formed();
        if let Some(set) = one_gone(delta) {
            if self.leave(zones, checks, delta, set) {
                return true;
            }
            if self.unlead(zones, checks, delta, set) {
                return true;
            }
            return self.unfound(zones, checks, delta, set);
        }
        if let Some(set) = one_come(delta) {
            if self.join(zones, checks, delta, set) {
                return true;
            }
            if self.lead_in(zones, checks, delta, set) {
                return true;
            }
            return self.found_in(zones, checks, delta, set);
        }
        false
    }

    /// Takes a command by which one set alone went that nothing decides.
    fn leave(&mut self, zones: &Zones, checks: &CheckTable, delta: &Delta, set: SetRef) -> bool
        requires sound { IsSound (watched_of zones.now.zones checks.now.checks) }
        requires gone { HasGone delta.now set }
        ensures stands { (before : List Zone) (old : Checks) (reports : List Report)
            → StandsFor before old reports self.old
            → AreLeft before old zones.now.zones checks.now.checks delta.now → result ≡ true
            → StandsFor zones.now.zones checks.now.checks reports self.new }
        ensures adds { AddsFew zones.now.slots self.old self.new }
        ensures stays { result ≡ false → self.new ≡ self.old }
        ensures group { result ≡ true → group_seat self.old.seats set.slot ≢ 0 }
        ensures left { (valve : ℕ)
            → LeavesGroup zones.now.zones self.old.seats self.old.valves set valve
            → (result ≡ true) × Leaves set valve self.old self.new }
    {
        zones.well_formed();
        zones.slots_apart();
        let Some(valve) = group_left(zones, &self.seats, &self.valves, set) else {
            return false;
        };
        let own = self.valves.own(valve as usize);
        self.valves.set_count(valve, own - 1);
        put_seat(&mut self.seats, set.slot, 0);
        true
    }

    /// Takes a command by which one set alone went that has a valve of its own, which that of no group fed, or that
    /// of one which feeds another too.
    fn unlead(&mut self, zones: &Zones, checks: &CheckTable, delta: &Delta, set: SetRef) -> bool
        requires sound { IsSound (watched_of zones.now.zones checks.now.checks) }
        requires gone { HasGone delta.now set }
        ensures stands { (before : List Zone) (old : Checks) (reports : List Report)
            → StandsFor before old reports self.old
            → AreLeft before old zones.now.zones checks.now.checks delta.now → result ≡ true
            → StandsFor zones.now.zones checks.now.checks reports self.new }
        ensures adds { AddsFew zones.now.slots self.old self.new }
        ensures stays { result ≡ false → self.new ≡ self.old }
        ensures another { result ≡ true → (valve group : ℕ)
            → LeavesLast zones.now.zones self.old.seats self.old.valves set valve group → ⊥ }
        ensures unled { (valve : ℕ)
            → LeavesValve zones.now.zones self.old.seats self.old.valves set valve
            → (result ≡ true) × Unleads set valve self.old self.new }
    {
        zones.well_formed();
        zones.slots_apart();
        let Some(valve) = valve_left(zones, &self.seats, &self.valves, set) else {
            return false;
        };
        self.valves.unfeed(valve);
        put_seat(&mut self.seats, set.slot, 0);
        true
    }

    /// Takes a command by which one set alone went that has a valve of its own, which that of one group fed, and no
    /// other one, and which fed no other: as the last evaluated alias has that leads to the group.
    fn unfound(&mut self, zones: &Zones, checks: &CheckTable, delta: &Delta, set: SetRef) -> bool
        requires sound { IsSound (watched_of zones.now.zones checks.now.checks) }
        requires gone { HasGone delta.now set }
        ensures stands { (before : List Zone) (old : Checks) (reports : List Report)
            → StandsFor before old reports self.old
            → AreLeft before old zones.now.zones checks.now.checks delta.now → result ≡ true
            → StandsFor zones.now.zones checks.now.checks reports self.new }
        ensures adds { AddsFew zones.now.slots self.old self.new }
        ensures stays { result ≡ false → self.new ≡ self.old }
        ensures unfounded { (valve group : ℕ)
            → LeavesLast zones.now.zones self.old.seats self.old.valves set valve group
            → (result ≡ true) × Unfounds set valve group self.old self.new }
    {
        zones.well_formed();
        zones.slots_apart();
        let Some(last) = last_left(zones, &self.seats, &self.valves, set) else {
            return false;
        };
        self.valves.unfeed(last.valve);
        self.valves.unfeed(last.group);
        seat_without(&mut self.seats, &self.members, set.slot, last.group);
        note_told(&mut self.members, &self.seats);
        true
    }

    /// Takes a command by which one set alone came.
    fn join(&mut self, zones: &Zones, checks: &CheckTable, delta: &Delta, set: SetRef) -> bool
        requires room { HasRoom self.old zones.now.slots }
        requires sound { IsSound (watched_of zones.now.zones checks.now.checks) }
        requires come { HasCome delta.now set }
        ensures stands { (before : List Zone) (old : Checks) (reports : List Report)
            → StandsFor before old reports self.old
            → AreLeft before old zones.now.zones checks.now.checks delta.now → result ≡ true
            → StandsFor zones.now.zones checks.now.checks reports self.new }
        ensures adds { AddsFew zones.now.slots self.old self.new }
        ensures stays { result ≡ false → self.new ≡ self.old }
        ensures off { result ≡ true → (named : RecordSet) → RefersTo zones.now.zones set named
            → is_watched named ≡ false }
        ensures joined { (named : RecordSet) (valve : ℕ)
            → JoinsGroup zones.now.zones self.old.seats self.old.valves set valve
            → RefersTo zones.now.zones set named
            → TellNoOther zones.now.zones self.old.seats set.zone named.name named.rtype valve
            → length self.old.members < self.old.space.members
            → (result ≡ true) × Joins set valve self.old self.new }
    {
        zones.well_formed();
        zones.slots_apart();
        zones.slots_within();
        let Some(told) = group_joined(zones, &self.seats, &self.valves, set, &mut self.scratch)
        else {
            return false;
        };
        if self.members.len() >= self.members.capacity() {
            return false;
        }
        let valve = told - 1;
        let own = self.valves.own(valve as usize);
        self.valves.set_count(valve, own + 1);
        self.members.push_reserved(set);
        seat_in(zones, &mut self.seats, set.slot, told);
        true
    }

    /// Takes a command by which one evaluated alias alone came, of a group without a valve, to a target group
    /// that has one.
    fn lead_in(&mut self, zones: &Zones, checks: &CheckTable, delta: &Delta, set: SetRef) -> bool
        requires room { HasRoom self.old zones.now.slots }
        requires sound { IsSound (watched_of zones.now.zones checks.now.checks) }
        requires come { HasCome delta.now set }
        ensures stands { (before : List Zone) (old : Checks) (reports : List Report)
            → StandsFor before old reports self.old
            → AreLeft before old zones.now.zones checks.now.checks delta.now → result ≡ true
            → StandsFor zones.now.zones checks.now.checks reports self.new }
        ensures adds { AddsFew zones.now.slots self.old self.new }
        ensures stays { result ≡ false → self.new ≡ self.old }
        ensures comes { result ≡ true → (feeders : List ℕ) × ComesToLead zones.now.zones self.old.ids self.old.numbers
            self.old.seats self.old.valves set feeders }
        ensures led { (feeders : List ℕ)
            → ComesToLead zones.now.zones self.old.ids self.old.numbers self.old.seats self.old.valves set feeders
            → HasRoomForAlias self.old zones.now.slots
            → (result ≡ true) × GetsValve set feeders self.old self.new }
    {
        paths_end();
        zones.well_formed();
        zones.slots_apart();
        zones.slots_within();
        let Some(feeders) = alias_come(
            zones,
            &self.ids,
            &self.numbers,
            &self.seats,
            &self.valves,
            set,
            &mut self.scratch,
        ) else {
            return false;
        };
        if self.refs.len() >= self.refs.capacity() {
            return false;
        }
        if !has_room_for_one(&self.valves, zones.slots()) {
            return false;
        }
        let told = self.valves.len() as u32 + 1;
        push_alias(&mut self.valves, feeders);
        self.refs.push_reserved(set);
        own_in(zones, &mut self.seats, set.slot, told);
        true
    }

    /// Takes a command by which one evaluated alias alone came, of a group without a valve, the first one that
    /// leads to a target group, of whose sets each has a valve of its own, or nothing decides it.
    fn found_in(&mut self, zones: &Zones, checks: &CheckTable, delta: &Delta, alias: SetRef) -> bool
        requires room { HasRoom self.old zones.now.slots }
        requires sound { IsSound (watched_of zones.now.zones checks.now.checks) }
        requires come { HasCome delta.now alias }
        ensures stands { (before : List Zone) (old : Checks) (reports : List Report)
            → StandsFor before old reports self.old
            → AreLeft before old zones.now.zones checks.now.checks delta.now → result ≡ true
            → StandsFor zones.now.zones checks.now.checks reports self.new }
        ensures adds { AddsLittle zones.now.zones zones.now.slots delta.now self.old self.new }
        ensures stays { result ≡ false → self.new ≡ self.old }
        ensures founded { (members : List Slotted) (feeders : List ℕ)
            → ComesFirstOwned zones.now.zones self.old.ids self.old.numbers self.old.seats self.old.valves alias members
            feeders
            → HasRoomForGroup self.old (length (valves_of self.old.seats members)) (length members) zones.now.slots
            → (result ≡ true) × FoundsOwned alias members feeders self.old self.new }
    {
        paths_end();
        zones.well_formed();
        zones.slots_apart();
        zones.slots_within();
        let Some(first) = first_come(
            zones,
            &self.ids,
            &self.numbers,
            &self.seats,
            &self.valves,
            alias,
            &mut self.scratch,
        ) else {
            return false;
        };
        if self.refs.len() >= self.refs.capacity() {
            return false;
        }
        if !has_room_for(&self.members, first.group.length) {
            return false;
        }
        let mut valves = [0; MOST_FED];
        let Some(many) = own_valves_in(zones, &self.seats, first.group, &mut valves) else {
            return false;
        };
        if !has_room_for_group(&self.valves, many, zones.slots()) {
            return false;
        }
        let told = self.valves.len() as u32 + 1;
        let plain = (first.group.length - many) as u32;
        push_first(&mut self.valves, first.check, &valves[..many], plain);
        self.refs.push_reserved(alias);
        note_those(zones, first.group, &mut self.members);
        seat_first(zones, first.group, alias.slot, told, &mut self.seats);
        true
    }

    /// Takes a command that tells of no zone, and by which no calculated check came, went or got other
    /// children: checks have the numbers of those before, or one of an endpoint came behind them or went. The
    /// answer is whether it is one; else the index stays as it is. It takes no memory.
    pub(crate) fn follow(&mut self, checks: &CheckTable, delta: &Delta) -> bool
        requires ids_room { 200 ≤ self.old.space.ids }
        requires numbers_room { 200 ≤ self.old.space.numbers }
        requires seen_room { 200 ≤ self.old.space.seen }
        ensures zone { result ≡ true → delta.now.zone ≡ 0 }
        ensures stands { (zones : List Zone) (old : Checks) (reports : List Report)
            → StandsFor zones old reports self.old → AreLater old checks.now.checks
            → IsSound (watched_of zones checks.now.checks) → result ≡ true
            → StandsFor zones checks.now.checks reports self.new }
        ensures as_much { HasAsMuch self.old self.new }
        ensures stays { result ≡ false → self.new ≡ self.old }
        ensures in_place { (way : Way) → delta.now.zone ≡ 0 → self.old.kin ≡ kin_of checks.now.checks.list
            → IsWay self.old.ids checks.now.checks.list way
            → IsOpenTo way checks.now.checks.list self.old
            → (result ≡ true) × Follows way checks.now.checks.list self.old self.new }
    {
        if delta.zone != 0 {
            return false;
        }
        if !has_kin(&self.kin, checks.as_slice()) {
            return false;
        }
        if !self.take_ids(checks) {
            return false;
        }
        self.follow_checks(checks);
        true
    }

    /// Takes the numbers of checks that follow of those before in one of these ways. The answer is whether
    /// they do; else the index stays as it is. Their valves have other conditions as yet.
    fn take_ids(&mut self, checks: &CheckTable) -> bool
        requires kin { self.old.kin ≡ kin_of checks.now.checks.list }
        requires ids_room { 200 ≤ self.old.space.ids }
        requires numbers_room { 200 ≤ self.old.space.numbers }
        requires seen_room { 200 ≤ self.old.space.seen }
        ensures followed { (zones : List Zone) (old : Checks) (reports : List Report)
            → StandsFor zones old reports self.old → AreLater old checks.now.checks
            → IsSound (watched_of zones checks.now.checks) → result ≡ true
            → IsFollowed zones checks.now.checks reports self.new }
        ensures as_many { result ≡ true → length self.new.ids ≡ length checks.now.checks.list }
        ensures as_much { HasAsMuch self.old self.new }
        ensures stays { result ≡ false → self.new ≡ self.old }
        ensures in_place { (way : Way) → IsWay self.old.ids checks.now.checks.list way
            → IsOpenTo way checks.now.checks.list self.old
            → (result ≡ true) × Follows way checks.now.checks.list self.old self.new }
    {
        let list = checks.as_slice();
        match way_of(&self.ids, list) {
            Way::Same => true,
            Way::More => self.add_check(checks),
            Way::Fewer(gone) => self.drop_check(checks, gone),
            Way::Other => false,
        }
    }

    /// Takes a check that came behind those before: it gets a spare valve. The answer is whether it is of an
    /// endpoint, and the valves of 200 checks are there, as they are once any are laid out; else the index
    /// stays as it is.
    fn add_check(&mut self, checks: &CheckTable) -> bool
        requires sound { AreSoundChecks checks.now.checks }
        requires kin { self.old.kin ≡ kin_of checks.now.checks.list }
        requires more { AreMore self.old.ids checks.now.checks.list }
        requires ids_room { 200 ≤ self.old.space.ids }
        requires numbers_room { 200 ≤ self.old.space.numbers }
        requires seen_room { 200 ≤ self.old.space.seen }
        ensures followed { (zones : List Zone) (old : Checks) (reports : List Report)
            → StandsFor zones old reports self.old → AreLater old checks.now.checks
            → result ≡ true → IsFollowed zones checks.now.checks reports self.new }
        ensures as_much { HasAsMuch self.old self.new }
        ensures stays { result ≡ false → self.new ≡ self.old }
        ensures ready { 200 ≤ size_of self.old.valves
            → IsEndpointAt checks.now.checks.list (length self.old.ids) → result ≡ true }
        ensures follows { result ≡ true
            → Follows way.More checks.now.checks.list self.old self.new }
    {
        let place = self.ids.len();
        if self.valves.len() < MOST_CHECKS {
            return false;
        }
        let list = checks.as_slice();
        let held = &list[place];
        if !is_endpoint(&held.1) {
            return false;
        }
        let checkers = fresh_checkers(&held.1);
        let valve = spare_number(&self.numbers);
        self.valves.set_count(valve, u32::from(checkers.passing()));
        self.ids.push_reserved(held.0);
        self.numbers.push_reserved(valve);
        self.seen.push_reserved(Some(checkers));
        true
    }

    /// Gives up the check at a place, which went: its valve is spare. The answer is whether it was of an
    /// endpoint, whose valve nothing feeds; else the index stays as it is.
    fn drop_check(&mut self, checks: &CheckTable, gone: usize) -> bool
        requires sound { AreSoundChecks checks.now.checks }
        requires kin { self.old.kin ≡ kin_of checks.now.checks.list }
        requires fewer { AreFewer self.old.ids gone checks.now.checks.list }
        ensures followed { (zones : List Zone) (old : Checks) (reports : List Report)
            → StandsFor zones old reports self.old → AreLater old checks.now.checks
            → IsSound (watched_of zones checks.now.checks) → result ≡ true
            → IsFollowed zones checks.now.checks reports self.new }
        ensures as_much { HasAsMuch self.old self.new }
        ensures stays { result ≡ false → self.new ≡ self.old }
        ensures ready { HasCheckers self.old.seen gone → result ≡ true }
        ensures follows { result ≡ true
            → Follows (way.Fewer gone) checks.now.checks.list self.old self.new }
    {
        if !has_checkers(&self.seen, gone) {
            return false;
        }
        let valve = number_at(&self.numbers, gone);
        self.valves.reshape(valve, 0, false);
        self.ids.remove(gone);
        self.numbers.remove(gone);
        self.seen.remove(gone);
        true
    }

    /// Gives the valves of checks their conditions, where their numbers were taken. It takes no memory.
    fn follow_checks(&mut self, checks: &CheckTable)
        requires as_many { length self.old.ids ≡ length checks.now.checks.list }
        ensures stands { (zones : List Zone) (reports : List Report)
            → IsFollowed zones checks.now.checks reports self.old
            → IsSound (watched_of zones checks.now.checks)
            → StandsFor zones checks.now.checks reports self.new }
        ensures as_much { HasAsMuch self.old self.new }
        ensures rest { self.new ≡ record self.old { valves = self.new.valves } }
    {
        reshape_checks(&mut self.valves, checks.as_slice(), &self.numbers);
    }
}
