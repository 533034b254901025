//! The index: what is asked of it, and how it takes a report.

ghost use Rattle.std.specs.Prelude.{◌≡◌, ◌≢◌, ◌≤◌, ◌<◌, ◌+◌, ◌∷◌, ◌↔◌, [], ℕ, IsTrue, List, false, true};
ghost use Rattle.std.specs.Prelude.{◌⊎◌, Contains, IfOk, IsOk, OnOk, if◌then◌else◌, length};
ghost use Rattle.check_model.specs.Checks.{Checks};
ghost use Rattle.health_planning.specs.Later.{AreLater};
ghost use Rattle.health_valves.specs.Laying.{links_of};
ghost use Rattle.health_valves.specs.Valves.{Feeds, HasEnds, IsReady, ValvesStandFor, MeetsEquation, Net};
ghost use Rattle.health_valves.specs.Valves.{size_of, value_of};
ghost use Rattle.health_valves.specs.Pass.{IsIdle};
ghost use Rattle.health_index.specs.Index.{HasNode, IsEndpointOf, IsLaidFor, IsNumberOf, Needs, StandsFor};
ghost use Rattle.health_index.specs.Index.{healthy_in};
ghost use Rattle.health_index.specs.Index.{reported};
ghost use Rattle.health_index.specs.Following.{AreSame, Follows};
ghost use Rattle.health_index.specs.Following.{IsOpenTo, IsWay};
ghost use Rattle.health_index.specs.declared.following.Way.{Way};
ghost use Rattle.health_index.specs.Kin.{kin_of};
ghost use Rattle.health_index.specs.Founding.{ComesFirst, ComesFirstOwned, Founds, FoundsOwned};
ghost use Rattle.health_index.specs.Leading.{ComesToLead, GetsValve};
ghost use Rattle.health_index.specs.Leaving.{AreLeft, KeepsValves, Moves, SparesValves};
ghost use Rattle.health_index.specs.Regrouping.{HasCome, HasGone, Joins, JoinsGroup, Leaves};
ghost use Rattle.health_index.specs.Regrouping.{LeavesGroup, TellNoOther};
ghost use Rattle.health_index.specs.Room.{AddsLittle, HasRoom, HasRoomForAlias, HasRoomForFirst};
ghost use Rattle.health_index.specs.Room.{HasRoomForGroup};
ghost use Rattle.health_index.specs.Room.{IsLaidAnew, Keeps};
ghost use Rattle.health_index.specs.Unfounding.{LeavesLast, Unfounds};
ghost use Rattle.health_index.specs.Unleading.{LeavesValve, Unleads};
ghost use Rattle.health_index.specs.Values.{WorksOut};
ghost use Rattle.health_planning.specs.Wired.{valves_of, watched_of};
ghost use Rattle.health_model.specs.Nodes.{CheckNode, InCone, Node};
ghost use Rattle.health_model.specs.Sound.{IsSound};
ghost use Rattle.health_model.specs.Statuses.{Report, status, status_told};
ghost use Rattle.health_planning.specs.Looking.{RefersTo};
ghost use Rattle.health_planning.specs.SetRefRecord.{SetRef};
ghost use Rattle.health_planning.specs.Zones.{Zone};
ghost use Rattle.record_set.specs.declared.sets.RecordSet.{RecordSet};
ghost use Rattle.zone_model.specs.Slotted.{Slotted};

use crate::following::Way;
use crate::kin::list_kin;
use crate::laws::index_tells_health;
use crate::reserving::{each_ok, room_for_checks, room_for_kin, room_for_numbers, room_for_slots};
use crate::taking::take_result;
use crate::valve_numbers::{asks_all, has_number, keep_numbers};
use checker_state::{CHECKERS, Checkers, fifty_alone};
use health_check::CheckTable;
use health_model::one_more_report;
use health_planning::{
    Delta, HealthView, MOST_CHECKS, Scratch, Seat, SetRef, Zones, list_ids, list_seen, number_at,
    place_near, plan_valves, seat_anew, views_agree,
};
use health_standing::{gone_by, leaves_valves, tells_of_check, valve_of};
use health_valves::{Blueprint, Steps, Valves};
use octets::OutOfMemory;
use std::alloc::Global;
use std::marker::Model;
use std::mem;
use std::sync::ledger::Ledger;

/// The health of a configuration's checks, sets and groups.
#[derive(Drop)]
pub struct HealthIndex {
    /// The numbers of the checks, which rise.
    pub(crate) ids: Vec<u32>,
    /// Their valves. A check keeps its own while it is there, but where checks are others altogether.
    pub(crate) numbers: Vec<u32>,
    /// What the checkers of each endpoint saw.
    pub(crate) seen: Vec<Option<Checkers>>,
    /// The children of calculated checks, one check behind the other: its number, how many it has, and these.
    pub(crate) kin: Vec<u32>,
    /// By the slot of a set.
    pub(crate) seats: Vec<Seat>,
    pub(crate) valves: Valves,
    /// The numbers of the checks before the last command, and what their checkers saw.
    pub(crate) ids_before: Vec<u32>,
    pub(crate) seen_before: Vec<Option<Checkers>>,
    /// The sets with valves of their own, and those that went since all was laid out and had one. A slot to which
    /// a set came behind one that went can stand there twice.
    pub(crate) refs: Vec<SetRef>,
    /// The sets of groups with valves, and those that went from such groups since all was laid out, or since a group
    /// lost its valve; such a slot can stand there twice too. While all is laid out, the sets that had valves.
    pub(crate) members: Vec<SetRef>,
    /// What was planned: of use while all is laid out.
    pub(crate) blueprint: Blueprint,
    /// Where a set that came is read.
    pub(crate) scratch: Scratch,
}

impl Model for HealthIndex {
    ghost use Rattle.std.specs.Prelude.{◌+◌, length, vec_capacity};
    ghost use Rattle.health_index.specs.Index.{Index, IsIntact};

    ghost Value = { Index };

    ghost view = { λ i. record {
      ids = i.ids.items;
      numbers = i.numbers.items;
      seen = i.seen.items;
      kin = i.kin.items;
      seats = i.seats.items;
      refs = i.refs.items;
      members = i.members.items;
      valves = i.valves;
      space = record {
        ids = vec_capacity i.ids;
        numbers = vec_capacity i.numbers;
        seen = vec_capacity i.seen;
        ids_before = vec_capacity i.ids_before;
        seen_before = vec_capacity i.seen_before;
        kin = vec_capacity i.kin;
        seats = vec_capacity i.seats;
        refs = vec_capacity i.refs;
        members = vec_capacity i.members;
        triggers = i.blueprint.room + length i.blueprint.triggers;
        links = i.blueprint.links_room + length i.blueprint.links;
      };
    } };

    ghost invariant = { λ i. IsIntact (record {
      ids = i.ids.items;
      numbers = i.numbers.items;
      seen = i.seen.items;
      kin = i.kin.items;
      seats = i.seats.items;
      refs = i.refs.items;
      members = i.members.items;
      valves = i.valves;
      space = record {
        ids = vec_capacity i.ids;
        numbers = vec_capacity i.numbers;
        seen = vec_capacity i.seen;
        ids_before = vec_capacity i.ids_before;
        seen_before = vec_capacity i.seen_before;
        kin = vec_capacity i.kin;
        seats = vec_capacity i.seats;
        refs = vec_capacity i.refs;
        members = vec_capacity i.members;
        triggers = i.blueprint.room + length i.blueprint.triggers;
        links = i.blueprint.links_room + length i.blueprint.links;
      };
    }) };
}

impl HealthIndex {
    /// The index of a configuration, before any report.
    pub fn rebuild(
        alloc: Global,
        zones: &Zones,
        checks: &CheckTable,
    ) -> Result<HealthIndex, OutOfMemory>
        requires sound { IsSound (watched_of zones.now.zones checks.now.checks) }
        ensures stands { IfOk result (λ index.
            StandsFor zones.now.zones checks.now.checks [] index) }
        ensures laid { IfOk result (λ index. IsLaidAnew zones.now.zones index) }
    {
        let Ok(scratch) = Scratch::new(alloc) else {
            return Err(OutOfMemory);
        };
        let mut index = HealthIndex::empty(alloc, scratch);
        let Ok(()) = index.reserve(zones) else {
            return Err(OutOfMemory);
        };
        let none: Vec<SetRef> = Vec::new(alloc);
        index.lay(zones, checks, true, none.as_slice(), none.as_slice());
        Ok(index)
    }

    /// The index of nothing.
    fn empty(alloc: Global, scratch: Scratch) -> HealthIndex
        ensures { result.ids ≡ [] }
    {
        HealthIndex {
            ids: Vec::new(alloc),
            numbers: Vec::new(alloc),
            seen: Vec::new(alloc),
            kin: Vec::new(alloc),
            seats: Vec::new(alloc),
            valves: Valves::new(alloc),
            ids_before: Vec::new(alloc),
            seen_before: Vec::new(alloc),
            refs: Vec::new(alloc),
            members: Vec::new(alloc),
            blueprint: Blueprint::new(alloc),
            scratch,
        }
    }

    /// Makes room for a command that leaves no more slots than there are; zones are made ready for
    /// a command first. The index stays as it is.
    pub fn reserve(&mut self, zones: &Zones) -> Result<(), OutOfMemory>
        ensures room { OnOk result (HasRoom self.new zones.now.slots) }

        // Memory is wanted only where there isn't as much room.
        ensures ready { HasRoom self.old zones.now.slots → IsOk result }

        // Nothing else changes, and no room is lost, also where there is no memory.
        ensures keeps { Keeps self.old self.new }
        ensures kept { (slots : ℕ) → HasRoom self.old slots → HasRoom self.new slots }
        ensures stands { (before : List Zone) (checks : Checks) (reports : List Report)
            → StandsFor before checks reports self.old → StandsFor before checks reports self.new }
    {
        let now = room_for_checks(&mut self.ids, &mut self.seen);
        let before = room_for_checks(&mut self.ids_before, &mut self.seen_before);
        let numbers = room_for_numbers(&mut self.numbers);
        let kin = room_for_kin(&mut self.kin);
        let slots = room_for_slots(
            &mut self.seats,
            &mut self.refs,
            &mut self.members,
            &mut self.blueprint,
            &mut self.valves,
            zones.slots(),
        );
        each_ok(now, before, numbers, kin, slots)
    }

    /// Takes a command: the zones and the checks are those that it left, and the references are
    /// those that it told. It takes no memory.
    ///
    /// Where sets gave way to others that the same check alone decides, or nothing, and else sets that
    /// nothing decides went and came, but in no group to which an evaluated alias leads, it costs a
    /// look at these and at their groups, and a comparison of those that came with those that went.
    /// An evaluated alias may give way to one with the same check and the same target group, too: for
    /// each that came its target is looked up, and the valves that its check and its target group
    /// feed are walked. Where sets went and came in no such group, and none of them is an evaluated
    /// alias, whichever checks they name, it costs a look at these, at their groups and at the
    /// numbers of checks. Where one set alone went or came, nothing decides it, and an evaluated alias
    /// leads to its group, it costs a look at that group, and what stands above it where its value
    /// changes. Where an evaluated alias alone went, of a group to which none leads, and another one leads
    /// to its target group, it costs a look at what fed its valve, which goes on without a node. Where none leads
    /// there any more, that group's valve does so too, and it costs a look at the seats of the sets that were noted in
    /// groups with valves besides. Where one alone came, of a group to which none leads, and another one leads to its
    /// target group, it costs a look at its group and at the first set of its target group: its valve comes behind all.
    /// Where it is the first that leads to its target group, and each set of that has a valve of its own, or nothing
    /// decides it, it costs a look at both groups: a valve for the target group, which theirs feed, and one for the
    /// alias come behind all. Valves that went on
    /// without a node take room until all are laid out anew, and so do the sets that had them in the list of sets with
    /// valves, and the sets that went from groups with valves among those noted; where there is no room for what comes,
    /// all is laid out anew.
    ///
    /// Where it tells of no zone, and no calculated check came, went or got other children: where
    /// checks have the numbers of those before, as after UpdateHealthCheck, or one of an endpoint came
    /// behind them or went, as after CreateHealthCheck and DeleteHealthCheck, it costs a look at the
    /// checks and at the children of calculated ones, and what stands above those whose status
    /// changes.
    ///
    /// Otherwise all valves are laid out anew: it costs what the configuration has of checks, of
    /// evaluated aliases and of the sets of their target groups, and had of them before. Of the other
    /// sets it asks only those that went and came, and their seats stay as they are.
    pub fn on_command(&mut self, zones: &Zones, checks: &CheckTable, delta: &Delta)
        requires room { HasRoom self.old zones.now.slots }
        requires sound { IsSound (watched_of zones.now.zones checks.now.checks) }
        ensures stands { (before : List Zone) (old : Checks) (reports : List Report)
            → StandsFor before old reports self.old
            → AreLeft before old zones.now.zones checks.now.checks delta.now
            → StandsFor zones.now.zones checks.now.checks reports self.new }

        // All is laid out anew, and nothing is left over; or little more is there than was, but where the first alias came
        // that leads to a group, so many links as this has sets with valves of their own.
        ensures grows { IsLaidAnew zones.now.zones self.new
            ⊎ AddsLittle zones.now.zones zones.now.slots delta.now self.old self.new }

        // Where the sets that went and came are of this kind, the index stays as it is.
        ensures same { KeepsValves zones.now.zones self.old.ids self.old.numbers self.old.seats
            self.old.valves delta.now
            → self.new ≡ self.old }

        // Where they went and came beside all valves of sets and groups, nothing changes but seats: which
        // check alone decides a set.
        ensures beside { SparesValves zones.now.zones self.old.seats delta.now
            → AreSame self.old.ids checks.now.checks.list → 200 ≤ size_of self.old.valves
            → self.new ≡ record self.old { seats = self.new.seats } }

        // Where one set went that nothing decides, from a group with a valve, that counts one fewer and a seat
        // changes, and nothing else; where one came into such a group, one more, and it is noted there.
        ensures left { (ref : SetRef) (valve : ℕ) → HasGone delta.now ref
            → LeavesGroup zones.now.zones self.old.seats self.old.valves ref valve
            → Leaves ref valve self.old self.new }
        ensures joined { (ref : SetRef) (named : RecordSet) (valve : ℕ) → HasCome delta.now ref
            → JoinsGroup zones.now.zones self.old.seats self.old.valves ref valve
            → RefersTo zones.now.zones ref named
            → TellNoOther zones.now.zones self.old.seats ref.zone named.name named.rtype valve
            → length self.old.members < self.old.space.members
            → Joins ref valve self.old self.new }

        // Where one set with a valve of its own went, as an evaluated alias has, from a group without one, and
        // another leads where it led, nothing feeds that valve any more and a seat changes, and nothing else.
        ensures unled { (ref : SetRef) (valve : ℕ) → HasGone delta.now ref
            → LeavesValve zones.now.zones self.old.seats self.old.valves ref valve
            → Unleads ref valve self.old self.new }

        // Where it was the last that led there, nothing feeds its valve any more, and nothing that of the group, and
        // their seats change: nothing else does.
        ensures unfounded { (ref : SetRef) (valve group : ℕ) → HasGone delta.now ref
            → LeavesLast zones.now.zones self.old.seats self.old.valves ref valve group
            → Unfounds ref valve group self.old self.new }

        // Where one evaluated alias came, of a group without a valve, and its target group has one, as another
        // leads there, there is one valve more, which that of the group and that of its check feed, and a seat
        // tells it; where there is room for one more.
        ensures led { (ref : SetRef) (feeders : List ℕ) → HasCome delta.now ref
            → ComesToLead zones.now.zones self.old.ids self.old.numbers self.old.seats self.old.valves ref feeders
            → HasRoomForAlias self.old zones.now.slots
            → GetsValve ref feeders self.old self.new }

        // Where one evaluated alias came, of a group without a valve, the first that leads to its target group, and
        // nothing decides any set of that, there are two valves more: one at which the sets of the group are counted,
        // and one that this and that of the alias's check feed; and seats tell them; where there is room for two.
        ensures founded { (ref : SetRef) (members : List Slotted) (feeders : List ℕ) → HasCome delta.now ref
            → ComesFirst zones.now.zones self.old.ids self.old.numbers self.old.seats self.old.valves ref members feeders
            → HasRoomForFirst self.old (length members) zones.now.slots
            → Founds ref members feeders self.old self.new }

        // It is so too where each set of the target group has a valve of its own, or nothing decides it: those valves
        // feed that of the group then, at which the other sets are counted.
        ensures founded_owned { (ref : SetRef) (members : List Slotted) (feeders : List ℕ) → HasCome delta.now ref
            → ComesFirstOwned zones.now.zones self.old.ids self.old.numbers self.old.seats self.old.valves ref members
            feeders
            → HasRoomForGroup self.old (length (valves_of self.old.seats members)) (length members) zones.now.slots
            → FoundsOwned ref members feeders self.old self.new }

        // Where calculated checks stay with their children, and those of endpoints do or one of them came or
        // went, nothing changes but the valves of checks, those above, and what the index has of that one.
        ensures in_place { (way : Way) → delta.now.zone ≡ 0 → self.old.kin ≡ kin_of checks.now.checks.list
            → IsWay self.old.ids checks.now.checks.list way
            → IsOpenTo way checks.now.checks.list self.old
            → Follows way checks.now.checks.list self.old self.new }
    {
        zones.well_formed();
        zones.slots_apart();
        if leaves_valves(
            zones,
            &self.ids,
            &self.numbers,
            &self.seats,
            &self.valves,
            delta,
            &mut self.scratch,
        ) {
            return;
        }
        if self.reseat(zones, checks, delta) {
            return;
        }
        if self.regroup(zones, checks, delta) {
            return;
        }
        if self.follow(checks, delta) {
            return;
        }
        self.lay(zones, checks, false, gone_by(delta), delta.added.as_slice());
    }

    /// Lays everything out anew, with what the checkers saw, and lists the children of calculated
    /// checks anew. All sets are asked which check alone decides them and whether they are evaluated
    /// aliases, or those that had valves of their own and those that went and came. Checks keep their
    /// valves then, and so each other set that a check alone decides keeps its seat. It takes no
    /// memory.
    fn lay(
        &mut self,
        zones: &Zones,
        checks: &CheckTable,
        whole: bool,
        gone: &[SetRef],
        came: &[SetRef],
    )
        requires room { HasRoom self.old zones.now.slots }
        requires sound { IsSound (watched_of zones.now.zones checks.now.checks) }
        ensures first { self.old.ids ≡ [] → whole ≡ true
            → StandsFor zones.now.zones checks.now.checks [] self.new }
        ensures stands { (before : List Zone) (old : Checks) (reports : List Report)
            → StandsFor before old reports self.old → AreLater old checks.now.checks
            → Moves before zones.now.zones gone.now came.now
            → StandsFor zones.now.zones checks.now.checks reports self.new }
        ensures laid { IsLaidAnew zones.now.zones self.new }
    {
        zones.well_formed();
        zones.slots_apart();
        let list = checks.as_slice();
        mem::swap(&mut self.ids, &mut self.ids_before);
        mem::swap(&mut self.seen, &mut self.seen_before);
        self.ids.clear();
        list_ids(&mut self.ids, list);
        let kept = keep_numbers(&mut self.numbers, &self.ids_before, list);
        let all = asks_all(whole, kept);
        self.seen.clear();
        list_seen(&mut self.seen, list, &self.ids_before, &self.seen_before);
        list_kin(&mut self.kin, list);
        seat_anew(
            zones,
            all,
            &self.refs,
            &self.members,
            gone,
            came,
            &self.ids,
            &self.numbers,
            &mut self.seats,
        );
        mem::swap(&mut self.refs, &mut self.members);
        self.refs.clear();
        self.blueprint.clear();
        plan_valves(
            zones,
            checks,
            &self.ids,
            &self.numbers,
            &self.seen,
            all,
            &mut self.members,
            came,
            &mut self.refs,
            &mut self.seats,
            &mut self.blueprint,
        );
        self.valves.lay_out(&mut self.blueprint);
    }

    /// Takes a report of an endpoint check. The answer is whether its status changed. A report of
    /// another number changes nothing.
    pub fn on_report<L: Ledger>(
        &mut self,
        id: u32,
        checker: u8,
        pass: bool,
        steps: &mut Steps<L>,
    ) -> bool
        requires checker { checker < CHECKERS }
        ensures stands { (zones : List Zone) (checks : Checks) (reports : List Report)
            → StandsFor zones checks reports self.old → IsEndpointOf checks id
            → StandsFor zones checks (reported id checker pass ∷ reports) self.new }
        ensures changed { (zones : List Zone) (checks : Checks) (reports : List Report)
            → StandsFor zones checks reports self.old → IsEndpointOf checks id
            → IsTrue result
            ↔ (status checks.list (reported id checker pass ∷ reports) id
            ≢ status checks.list reports id) }
        // No valve is worked out where the status stays.
        ensures quiet { result ≡ false → steps.new ≡ steps.old }
        // Otherwise as many are as there are nodes above the check at most, itself too.
        ensures cost { (zones : List Zone) (checks : Checks) (reports : List Report)
            → StandsFor zones checks reports self.old → (cone : List Node)
            → ((n : Node) → InCone (watched_of zones checks) (CheckNode id) n → Contains cone n)
            → steps.new ≤ steps.old + (if result then length cone else 0) }
        ensures other { (zones : List Zone) (checks : Checks) (reports : List Report)
            → StandsFor zones checks reports self.old → (IsEndpointOf checks id → ⊥)
            → (self.new ≡ self.old) × (result ≡ false) × (steps.new ≡ steps.old) }

        // No seat changes, and there is as much as was.
        ensures rest { self.new ≡ record self.old { seen = self.new.seen; valves = self.new.valves } }
        ensures size { size_of self.new.valves ≡ size_of self.old.valves }
        ensures links { links_of self.new.valves ≡ links_of self.old.valves }
    {
        index_tells_health();
        one_more_report();
        fifty_alone();
        let Some(place) = place_near(&self.ids, id) else {
            return false;
        };
        let Some(passing) = take_result(self.seen.as_mut_slice(), place, checker, pass) else {
            return false;
        };
        let valve = number_at(&self.numbers, place);
        self.valves.take_count(valve, u32::from(passing), steps)
    }

    /// Whether there is a node of the number. The checks have numbers, the sets that something
    /// decides and the target groups of evaluated aliases, and no others: that of a valve which no
    /// set and no group has any more is none.
    pub fn has_node(&self, node: u32) -> bool
        ensures { IsTrue result ↔ HasNode self.now node }
    {
        let number = node as usize;
        let many = self.valves.len();
        if number >= many {
            return tells_of_check(&self.seats, number - many);
        }
        if number >= MOST_CHECKS {
            return is_taken(&self.valves, number);
        }
        has_number(&self.numbers, node)
    }

    /// Works a node out anew, which is one step. The answer is whether its value changed. That of a set which
    /// a check alone decides is the value of that check at each moment, so it doesn't.
    pub fn eval_node<L: Ledger>(&mut self, node: u32, steps: &mut Steps<L>) -> bool
        requires node { HasNode self.old node }
        ensures tick { steps.new ≡ steps.old + 1 }

        // The node of the number meets its local equation then, and so does each other node that did,
        // unless this one feeds it. All nodes keep their numbers, and the answer is as it says.
        ensures works_out { (zones : List Zone) (checks : Checks) (reports : List Report) (n : Node)
            → IsLaidFor zones checks reports self.old → IsNumberOf zones self.old node n
            → WorksOut zones checks reports n self.old self.new result }

        // The same of its valve, where it has one of its own.
        ensures meets { (net : Net) (own : ℕ → ℕ) → ValvesStandFor net own self.old.valves → HasEnds net
            → node < size_of self.old.valves
            → MeetsEquation net own (value_of self.new.valves) node }
        ensures spares { (net : Net) (own : ℕ → ℕ) (n : ℕ) → ValvesStandFor net own self.old.valves
            → n ≢ node → (Feeds net node n → ⊥)
            → MeetsEquation net own (value_of self.old.valves) n
            → MeetsEquation net own (value_of self.new.valves) n }
        ensures others { (n : ℕ) → n ≢ node
            → value_of self.new.valves n ≡ value_of self.old.valves n }
        ensures changed { IsTrue result
            ↔ (value_of self.new.valves node ≢ value_of self.old.valves node) }

        ensures rest { self.new ≡ record self.old { valves = self.new.valves } }
        ensures size { size_of self.new.valves ≡ size_of self.old.valves }
        ensures links { links_of self.new.valves ≡ links_of self.old.valves }
        ensures fits { (net : Net) (own : ℕ → ℕ) → ValvesStandFor net own self.old.valves
            → ValvesStandFor net own self.new.valves }
        ensures idle { IsIdle self.new.valves }
    {
        views_agree();
        if node as usize >= self.valves.len() {
            steps.tick();
            return false;
        }
        self.valves.eval_node(node, steps)
    }

    /// The status of a check, and how many of its checkers see a pass, or how many of its children
    /// are healthy.
    pub fn check_status(&self, id: u32) -> Option<(bool, u16)>
        ensures { (zones : List Zone) (checks : Checks) (reports : List Report)
            → StandsFor zones checks reports self.now → result ≡ status_told checks.list reports id }
    {
        index_tells_health();
        let Some(place) = place_near(&self.ids, id) else {
            return None;
        };
        let valve = number_at(&self.numbers, place) as usize;
        let number = short(self.valves.count(valve));
        Some((self.valves.value(valve), number))
    }
}

impl HealthView for HealthIndex {
    ghost use Rattle.health_index.specs.Index.{healthy_in};

    ghost test = { healthy_in };

    fn is_healthy(&self, set: SetRef) -> bool
        ensures { result ≡ healthy_in self.now set }
    {
        match valve_of(&self.seats, set.slot) {
            Some(valve) => self.valves.value(valve),
            None => true,
        }
    }
}

/// A count that is small enough.
fn short(count: u32) -> u16
    ensures { count < 65536 → result ≡ count }
{
    if count < 65536 {
        count as u16
    } else {
        u16::MAX
    }
}

/// Whether something has to be open for a valve, as it has for that of each set and group.
fn is_taken(valves: &Valves, valve: usize) -> bool
    requires ready { IsReady valves.now }
    requires valve { valve < size_of valves.now }
    ensures { IsTrue result ↔ (Needs valves.now valve 0 → ⊥) }
{
    valves.need(valve) != 0
}
