//! From a name to what it comes to, and along CNAME records.

ghost use Rattle.std.specs.Prelude.{◌≡◌, ◌≢◌, ◌<◌, ◌≤◌, ◌+◌, ◌*◌, ◌∷◌, [], ℕ, Bool, List, Some};
ghost use Rattle.std.specs.Prelude.{slice_get};
ghost use Rattle.zone_lookup.specs.Descent.{Choices, descend as descended};
ghost use Rattle.zone_lookup.specs.Records.{answer_records, data_of};
ghost use Rattle.zone_lookup.specs.Sections.{asked as answered, asked_group, canonical, ends};
ghost use Rattle.zone_lookup.specs.Sections.{look_up as found, step as step_at};
ghost use Rattle.zone_lookup.specs.Sections.{step_of};
ghost use Rattle.zone_lookup.specs.UsedRecord.{Used};
ghost use Rattle.dns_name.specs.Stored.{labels_of};
ghost use Rattle.dns_name.specs.Suffix.{EndsWith};
ghost use Rattle.dns_wire.specs.declared.reply.Section.TheVariants.{Answer};
ghost use Rattle.reply_records.specs.Groups.{Agrees, FewInGroups, sets_in, sets_in_zone};
ghost use Rattle.reply_records.specs.Selecting.{AreOfGroup, HoldsFirst, selected_sets};
ghost use Rattle.reply_records.specs.Holding.{IsHolding};
ghost use Rattle.rdata_layout.specs.declared.types.RType.TheVariants as rtype;
ghost use Rattle.record_set.specs.declared.sets.RecordSet.{RecordSet};
ghost use Rattle.record_set.specs.declared.sets.SetKey.{SetKey};
ghost use Rattle.reply_records.specs.Writing.{TakesRecords, Writes};
ghost use Rattle.set_search.specs.Found.{IsFirstNamed};
ghost use Rattle.zone_lookup.specs.ZonesOfZoneList.{placed_in};
ghost use Rattle.zone_lookup.specs.Cuts.{HasSets};
ghost use Rattle.zone_lookup.specs.Served.{AreServed};
ghost use Rattle.zone_model.specs.Existing.{Exists};
ghost use Rattle.zone_model.specs.Zones.{IsAmong, group};
ghost use Rattle.zone_lookup.specs.Looking.{IsApex, IsGroupNow};
ghost use Rattle.zone_lookup.specs.Seen.{IsSeen};
ghost use Rattle.query_engine.specs.Asking.{ComesTo, EndsWell, HoldsCname, HoldsNext, IsCname};
ghost use Rattle.query_engine.specs.Asking.{EndsAs, IsEnd, asked_of, choices_of};

use crate::asking::{Asked, End, Next, Progress};
use crate::ends::{answer_nodata, answer_nxdomain, answer_referral};
use dns_name::Name;
use dns_wire::{Reply, Section, records_add_up};
use geo_latency::Tables;
use rdata_layout::{RType, types_have_their_own_number};
use reply_records::{
    HealthView, Selected, descend_named, descend_seen, find_group, first_answers, first_record,
    name_in, views_agree, write_chosen, write_first, write_one,
};
use zone_lookup::{
    Found, Group, Scratch, Standing, Zones, asked_group, cut_above, cuts_are_nearest, find_asked,
    has_set_at, is_held_by, known_few, names_exist, standing_of,
};

/// The records of a group of the asked type, whose sets have the name that is taken for a name, answer
/// it. Where nothing is chosen it is no data.
#[inline(always)]
fn answer_group<V: HealthView>(
    zones: &Zones,
    view: &V,
    tables: &Tables,
    asked: &Asked,
    name: &Name,
    from: &Name,
    group: Group,
    progress: &mut Progress,
    reply: &mut Reply,
    scratch: &mut Scratch,
) -> End
    requires group { IsGroupNow zones.now.zones group }
    requires some { 0 < group.length }
    requires zone { group.zone ≡ asked.now.zone }
    requires named { (set : RecordSet) → IsAmong (sets_in zones.now.zones group) set
        → set.name ≡ from.now }
    requires few { FewInGroups (sets_in_zone zones.now.zones group.zone) }
    requires room { progress.old.count ≤ 238 }
    requires seen { IsSeen tables.now asked.now.client progress.old.seen }
    requires open { TakesRecords Answer reply.old }
    ensures ends { (healthy : ℕ → SetKey → Bool)
        → Agrees zones.now.zones (V.test view.now) healthy
        → IsEnd (answered (asked_of zones.now.zones zones.now.collections.list healthy tables.now
        asked.now) name.now
        (descended (asked_of zones.now.zones zones.now.collections.list healthy tables.now
        asked.now).means (sets_in_zone zones.now.zones asked.now.zone)
        (sets_in zones.now.zones group) (choices_of progress.old)))
        reply.old reply.new result progress.new.used }
    ensures rcode { result.rcode < 16 }
    ensures most { progress.new.count ≤ progress.old.count + 17 }
    ensures seen { IsSeen tables.now asked.now.client progress.new.seen }
{
    records_add_up();
    if first_answers(zones, group, scratch) {
        progress.count += 1;
        return answer_first(name, reply, scratch);
    }
    let selected = descend_named(
        zones,
        group,
        from,
        view,
        tables,
        asked.client,
        asked.words,
        &mut progress.count,
        &mut progress.used,
        &mut progress.seen,
        scratch,
    );
    match selected {
        Selected::Nothing => answer_nodata(zones, asked, reply, scratch),
        Selected::Sets(_, _) => answer_chosen(zones, &selected, name, reply, scratch),
    }
}

/// The records of a set that is held, and answers alone, answer a name.
fn answer_first(name: &Name, reply: &mut Reply, scratch: &Scratch) -> End
    requires held { IsHolding scratch.now }
    requires open { TakesRecords Answer reply.old }
    ensures ends { (set : RecordSet) (used : Used) → scratch.now ≡ Some set
        → EndsAs (record (ends used) { answers = answer_records name.now (set ∷ []) })
        reply.old reply.new result used }
    ensures rcode { result.rcode < 16 }
{
    write_first(name, reply, scratch);
    End { aa: true, rcode: 0 }
}

/// The records of chosen sets answer a name. The first of them is held.
fn answer_chosen(
    zones: &Zones,
    selected: &Selected,
    name: &Name,
    reply: &mut Reply,
    scratch: &mut Scratch,
) -> End
    requires places { AreOfGroup zones.now.zones selected.now }
    requires held { HoldsFirst zones.now.zones selected.now scratch.old }
    requires open { TakesRecords Answer reply.old }
    ensures ends { (used : Used) → EndsAs (record (ends used) {
      answers = answer_records name.now (selected_sets zones.now.zones selected.now);
    }) reply.old reply.new result used }
    ensures rcode { result.rcode < 16 }
{
    write_chosen(zones, selected, name, reply, scratch);
    End { aa: true, rcode: 0 }
}

/// What a name comes to by the CNAME sets that are taken for it: the first record, where they have
/// one, is followed. Else it is no data.
fn step_cname<V: HealthView>(
    zones: &Zones,
    view: &V,
    tables: &Tables,
    asked: &Asked,
    name: &Name,
    group: Group,
    progress: &mut Progress,
    reply: &mut Reply,
    scratch: &mut Scratch,
) -> Next
    requires group { IsGroupNow zones.now.zones group }
    requires zone { group.zone ≡ asked.now.zone }
    requires typed { (set : RecordSet) → IsAmong (sets_in zones.now.zones group) set
        → set.rtype ≡ rtype.Cname }
    requires few { FewInGroups (sets_in_zone zones.now.zones asked.now.zone) }
    requires room { progress.old.count ≤ 238 }
    requires seen { IsSeen tables.now asked.now.client progress.old.seen }
    requires open { TakesRecords Answer reply.old }
    ensures comes { (healthy : ℕ → SetKey → Bool)
        → Agrees zones.now.zones (V.test view.now) healthy
        → ComesTo (canonical (asked_of zones.now.zones zones.now.collections.list healthy tables.now
        asked.now) name.now
        (descended (asked_of zones.now.zones zones.now.collections.list healthy tables.now
        asked.now).means (sets_in_zone zones.now.zones asked.now.zone)
        (sets_in zones.now.zones group) (choices_of progress.old))) name.now
        reply.old reply.new scratch.new progress.new result }
    ensures held { HoldsNext scratch.new result }
    ensures rcode { EndsWell result }
    ensures most { progress.new.count ≤ progress.old.count + 17 }
    ensures seen { IsSeen tables.now asked.now.client progress.new.seen }
{
    records_add_up();
    views_agree();
    zones.well_formed();
    types_have_their_own_number();
    let selected = descend_seen(
        zones,
        group,
        view,
        tables,
        asked.client,
        asked.words,
        &mut progress.count,
        &mut progress.used,
        &mut progress.seen,
        scratch,
    );
    match first_record(zones, &selected, scratch) {
        None => Next::Ends(answer_nodata(zones, asked, reply, scratch)),
        Some(ttl) => Next::Follows(ttl),
    }
}

/// The same where none of its sets is of the asked type: its CNAME sets.
fn step_untyped<V: HealthView>(
    zones: &Zones,
    view: &V,
    tables: &Tables,
    asked: &Asked,
    name: &Name,
    from: &Name,
    progress: &mut Progress,
    reply: &mut Reply,
    scratch: &mut Scratch,
) -> Next
    requires few { FewInGroups (sets_in_zone zones.now.zones asked.now.zone) }
    requires none { asked_group (sets_in_zone zones.now.zones asked.now.zone) from.now
        asked.now.qtype ≡ [] }
    requires room { progress.old.count ≤ 238 }
    requires seen { IsSeen tables.now asked.now.client progress.old.seen }
    requires open { TakesRecords Answer reply.old }
    ensures comes { (healthy : ℕ → SetKey → Bool)
        → Agrees zones.now.zones (V.test view.now) healthy
        → ComesTo (step_of (asked_of zones.now.zones zones.now.collections.list healthy tables.now
        asked.now) name.now
        (asked_group (sets_in_zone zones.now.zones asked.now.zone) from.now asked.now.qtype)
        (group (sets_in_zone zones.now.zones asked.now.zone) from.now rtype.Cname)
        (choices_of progress.old)) name.now
        reply.old reply.new scratch.new progress.new result }
    ensures held { HoldsNext scratch.new result }
    ensures rcode { EndsWell result }
    ensures most { progress.new.count ≤ progress.old.count + 17 }
    ensures seen { IsSeen tables.now asked.now.client progress.new.seen }
{
    types_have_their_own_number();
    let cnames = find_group(zones, asked.zone, from, RType::Cname);
    step_cname(
        zones, view, tables, asked, name, cnames, progress, reply, scratch,
    )
}

/// What a name comes to by the sets of the name that are taken for it: those of the asked type, or
/// where there are none of these its CNAME sets.
fn step_from<V: HealthView>(
    zones: &Zones,
    view: &V,
    tables: &Tables,
    asked: &Asked,
    name: &Name,
    from: &Name,
    progress: &mut Progress,
    reply: &mut Reply,
    scratch: &mut Scratch,
) -> Next
    requires few { FewInGroups (sets_in_zone zones.now.zones asked.now.zone) }
    requires room { progress.old.count ≤ 238 }
    requires seen { IsSeen tables.now asked.now.client progress.old.seen }
    requires open { TakesRecords Answer reply.old }
    ensures comes { (healthy : ℕ → SetKey → Bool)
        → Agrees zones.now.zones (V.test view.now) healthy
        → ComesTo (step_of (asked_of zones.now.zones zones.now.collections.list healthy tables.now
        asked.now) name.now
        (asked_group (sets_in_zone zones.now.zones asked.now.zone) from.now asked.now.qtype)
        (group (sets_in_zone zones.now.zones asked.now.zone) from.now rtype.Cname)
        (choices_of progress.old)) name.now
        reply.old reply.new scratch.new progress.new result }
    ensures held { HoldsNext scratch.new result }
    ensures rcode { EndsWell result }
    ensures most { progress.new.count ≤ progress.old.count + 17 }
    ensures seen { IsSeen tables.now asked.now.client progress.new.seen }
{
    match asked_group(zones, asked.zone, from, asked.qtype) {
        Some(group) => {
            let end = answer_group(
                zones, view, tables, asked, name, from, group, progress, reply, scratch,
            );
            Next::Ends(end)
        }
        None => step_untyped(
            zones, view, tables, asked, name, from, progress, reply, scratch,
        ),
    }
}

/// What a name comes to that has no set of the asked type, by the name whose sets are taken for it.
fn step_taken<V: HealthView>(
    zones: &Zones,
    view: &V,
    tables: &Tables,
    asked: &Asked,
    name: &Name,
    from: &Name,
    progress: &mut Progress,
    reply: &mut Reply,
    scratch: &mut Scratch,
) -> Next
    requires few { FewInGroups (sets_in_zone zones.now.zones asked.now.zone) }
    requires none { asked_group (sets_in_zone zones.now.zones asked.now.zone) name.now
        asked.now.qtype ≡ [] }
    requires room { progress.old.count ≤ 238 }
    requires seen { IsSeen tables.now asked.now.client progress.old.seen }
    requires open { TakesRecords Answer reply.old }
    ensures comes { (healthy : ℕ → SetKey → Bool)
        → Agrees zones.now.zones (V.test view.now) healthy
        → ComesTo (step_of (asked_of zones.now.zones zones.now.collections.list healthy tables.now
        asked.now) name.now
        (asked_group (sets_in_zone zones.now.zones asked.now.zone) from.now asked.now.qtype)
        (group (sets_in_zone zones.now.zones asked.now.zone) from.now rtype.Cname)
        (choices_of progress.old)) name.now
        reply.old reply.new scratch.new progress.new result }
    ensures held { HoldsNext scratch.new result }
    ensures rcode { EndsWell result }
    ensures most { progress.new.count ≤ progress.old.count + 17 }
    ensures seen { IsSeen tables.now asked.now.client progress.new.seen }
{
    if from.is_same(name) {
        return step_untyped(
            zones, view, tables, asked, name, from, progress, reply, scratch,
        );
    }
    step_from(
        zones, view, tables, asked, name, from, progress, reply, scratch,
    )
}

/// What a name comes to that has sets, none of them of the asked type: a referral where it is below
/// a zone cut, else by its CNAME sets. It isn't copied.
fn step_known<V: HealthView>(
    zones: &Zones,
    view: &V,
    tables: &Tables,
    asked: &Asked,
    name: &Name,
    progress: &mut Progress,
    reply: &mut Reply,
    scratch: &mut Scratch,
) -> Next
    requires there { IsApex zones.now.zones asked.now.zone asked.now.apex.now }
    requires inside { EndsWith name.now asked.now.apex.now }
    requires exists { Exists (sets_in_zone zones.now.zones asked.now.zone) name.now }
    requires few { FewInGroups (sets_in_zone zones.now.zones asked.now.zone) }
    requires none { asked_group (sets_in_zone zones.now.zones asked.now.zone) name.now
        asked.now.qtype ≡ [] }
    requires room { progress.old.count ≤ 238 }
    requires seen { IsSeen tables.now asked.now.client progress.old.seen }
    requires open { TakesRecords Answer reply.old }
    ensures comes { (healthy : ℕ → SetKey → Bool)
        → Agrees zones.now.zones (V.test view.now) healthy
        → ComesTo (step_at (asked_of zones.now.zones zones.now.collections.list healthy tables.now
        asked.now) name.now (choices_of progress.old)) name.now
        reply.old reply.new scratch.new progress.new result }
    ensures held { HoldsNext scratch.new result }
    ensures rcode { EndsWell result }
    ensures most { progress.new.count ≤ progress.old.count + 17 }
    ensures seen { IsSeen tables.now asked.now.client progress.new.seen }
{
    cuts_are_nearest();
    names_exist();
    match cut_above(zones, asked.zone, asked.apex, name) {
        Some(cut) => Next::Ends(answer_referral(zones, cut, reply, scratch)),
        None => step_untyped(
            zones, view, tables, asked, name, name, progress, reply, scratch,
        ),
    }
}

/// What a name comes to that has no set of the asked type: a referral where it is below a zone cut,
/// else by what stands for it.
// Apart from the way that most queries take, which is inlined.
#[inline(never)]
fn step_standing<V: HealthView>(
    zones: &Zones,
    view: &V,
    tables: &Tables,
    asked: &Asked,
    name: &Name,
    place: usize,
    progress: &mut Progress,
    reply: &mut Reply,
    scratch: &mut Scratch,
) -> Next
    requires there { IsApex zones.now.zones asked.now.zone asked.now.apex.now }
    requires inside { EndsWith name.now asked.now.apex.now }
    requires some { placed_in zones.now.zones asked.now.zone ≢ [] }
    requires few { FewInGroups (sets_in_zone zones.now.zones asked.now.zone) }
    requires none { asked_group (sets_in_zone zones.now.zones asked.now.zone) name.now
        asked.now.qtype ≡ [] }
    requires place { IsFirstNamed (sets_in_zone zones.now.zones asked.now.zone) name.now place }
    requires room { progress.old.count ≤ 238 }
    requires seen { IsSeen tables.now asked.now.client progress.old.seen }
    requires open { TakesRecords Answer reply.old }
    ensures comes { (healthy : ℕ → SetKey → Bool)
        → Agrees zones.now.zones (V.test view.now) healthy
        → ComesTo (step_at (asked_of zones.now.zones zones.now.collections.list healthy tables.now
        asked.now) name.now (choices_of progress.old)) name.now
        reply.old reply.new scratch.new progress.new result }
    ensures held { HoldsNext scratch.new result }
    ensures rcode { EndsWell result }
    ensures most { progress.new.count ≤ progress.old.count + 17 }
    ensures seen { IsSeen tables.now asked.now.client progress.new.seen }
{
    cuts_are_nearest();
    if has_set_at(zones, asked.zone, place, name) {
        return step_known(zones, view, tables, asked, name, progress, reply, scratch);
    }
    match standing_of(zones, asked.zone, asked.apex, name, place, scratch) {
        Standing::Below(cut) => Next::Ends(answer_referral(zones, cut, reply, scratch)),
        Standing::Taken(from) => step_taken(
            zones, view, tables, asked, name, &from, progress, reply, scratch,
        ),
        Standing::Absent => Next::Ends(answer_nxdomain(zones, asked, reply, scratch)),
    }
}

/// What a name comes to that has sets of the asked type: a referral where it is below a zone cut,
/// else these answer.
#[inline(always)]
fn step_typed<V: HealthView>(
    zones: &Zones,
    view: &V,
    tables: &Tables,
    asked: &Asked,
    name: &Name,
    group: Group,
    progress: &mut Progress,
    reply: &mut Reply,
    scratch: &mut Scratch,
) -> Next
    requires there { IsApex zones.now.zones asked.now.zone asked.now.apex.now }
    requires inside { EndsWith name.now asked.now.apex.now }
    requires few { FewInGroups (sets_in_zone zones.now.zones asked.now.zone) }
    requires has { HasSets zones.now.zones asked.now.zone
        (asked_group (sets_in_zone zones.now.zones asked.now.zone) name.now asked.now.qtype) group }
    requires room { progress.old.count ≤ 238 }
    requires seen { IsSeen tables.now asked.now.client progress.old.seen }
    requires open { TakesRecords Answer reply.old }
    ensures comes { (healthy : ℕ → SetKey → Bool)
        → Agrees zones.now.zones (V.test view.now) healthy
        → ComesTo (step_at (asked_of zones.now.zones zones.now.collections.list healthy tables.now
        asked.now) name.now (choices_of progress.old)) name.now
        reply.old reply.new scratch.new progress.new result }
    ensures held { HoldsNext scratch.new result }
    ensures rcode { EndsWell result }
    ensures most { progress.new.count ≤ progress.old.count + 17 }
    ensures seen { IsSeen tables.now asked.now.client progress.new.seen }
{
    cuts_are_nearest();
    names_exist();
    match cut_above(zones, asked.zone, asked.apex, name) {
        Some(cut) => Next::Ends(answer_referral(zones, cut, reply, scratch)),
        None => {
            let end = answer_group(
                zones, view, tables, asked, name, name, group, progress, reply, scratch,
            );
            Next::Ends(end)
        }
    }
}

/// What a name comes to. Its sets of the asked type are looked for first: where there are some the
/// name exists.
#[inline(always)]
fn step<V: HealthView>(
    zones: &Zones,
    view: &V,
    tables: &Tables,
    asked: &Asked,
    name: &Name,
    progress: &mut Progress,
    reply: &mut Reply,
    scratch: &mut Scratch,
) -> Next
    requires served { AreServed zones.now.zones }
    requires there { IsApex zones.now.zones asked.now.zone asked.now.apex.now }
    requires inside { EndsWith name.now asked.now.apex.now }
    requires room { progress.old.count ≤ 238 }
    requires seen { IsSeen tables.now asked.now.client progress.old.seen }
    requires open { TakesRecords Answer reply.old }
    ensures comes { (healthy : ℕ → SetKey → Bool)
        → Agrees zones.now.zones (V.test view.now) healthy
        → ComesTo (step_at (asked_of zones.now.zones zones.now.collections.list healthy tables.now
        asked.now) name.now (choices_of progress.old)) name.now
        reply.old reply.new scratch.new progress.new result }
    ensures held { HoldsNext scratch.new result }
    ensures rcode { EndsWell result }
    ensures most { progress.new.count ≤ progress.old.count + 17 }
    ensures seen { IsSeen tables.now asked.now.client progress.new.seen }
{
    known_few(zones, asked.zone, asked.apex);
    match find_asked(zones, asked.zone, name, asked.qtype) {
        Found::Sets(group) => step_typed(
            zones, view, tables, asked, name, group, progress, reply, scratch,
        ),
        Found::Place(place) => step_standing(
            zones, view, tables, asked, name, place, progress, reply, scratch,
        ),
    }
}

/// Looks a name up, and answers, with so many CNAME records more at most.
#[cycle(look_up)]
#[inline(always)]
pub(crate) fn look_up<V: HealthView>(
    most: u8,
    zones: &Zones,
    view: &V,
    tables: &Tables,
    asked: &Asked,
    name: &Name,
    progress: &mut Progress,
    reply: &mut Reply,
    scratch: &mut Scratch,
) -> End
    requires served { AreServed zones.now.zones }
    requires there { IsApex zones.now.zones asked.now.zone asked.now.apex.now }
    requires inside { EndsWith name.now asked.now.apex.now }
    requires room { progress.old.count + 17 * most ≤ 238 }
    requires seen { IsSeen tables.now asked.now.client progress.old.seen }
    requires open { TakesRecords Answer reply.old }
    ensures found { (healthy : ℕ → SetKey → Bool)
        → Agrees zones.now.zones (V.test view.now) healthy
        → EndsAs (found most (asked_of zones.now.zones zones.now.collections.list healthy tables.now
        asked.now) name.now (choices_of progress.old))
        reply.old reply.new result progress.new.used }
    ensures rcode { result.rcode < 16 }
    ensures seen { IsSeen tables.now asked.now.client progress.new.seen }
{
    views_agree();
    zones.well_formed();
    match step(zones, view, tables, asked, name, progress, reply, scratch) {
        Next::Ends(end) => end,
        Next::Follows(ttl) => follow_cname(
            most, zones, view, tables, asked, name, ttl, progress, reply, scratch,
        ),
    }
}

/// Writes the CNAME record to which a name came, whose set is held, and answers by what its target
/// comes to.
// Apart from the way that most queries take: it copies names.
#[cycle(look_up)]
#[inline(never)]
fn follow_cname<V: HealthView>(
    most: u8,
    zones: &Zones,
    view: &V,
    tables: &Tables,
    asked: &Asked,
    name: &Name,
    ttl: u32,
    progress: &mut Progress,
    reply: &mut Reply,
    scratch: &mut Scratch,
) -> End
    requires served { AreServed zones.now.zones }
    requires there { IsApex zones.now.zones asked.now.zone asked.now.apex.now }
    requires held { HoldsCname scratch.old }
    requires room { progress.old.count + 17 * most ≤ 255 }
    requires seen { IsSeen tables.now asked.now.client progress.old.seen }
    requires open { TakesRecords Answer reply.old }
    ensures found { (healthy : ℕ → SetKey → Bool) (choices : Choices)
        → Agrees zones.now.zones (V.test view.now) healthy
        → IsCname (step_at (asked_of zones.now.zones zones.now.collections.list healthy tables.now
        asked.now) name.now choices) name.now scratch.old ttl (choices_of progress.old)
        → EndsAs (found most (asked_of zones.now.zones zones.now.collections.list healthy tables.now
        asked.now) name.now choices)
        reply.old reply.new result progress.new.used }
    ensures rcode { result.rcode < 16 }
    ensures seen { IsSeen tables.now asked.now.client progress.new.seen }
{
    if most == 0 {
        return End { aa: true, rcode: 0 };
    }
    write_cname(name, ttl, reply, scratch);
    let target = target_held(scratch);
    if !is_held_by(zones, &target, asked.zone) {
        return End { aa: true, rcode: 0 };
    }
    let end = look_up(
        most - 1,
        zones,
        view,
        tables,
        asked,
        &target,
        progress,
        reply,
        scratch,
    );
    End {
        aa: true,
        rcode: end.rcode,
    }
}

/// The target of a CNAME record, whose set is held.
fn target_held(scratch: &Scratch) -> Name
    requires { HoldsCname scratch.now }
    ensures { (set : RecordSet) (rdata : List ℕ) → scratch.now ≡ Some set
        → slice_get (data_of set.body) 0 ≡ Some rdata → result ≡ labels_of rdata }
{
    name_in(scratch.value(0))
}

/// Writes a CNAME record, whose set is held.
fn write_cname(name: &Name, ttl: u32, reply: &mut Reply, scratch: &Scratch)
    requires held { HoldsCname scratch.now }
    requires open { TakesRecords Answer reply.old }
    ensures { (set : RecordSet) (rdata : List ℕ) → scratch.now ≡ Some set
        → slice_get (data_of set.body) 0 ≡ Some rdata
        → Writes Answer (record {
          owner = name.now;
          rtype = rtype.Cname;
          ttl = ttl;
          rdata = rdata;
        } ∷ []) reply.old reply.new }
{
    write_one(
        reply,
        Section::Answer,
        name,
        RType::Cname,
        ttl,
        scratch.value(0),
    );
}
