//! What is found of a query to which the reply is the same whoever asks.

ghost use Rattle.std.specs.Prelude.{◌≡◌, ◌≢◌, ◌<◌, ◌↔◌, [], IfSome, IsSome, None, Some, ℕ, Bool};
ghost use Rattle.dns_name.specs.Suffix.{EndsWith};
ghost use Rattle.query_engine.specs.Asking.{served_by};
ghost use Rattle.query_engine.specs.Looking.{IsApex};
ghost use Rattle.query_engine.specs.Sections.{Sections, asked_group, cut_above};
ghost use Rattle.query_engine.specs.Served.{IsFound, zone_of};
ghost use Rattle.record_set.specs.declared.sets.SetKey.{SetKey};
ghost use Rattle.reply_records.specs.Groups.{Agrees};
ghost use Rattle.rdata_layout.specs.declared.types.RType.TheVariants.{Cname};
ghost use Rattle.settled_replies.specs.Settling.{CanSettleBelow, CanSettleSets};
ghost use Rattle.settled_replies.specs.Findings.{HasSections, CanBeWritten, RepliesToAllFrom, aa_of, rcode_of, scope_with};
ghost use Rattle.zone_lookup.specs.Names.{source};
ghost use Rattle.zone_lookup.specs.Served.{AreServed};
ghost use Rattle.zone_lookup.specs.Standing.{HasStanding};
ghost use Rattle.zone_lookup.specs.ZonesOfZoneList.{placed_in};
ghost use Rattle.zone_model.specs.Zones.{group};

use crate::alone::scope_of_one;
use dns_message::Query;
use dns_message::rcode::NXDOMAIN;
use dns_name::Name;
use geo_latency::Tables;
use query_engine::{HealthView, Scratch, Zones};
use rdata_layout::RType;
use zone_lookup::{
    Found, Group, Standing, asked_group, cut_above, find_asked, group_of, known_few, names_exist,
    standing_of, zones_are_longest,
};

/// What is found of a query, whoever asks.
#[derive(Clone, Copy)]
pub(crate) enum Finding {
    /// The set that is held, alone; and this scope is told.
    Set(u8),
    /// The name exists, without a set of the type, nor a CNAME set (RFC 2308, 2.2).
    NoData,
    /// The name doesn't exist (RFC 2308, 2.1).
    NoName,
    /// The name is at or below this zone cut.
    Referral(Group),
}

/// What is found in the zone that holds the name, where it is so whoever asks. The set that is found is held
/// then.
pub(crate) fn finding_in<V: HealthView>(
    zones: &Zones,
    view: &V,
    tables: &Tables,
    zone: u32,
    apex: &Name,
    query: &Query,
    scratch: &mut Scratch,
) -> Option<Finding>
    requires served { AreServed zones.now.zones }
    requires found { IsFound zones.now.zones query.now.name zone apex.now }
    ensures there { IfSome result (λ finding. CanBeWritten zones.now.zones (zone_of zones.now.zones zone apex.now)
        query.now.name scratch.new finding) }
    ensures sections { IfSome result (λ finding. (found : Sections) × HasSections zones.now.zones
        (zone_of zones.now.zones zone apex.now) query.now.name scratch.new finding found
        × ((healthy : (zone : ℕ) → SetKey → Bool) → Agrees zones.now.zones (V.test view.now) healthy
        → RepliesToAllFrom (served_by zones.now.zones zones.now.collections.list healthy tables.now)
        (zone_of zones.now.zones zone apex.now) query.now found (scope_with finding))) }
    ensures exact { (healthy : (zone : ℕ) → SetKey → Bool) → Agrees zones.now.zones (V.test view.now) healthy
        → (IsSome result ↔ CanSettleBelow (served_by zones.now.zones zones.now.collections.list healthy tables.now) query.now
        (zone_of zones.now.zones zone apex.now) (cut_above (zone_of zones.now.zones zone apex.now) query.now.name)) }
{
    zones_are_longest();
    known_few(zones, zone, apex);
    match standing_in(zones, zone, apex, query, scratch) {
        Standing::Below(cut) => Some(Finding::Referral(cut)),
        Standing::Taken(from) => finding_from(
            zones, view, tables, zone, apex, query, &from, scratch,
        ),
        Standing::Absent => Some(Finding::NoName),
    }
}

/// What the name of a query is in a zone.
fn standing_in(
    zones: &Zones,
    zone: u32,
    apex: &Name,
    query: &Query,
    scratch: &mut Scratch,
) -> Standing
    requires there { IsApex zones.now.zones zone apex.now }
    requires inside { EndsWith query.now.name apex.now }
    requires some { placed_in zones.now.zones zone ≢ [] }
    ensures { HasStanding zones.now.zones (zone_of zones.now.zones zone apex.now) query.now.name result }
{
    names_exist();
    match find_asked(zones, zone, &query.name, query.qtype) {
        Found::Sets(_) => match cut_above(zones, zone, apex, &query.name) {
            Some(cut) => Standing::Below(cut),
            None => Standing::Taken(query.name),
        },
        Found::Place(place) => standing_of(zones, zone, apex, &query.name, place, scratch),
    }
}

/// What is found where the sets of a name are taken for the one that is asked for: one set of the type alone, or
/// that there is none of the type, nor a CNAME set.
fn finding_from<V: HealthView>(
    zones: &Zones,
    view: &V,
    tables: &Tables,
    zone: u32,
    apex: &Name,
    query: &Query,
    from: &Name,
    scratch: &mut Scratch,
) -> Option<Finding>
    requires served { AreServed zones.now.zones }
    requires apex { IsApex zones.now.zones zone apex.now }
    requires uncut { cut_above (zone_of zones.now.zones zone apex.now) query.now.name ≡ None }
    requires taken { source (zone_of zones.now.zones zone apex.now).sets query.now.name ≡ Some from.now }
    ensures there { IfSome result (λ finding. CanBeWritten zones.now.zones (zone_of zones.now.zones zone apex.now)
        query.now.name scratch.new finding) }
    ensures sections { IfSome result (λ finding. (found : Sections) × HasSections zones.now.zones
        (zone_of zones.now.zones zone apex.now) query.now.name scratch.new finding found
        × ((healthy : (zone : ℕ) → SetKey → Bool) → Agrees zones.now.zones (V.test view.now) healthy
        → RepliesToAllFrom (served_by zones.now.zones zones.now.collections.list healthy tables.now)
        (zone_of zones.now.zones zone apex.now) query.now found (scope_with finding))) }
    ensures exact { (healthy : (zone : ℕ) → SetKey → Bool) → Agrees zones.now.zones (V.test view.now) healthy
        → (IsSome result ↔ CanSettleSets (served_by zones.now.zones zones.now.collections.list healthy tables.now) query.now
        (zone_of zones.now.zones zone apex.now)
        (asked_group (zone_of zones.now.zones zone apex.now).sets from.now query.now.qtype)
        (group (zone_of zones.now.zones zone apex.now).sets from.now Cname)) }
{
    known_few(zones, zone, apex);
    match asked_group(zones, zone, from, query.qtype) {
        Some(group) => match scope_of_one(zones, view, tables, &query.edns, group, scratch) {
            Some(scope) => Some(Finding::Set(scope)),
            None => None,
        },
        None => match group_of(zones, zone, from, RType::Cname) {
            Some(_) => None,
            None => Some(Finding::NoData),
        },
    }
}

impl Finding {
    /// AA: all but a referral are authoritative (RFC 1034, 4.3.2, step 3b).
    pub(crate) fn aa(&self) -> bool
        ensures { result ≡ aa_of self.now }
    {
        !matches!(self, Finding::Referral(_))
    }

    /// RCODE.
    pub(crate) fn rcode(&self) -> u16
        ensures is { result ≡ rcode_of self.now }
        ensures most { result < 16 }
    {
        match self {
            Finding::NoName => u16::from(NXDOMAIN),
            _ => 0,
        }
    }

    /// The scope that is told.
    pub(crate) fn scope(&self) -> u8
        ensures { result ≡ scope_with self.now }
    {
        match self {
            Finding::Set(scope) => *scope,
            _ => 0,
        }
    }
}
