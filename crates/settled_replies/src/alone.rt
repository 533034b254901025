//! Whether a group comes to one set alone, whoever asks.

ghost use Rattle.std.specs.Prelude.{◌≡◌, ◌<◌, ◌↔◌, Bool, ℕ, List, IfSome, IsSome, IsTrue, None, Some, slice_get};
ghost use Rattle.address_text.specs.declared.address.IpAddress.{IpAddress};
ghost use Rattle.dns_message.specs.Whole.{subnet_of};
ghost use Rattle.query_engine.specs.Groups.{sets_in};
ghost use Rattle.query_engine.specs.Looking.{IsGroupNow};
ghost use Rattle.query_engine.specs.Reply.{told_scope};
ghost use Rattle.record_set.specs.Reasons.{IsAlias};
ghost use Rattle.record_set.specs.declared.sets.RecordSet.{RecordSet};
ghost use Rattle.record_set.specs.declared.sets.SetKey.{SetKey};
ghost use Rattle.reply_records.specs.Groups.{Agrees, FewInGroups, sets_in_zone};
ghost use Rattle.reply_records.specs.Holding.{IsHolding};
ghost use Rattle.set_octets.specs.Octets.{HasSpelling};
ghost use Rattle.settled_replies.specs.Alone.{ComesTo, IsOne, IsWordless};
ghost use Rattle.settled_replies.specs.Settling.{EndsWithOne, IsSureBy, TellsClient};
ghost use Rattle.zone_lookup.specs.Clients.{client_address, client_with};
ghost use Rattle.zone_lookup.specs.UsedRecord.{Used};

use address_text::IpAddress;
use dns_message::Edns;
use geo_latency::Tables;
use policy_select::{load_member, places_of};
use query_engine::{HealthView, Scratch, Zones, client_address, told_scope};
use reply_records::{Selected, descend_held};
use routing::Routing;
use zone_lookup::{Group, Seen, Used};

/// The scope where a group comes to one set alone, whoever asks; it is held then.
pub(crate) fn scope_of_one<V: HealthView>(
    zones: &Zones,
    view: &V,
    tables: &Tables,
    edns: &Option<Edns>,
    group: Group,
    scratch: &mut Scratch,
) -> Option<u8>
    requires group { IsGroupNow zones.now.zones group }
    requires some { 0 < group.length }
    requires few { FewInGroups (sets_in_zone zones.now.zones group.zone) }
    ensures front { (first : RecordSet) × (slice_get (sets_in zones.now.zones group) 0 ≡ Some first) }
    ensures held { IfSome result (λ scope. IsHolding scratch.new) }
    ensures comes { IfSome result (λ scope. (set : RecordSet) × (scratch.new ≡ Some set)
        × ((healthy : (zone : ℕ) → SetKey → Bool) → Agrees zones.now.zones (V.test view.now) healthy
        → (peer : IpAddress) → (used : Used)
        × (ComesTo (healthy group.zone)
        (client_with tables.now zones.now.collections.list (client_address (subnet_of edns.now) peer))
        (sets_in_zone zones.now.zones group.zone) (sets_in zones.now.zones group) set used
        × (told_scope (subnet_of edns.now)
        (client_with tables.now zones.now.collections.list (client_address (subnet_of edns.now) peer)) used ≡ scope)))) }

    // Then the policy is sure; where it is and none is told, not each asker comes to one set.
    ensures sure { IfSome result (λ scope. (first : RecordSet)
        → slice_get (sets_in zones.now.zones group) 0 ≡ Some first → IsSureBy first.routing (subnet_of edns.now)) }
    ensures none { result ≡ None → (first : RecordSet) → slice_get (sets_in zones.now.zones group) 0 ≡ Some first
        → IsSureBy first.routing (subnet_of edns.now) → (healthy : (zone : ℕ) → SetKey → Bool)
        → Agrees zones.now.zones (V.test view.now) healthy → ((peer : IpAddress) (words : List ℕ) → EndsWithOne (record {
          healthy = healthy group.zone;
          client = client_with tables.now zones.now.collections.list (client_address (subnet_of edns.now) peer);
          words = words;
        }) (sets_in_zone zones.now.zones group.zone) (sets_in zones.now.zones group)) → ⊥ }
{
    load_first(zones, group, scratch);
    match scratch.routing() {
        Routing::Simple => {
            if is_alias(scratch) {
                return None;
            }
            Some(0)
        }
        Routing::Failover(_, _) => {
            let nobody = IpAddress::V4([0; 4]);
            match scope_for(zones, view, tables, edns, nobody, group, scratch) {
                None => None,
                Some(_) => Some(0),
            }
        }
        Routing::Geolocation(_, _) => scope_for_told(zones, view, tables, edns, group, scratch),
        Routing::Latency(_, _) => scope_for_told(zones, view, tables, edns, group, scratch),
        Routing::Cidr(_, _, _) => scope_for_told(zones, view, tables, edns, group, scratch),
        Routing::Weighted(_, _) => None,
        Routing::Multivalue(_) => None,
    }
}

/// Loads the first set of a group.
fn load_first(zones: &Zones, group: Group, scratch: &mut Scratch)
    requires group { IsGroupNow zones.now.zones group }
    requires some { 0 < group.length }
    ensures { (set : RecordSet)
        × (slice_get (sets_in zones.now.zones group) 0 ≡ Some set)
        × (scratch.new ≡ Some set) × HasSpelling set }
{
    load_member(zones, group, 0, scratch);
}

/// Whether the set that is held is an alias.
fn is_alias(scratch: &Scratch) -> bool
    requires { IsHolding scratch.now }
    ensures { IfSome scratch.now (λ set. IsTrue result ↔ IsAlias set.body) }
{
    match scratch.alias() {
        None => false,
        Some(_) => true,
    }
}

/// The same of a group whose first set, which is held, has a policy that uses no word, where the query tells a subnet
/// of the client, so that the address from which it came doesn't matter.
fn scope_for_told<V: HealthView>(
    zones: &Zones,
    view: &V,
    tables: &Tables,
    edns: &Option<Edns>,
    group: Group,
    scratch: &mut Scratch,
) -> Option<u8>
    requires group { IsGroupNow zones.now.zones group }
    requires some { 0 < group.length }
    requires few { FewInGroups (sets_in_zone zones.now.zones group.zone) }
    requires first { (set : RecordSet)
        × (slice_get (sets_in zones.now.zones group) 0 ≡ Some set)
        × (scratch.old ≡ Some set) × HasSpelling set }
    requires wordless { (set : RecordSet) → scratch.old ≡ Some set → IsWordless set.routing }
    ensures held { IfSome result (λ scope. IsHolding scratch.new) }
    ensures comes { IfSome result (λ scope. (set : RecordSet) × (scratch.new ≡ Some set)
        × ((healthy : (zone : ℕ) → SetKey → Bool) → Agrees zones.now.zones (V.test view.now) healthy
        → (peer : IpAddress) → (used : Used)
        × (ComesTo (healthy group.zone)
        (client_with tables.now zones.now.collections.list (client_address (subnet_of edns.now) peer))
        (sets_in_zone zones.now.zones group.zone) (sets_in zones.now.zones group) set used
        × (told_scope (subnet_of edns.now)
        (client_with tables.now zones.now.collections.list (client_address (subnet_of edns.now) peer)) used ≡ scope)))) }
    ensures told { IsSome result → TellsClient (subnet_of edns.now) }
    ensures none { result ≡ None → TellsClient (subnet_of edns.now) → (healthy : (zone : ℕ) → SetKey → Bool)
        → Agrees zones.now.zones (V.test view.now) healthy → ((peer : IpAddress) (words : List ℕ) → EndsWithOne (record {
          healthy = healthy group.zone;
          client = client_with tables.now zones.now.collections.list (client_address (subnet_of edns.now) peer);
          words = words;
        }) (sets_in_zone zones.now.zones group.zone) (sets_in zones.now.zones group)) → ⊥ }
{
    match told_client(edns) {
        None => None,
        Some(client) => scope_for(zones, view, tables, edns, client, group, scratch),
    }
}

/// The client's address, where the query tells a subnet of it, whatever address it came from.
fn told_client(edns: &Option<Edns>) -> Option<IpAddress>
    ensures told { IsSome result ↔ TellsClient (subnet_of edns.now) }
    ensures is { IfSome result (λ client. (peer : IpAddress) → client_address (subnet_of edns.now) peer ≡ client) }
{
    let Some(told) = edns else {
        return None;
    };
    let Some(subnet) = told.subnet else {
        return None;
    };
    if subnet.source == 0 {
        return None;
    }
    Some(client_address(edns, IpAddress::V4([0; 4])))
}

/// The scope that a client is told where a group, whose first set is held, comes to one set alone for it: one choice tells
/// it, by a policy that uses no word, and it is no alias then.
fn scope_for<V: HealthView>(
    zones: &Zones,
    view: &V,
    tables: &Tables,
    edns: &Option<Edns>,
    client: IpAddress,
    group: Group,
    scratch: &mut Scratch,
) -> Option<u8>
    requires group { IsGroupNow zones.now.zones group }
    requires some { 0 < group.length }
    requires few { FewInGroups (sets_in_zone zones.now.zones group.zone) }
    requires first { (set : RecordSet)
        × (slice_get (sets_in zones.now.zones group) 0 ≡ Some set)
        × (scratch.old ≡ Some set) × HasSpelling set }
    requires wordless { (set : RecordSet) → scratch.old ≡ Some set → IsWordless set.routing }
    ensures held { IfSome result (λ scope. IsHolding scratch.new) }
    ensures comes { IfSome result (λ scope. (set : RecordSet) × (scratch.new ≡ Some set)
        × ((healthy : (zone : ℕ) → SetKey → Bool) → Agrees zones.now.zones (V.test view.now) healthy
        → (used : Used)
        × (ComesTo (healthy group.zone) (client_with tables.now zones.now.collections.list client)
        (sets_in_zone zones.now.zones group.zone) (sets_in zones.now.zones group) set used
        × (told_scope (subnet_of edns.now) (client_with tables.now zones.now.collections.list client) used
        ≡ scope)))) }
    ensures none { result ≡ None → (healthy : (zone : ℕ) → SetKey → Bool)
        → Agrees zones.now.zones (V.test view.now) healthy → ((words : List ℕ) → EndsWithOne (record {
          healthy = healthy group.zone;
          client = client_with tables.now zones.now.collections.list client;
          words = words;
        }) (sets_in_zone zones.now.zones group.zone) (sets_in zones.now.zones group)) → ⊥ }
{
    let mut choices = 0;
    let mut used = Used {
        places: false,
        latencies: false,
        blocks: 0,
    };
    let mut seen = Seen {
        places: None,
        latencies: None,
    };
    let selected = descend_held(
        zones,
        group,
        view,
        tables,
        client,
        &[0; 8],
        &mut choices,
        &mut used,
        &mut seen,
        scratch,
    );
    if choices != 1 {
        return None;
    }
    if !is_one(&selected) {
        return None;
    }
    Some(told_scope(zones, tables, edns, client, &used, &seen))
}

/// Whether one set is selected.
fn is_one(selected: &Selected) -> bool
    ensures { IsTrue result ↔ IsOne selected.now }
{
    match selected {
        Selected::Nothing => false,
        Selected::Sets(_, picked) => places_of(picked).len() == 1,
    }
}
