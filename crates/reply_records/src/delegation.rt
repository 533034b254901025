//! The name servers of a zone cut, and their addresses (RFC 1034, 4.2.1 and 4.3.2, step 3b).

ghost use Rattle.std.specs.Prelude.{◌≡◌, ◌<◌, ◌++◌, ℕ, IsTrue, map, slice_get, Some, take, true};
ghost use Rattle.std.specs.List.{flat_map};
ghost use Rattle.policy_select.specs.Records.{data_of, glue_of, set_records};
ghost use Rattle.dns_name.specs.Stored.{labels_of};
ghost use Rattle.dns_wire.specs.declared.reply.Section.TheVariants.{Additional, Authority};
ghost use Rattle.policy_select.specs.Groups.{sets_in, sets_in_zone};
ghost use Rattle.rdata_layout.specs.Layout.{IsLayout};
ghost use Rattle.rdata_layout.specs.declared.types.RType.TheVariants as rtype;
ghost use Rattle.record_set.specs.declared.sets.RecordSet.{RecordSet};
ghost use Rattle.policy_select.specs.Holding.{HasValue, IsHolding};
ghost use Rattle.policy_select.specs.Looking.{IsGroupNow};
ghost use Rattle.reply_records.specs.Delegating.{AreAddresses, Delegates, servers_glue};
ghost use Rattle.reply_records.specs.Delegating.{simple_part};
ghost use Rattle.reply_records.specs.Writing.{TakesRecords, Writes};

use crate::held::{count_of, rdata_at, ttl_of, write_until_cut};
use dns_name::Name;
use dns_wire::{Reply, Section, records_add_up};
use policy_select::{Group, Scratch, Zones, find_group, load_member};
use rdata_layout::RType;
use routing::Routing;

/// Writes the NS records of a zone cut into the authority section, and then for each of its name
/// servers the addresses that the zone has of it into the additional section.
pub fn write_delegation(zones: &Zones, cut: Group, reply: &mut Reply, scratch: &mut Scratch)
    requires group { IsGroupNow zones.now.zones cut }
    requires some { 0 < cut.length }
    requires servers { (set : RecordSet)
        → slice_get (sets_in zones.now.zones cut) 0 ≡ Some set → set.rtype ≡ rtype.Ns }
    requires open { TakesRecords Authority reply.old }
    ensures { (set : RecordSet) → slice_get (sets_in zones.now.zones cut) 0 ≡ Some set
        → Delegates (sets_in_zone zones.now.zones cut.zone) set reply.old reply.new }
{
    records_add_up();
    load_member(zones, cut, 0, scratch);
    if write_held(reply, Section::Authority, scratch) {
        return;
    }
    write_all_glue(zones, cut, reply, scratch);
}

/// Writes the records of the set that is held as they stand, and tells whether the reply is known to
/// be cut.
fn write_held(reply: &mut Reply, section: Section, scratch: &Scratch) -> bool
    requires held { IsHolding scratch.now }
    requires open { TakesRecords section reply.old }
    ensures written { (set : RecordSet) → scratch.now ≡ Some set
        → Writes section (set_records set) reply.old reply.new }
    ensures truncated { IsTrue result → reply.new.is_truncated ≡ true }
{
    let owner = scratch.name();
    write_until_cut(reply, section, &owner, ttl_of(scratch), scratch)
}

/// Writes the addresses of the name servers of a zone cut. Its first set is held.
fn write_all_glue(zones: &Zones, cut: Group, reply: &mut Reply, scratch: &mut Scratch)
    requires group { IsGroupNow zones.now.zones cut }
    requires some { 0 < cut.length }
    requires servers { (set : RecordSet)
        → slice_get (sets_in zones.now.zones cut) 0 ≡ Some set → set.rtype ≡ rtype.Ns }
    requires held { scratch.old ≡ slice_get (sets_in zones.now.zones cut) 0 }
    requires open { TakesRecords Additional reply.old }
    ensures { (set : RecordSet) → slice_get (sets_in zones.now.zones cut) 0 ≡ Some set
        → Writes Additional
        (flat_map (glue_of (sets_in_zone zones.now.zones cut.zone))
        (map labels_of (data_of set.body))) reply.old reply.new }
{
    let count = count_of(scratch);
    write_first_glue(zones, cut.zone, count, reply, scratch);
}

/// Writes the addresses of the first name servers of the NS set that is held, and tells whether the
/// reply is known to be cut.
///
/// The addresses of the last one are found while the set is held, those before it are written, and
/// then its own: the set isn't loaded again.
fn write_first_glue(
    zones: &Zones,
    zone: u32,
    count: usize,
    reply: &mut Reply,
    scratch: &mut Scratch,
) -> bool
    requires held { IsHolding scratch.old }
    requires servers { (set : RecordSet) → scratch.old ≡ Some set → set.rtype ≡ rtype.Ns }
    requires values { (i : ℕ) → i < count → HasValue scratch.old i }
    requires open { TakesRecords Additional reply.old }
    ensures written { (set : RecordSet) → scratch.old ≡ Some set
        → Writes Additional (servers_glue (sets_in_zone zones.now.zones zone)
        (take count (data_of set.body))) reply.old reply.new }
    ensures truncated { IsTrue result → reply.new.is_truncated ≡ true }
{
    records_add_up();
    if count == 0 {
        return false;
    }
    let found = find_addresses(zones, zone, rdata_at(scratch, RType::Ns, count - 1));
    if write_first_glue(zones, zone, count - 1, reply, scratch) {
        return true;
    }
    write_addresses(zones, &found, reply, scratch)
}

/// The sets of the addresses of a name server.
#[derive(Clone, Copy)]
struct Addresses {
    /// Those of type A.
    four: Group,
    /// Those of type AAAA.
    six: Group,
}

/// The sets of the addresses of a name server, which is the data of an NS record.
fn find_addresses(zones: &Zones, zone: u32, rdata: &[u8]) -> Addresses
    requires { IsLayout rtype.Ns rdata.now }
    ensures { AreAddresses zones.now.zones zone (labels_of rdata.now) result }
{
    let server = name_in(rdata);
    Addresses {
        four: find_group(zones, zone, &server, RType::A),
        six: find_group(zones, zone, &server, RType::Aaaa),
    }
}

/// The name that is the data of an NS or a CNAME record.
pub fn name_in(rdata: &[u8]) -> Name
    requires { IsLayout rtype.Ns rdata.now }
    ensures { result ≡ labels_of rdata.now }
{
    match Name::from_wire(rdata) {
        Some((name, _)) => name,
        None => unreachable!(),
    }
}

/// Writes the addresses of a name server, and tells whether the reply is known to be cut.
fn write_addresses(
    zones: &Zones,
    found: &Addresses,
    reply: &mut Reply,
    scratch: &mut Scratch,
) -> bool
    requires four { IsGroupNow zones.now.zones found.now.four }
    requires six { IsGroupNow zones.now.zones found.now.six }
    requires open { TakesRecords Additional reply.old }
    ensures written { Writes Additional
        (flat_map simple_part (sets_in zones.now.zones found.now.four)
        ++ flat_map simple_part (sets_in zones.now.zones found.now.six))
        reply.old reply.new }
    ensures truncated { IsTrue result → reply.new.is_truncated ≡ true }
{
    records_add_up();
    if write_simple(zones, found.four, reply, scratch) {
        return true;
    }
    write_simple(zones, found.six, reply, scratch)
}

/// Writes the records of the simple sets of a group, and tells whether the reply is known to be cut.
fn write_simple(zones: &Zones, group: Group, reply: &mut Reply, scratch: &mut Scratch) -> bool
    requires group { IsGroupNow zones.now.zones group }
    requires open { TakesRecords Additional reply.old }
    ensures written { Writes Additional (flat_map simple_part (sets_in zones.now.zones group))
        reply.old reply.new }
    ensures truncated { IsTrue result → reply.new.is_truncated ≡ true }
{
    records_add_up();
    for i in 0..group.length {
        load_member(zones, group, i, scratch);
        if write_if_simple(reply, scratch) {
            return true;
        }
    }
    false
}

/// Writes the records of the set that is held where its routing is simple, and tells whether the
/// reply is known to be cut.
fn write_if_simple(reply: &mut Reply, scratch: &Scratch) -> bool
    requires held { IsHolding scratch.now }
    requires open { TakesRecords Additional reply.old }
    ensures written { (set : RecordSet) → scratch.now ≡ Some set
        → Writes Additional (simple_part set) reply.old reply.new }
    ensures truncated { IsTrue result → reply.new.is_truncated ≡ true }
{
    records_add_up();
    match scratch.routing() {
        Routing::Simple => write_held(reply, Section::Additional, scratch),
        _ => false,
    }
}
