//! The start of authority in a negative answer (RFC 2308, 3).

ghost use Rattle.std.specs.Prelude.{◌≡◌, ◌≤◌, length, map, min, Some};
ghost use Rattle.policy_select.specs.Records.{data_of, minimum_of, soa_record, soa_records, ttl_of};
ghost use Rattle.dns_wire.specs.declared.reply.Section.TheVariants.{Authority};
ghost use Rattle.policy_select.specs.Groups.{sets_in_zone};
ghost use Rattle.rdata_layout.specs.Layout.{IsLayout};
ghost use Rattle.rdata_layout.specs.declared.types.RType.TheVariants as rtype;
ghost use Rattle.record_set.specs.declared.sets.RecordSet.{RecordSet};
ghost use Rattle.policy_select.specs.Holding.{IsHolding};
ghost use Rattle.reply_records.specs.Writing.{TakesRecords, Writes};

use crate::held::{count_of, rdata_at, ttl_of, write_one};
use dns_name::Name;
use dns_wire::{Reply, Section, records_add_up};
use octets::long_at;
use policy_select::{Scratch, Zones, find_group, load_member};
use rdata_layout::{RType, types_have_their_own_number};

/// Writes the SOA of a zone into the authority section, with the lesser of its TTL and MINIMUM.
pub fn write_soa(zones: &Zones, zone: u32, apex: &Name, reply: &mut Reply, scratch: &mut Scratch)
    requires { TakesRecords Authority reply.old }
    ensures { Writes Authority (soa_records (record {
      id = zone;
      apex = apex.now;
      sets = sets_in_zone zones.now.zones zone;
    })) reply.old reply.new }
{
    records_add_up();
    types_have_their_own_number();
    let found = find_group(zones, zone, apex, RType::Soa);
    for i in 0..found.length {
        load_member(zones, found, i, scratch);
        write_held_soa(apex, reply, scratch);
    }
}

/// Writes the set that is held.
fn write_held_soa(apex: &Name, reply: &mut Reply, scratch: &Scratch)
    requires held { IsHolding scratch.now }
    requires soa { (set : RecordSet) → scratch.now ≡ Some set → set.rtype ≡ rtype.Soa }
    requires open { TakesRecords Authority reply.old }
    ensures { (set : RecordSet) → scratch.now ≡ Some set
        → Writes Authority (map (soa_record apex.now (ttl_of set.body)) (data_of set.body))
        reply.old reply.new }
{
    records_add_up();
    let ttl = ttl_of(scratch);
    for i in 0..count_of(scratch) {
        let rdata = rdata_at(scratch, RType::Soa, i);
        let negative = ttl.min(minimum(rdata));
        write_one(reply, Section::Authority, apex, RType::Soa, negative, rdata);
    }
}

/// MINIMUM, the last field of a SOA record's data (RFC 1035, 3.3.13).
fn minimum(rdata: &[u8]) -> u32
    requires { IsLayout rtype.Soa rdata.now }
    ensures { result ≡ minimum_of rdata.now }
{
    long_at(rdata, rdata.len() - 4)
}
