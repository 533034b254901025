//! The ends of an answer, one rule each.

ghost use Rattle.std.specs.Prelude.{◌≡◌, ◌<◌, slice_get, Some};
ghost use Rattle.zone_lookup.specs.Sections.{ends, no_data, nxdomain, referral};
ghost use Rattle.zone_lookup.specs.UsedRecord.{Used};
ghost use Rattle.dns_wire.specs.declared.reply.Section.TheVariants.{Answer};
ghost use Rattle.reply_records.specs.Groups.{sets_in, sets_in_zone};
ghost use Rattle.rdata_layout.specs.declared.types.RType.TheVariants as rtype;
ghost use Rattle.record_set.specs.declared.sets.RecordSet.{RecordSet};
ghost use Rattle.reply_records.specs.Writing.{TakesRecords};
ghost use Rattle.zone_lookup.specs.Served.{zone_of};
ghost use Rattle.zone_lookup.specs.Looking.{IsGroupNow};
ghost use Rattle.query_engine.specs.Asking.{EndsAs};

use crate::asking::{Asked, End};
use dns_wire::{Reply, records_add_up};
use reply_records::{write_delegation, write_soa};
use zone_lookup::{Group, Scratch, Zones};

/// NXDOMAIN (RFC 1035, 4.1.1).
const NXDOMAIN: u16 = 3;

/// No data: the name exists, without a record that answers (RFC 2308, 2.2).
pub(crate) fn answer_nodata(
    zones: &Zones,
    asked: &Asked,
    reply: &mut Reply,
    scratch: &mut Scratch,
) -> End
    requires { TakesRecords Answer reply.old }
    ensures ends { (used : Used)
        → EndsAs (no_data (zone_of zones.now.zones asked.now.zone asked.now.apex.now) used)
        reply.old reply.new result used }
    ensures rcode { result.rcode < 16 }
{
    records_add_up();
    write_soa(zones, asked.zone, asked.apex, reply, scratch);
    End { aa: true, rcode: 0 }
}

/// The name doesn't exist (RFC 2308, 2.1).
pub(crate) fn answer_nxdomain(
    zones: &Zones,
    asked: &Asked,
    reply: &mut Reply,
    scratch: &mut Scratch,
) -> End
    requires { TakesRecords Answer reply.old }
    ensures ends { (used : Used)
        → EndsAs (nxdomain (zone_of zones.now.zones asked.now.zone asked.now.apex.now) used)
        reply.old reply.new result used }
    ensures rcode { result.rcode < 16 }
{
    records_add_up();
    write_soa(zones, asked.zone, asked.apex, reply, scratch);
    End {
        aa: true,
        rcode: NXDOMAIN,
    }
}

/// A referral to the name servers of a zone cut, which isn't authoritative (RFC 1034, 4.3.2, step
/// 3b).
pub(crate) fn answer_referral(
    zones: &Zones,
    cut: Group,
    reply: &mut Reply,
    scratch: &mut Scratch,
) -> End
    requires group { IsGroupNow zones.now.zones cut }
    requires some { 0 < cut.length }
    requires servers { (set : RecordSet)
        → slice_get (sets_in zones.now.zones cut) 0 ≡ Some set → set.rtype ≡ rtype.Ns }
    requires open { TakesRecords Answer reply.old }
    ensures ends { (set : RecordSet) (used : Used)
        → slice_get (sets_in zones.now.zones cut) 0 ≡ Some set
        → EndsAs (referral (sets_in_zone zones.now.zones cut.zone) set used)
        reply.old reply.new result used }
    ensures rcode { result.rcode < 16 }
{
    records_add_up();
    write_delegation(zones, cut, reply, scratch);
    End {
        aa: false,
        rcode: 0,
    }
}
