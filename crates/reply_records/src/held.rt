//! Records of the set that a scratch holds.

ghost use Rattle.std.specs.Prelude.{◌≡◌, ◌<◌, ◌∷◌, [], ℕ, IsTrue, length, slice_get, Some, true};
ghost use Rattle.policy_select.specs.Records.{data_of, records, ttl_of};
ghost use Rattle.dns_wire.specs.Message.{Record};
ghost use Rattle.rdata_layout.specs.Layout.{IsLayout};
ghost use Rattle.record_set.specs.declared.sets.RecordSet.{RecordSet};
ghost use Rattle.policy_select.specs.Holding.{HasValue, IsHolding};
ghost use Rattle.reply_records.specs.Writing.{TakesRecords, Writes};

use dns_name::Name;
use dns_wire::{Reply, Section, records_add_up};
use policy_select::Scratch;
use rdata_layout::RType;

/// Writes one record.
pub fn write_one(
    reply: &mut Reply,
    section: Section,
    owner: &Name,
    rtype: RType,
    ttl: u32,
    rdata: &[u8],
)
    requires open { TakesRecords section reply.old }
    requires layout { IsLayout rtype rdata.now }
    ensures { Writes section (record {
      owner = owner.now;
      rtype = rtype;
      ttl = ttl;
      rdata = rdata.now;
    } ∷ []) reply.old reply.new }
{
    records_add_up();
    reply.record(section, owner, rtype, ttl, rdata);
}

/// Writes one record, and tells whether that shows the reply to be cut: with a record more it has no
/// more octets then.
pub(crate) fn write_or_cut(
    reply: &mut Reply,
    section: Section,
    owner: &Name,
    rtype: RType,
    ttl: u32,
    rdata: &[u8],
) -> bool
    requires open { TakesRecords section reply.old }
    requires layout { IsLayout rtype rdata.now }
    ensures written { Writes section (record {
      owner = owner.now;
      rtype = rtype;
      ttl = ttl;
      rdata = rdata.now;
    } ∷ []) reply.old reply.new }
    ensures truncated { IsTrue result → reply.new.is_truncated ≡ true }
{
    records_add_up();
    let before = reply.bytes().len();
    write_one(reply, section, owner, rtype, ttl, rdata);
    reply.bytes().len() <= before
}

/// Writes the values of the set that is held, as records of this name with this TTL.
pub fn write_values(reply: &mut Reply, section: Section, owner: &Name, ttl: u32, scratch: &Scratch)
    requires open { TakesRecords section reply.old }
    requires held { IsHolding scratch.now }
    ensures { (set : RecordSet) → scratch.now ≡ Some set
        → Writes section (records owner.now set.rtype ttl (data_of set.body))
        reply.old reply.new }
{
    write_until_cut(reply, section, owner, ttl, scratch);
}

/// Writes them, and tells whether the reply is known to be cut. It ends with the first record that
/// shows this: none behind it is seen.
pub(crate) fn write_until_cut(
    reply: &mut Reply,
    section: Section,
    owner: &Name,
    ttl: u32,
    scratch: &Scratch,
) -> bool
    requires open { TakesRecords section reply.old }
    requires held { IsHolding scratch.now }
    ensures written { (set : RecordSet) → scratch.now ≡ Some set
        → Writes section (records owner.now set.rtype ttl (data_of set.body))
        reply.old reply.new }
    ensures truncated { IsTrue result → reply.new.is_truncated ≡ true }
{
    records_add_up();
    let rtype = rtype_of(scratch);
    for i in 0..count_of(scratch) {
        let rdata = rdata_at(scratch, rtype, i);
        if write_or_cut(reply, section, owner, rtype, ttl, rdata) {
            return true;
        }
    }
    false
}

/// The data of a value of the set that is held, which has this type.
pub(crate) fn rdata_at(scratch: &Scratch, rtype: RType, i: usize) -> &[u8]
    requires value { HasValue scratch.now i }
    requires rtype { (set : RecordSet) → scratch.now ≡ Some set → set.rtype ≡ rtype }
    ensures at { (set : RecordSet) → scratch.now ≡ Some set
        → slice_get (data_of set.body) i ≡ Some result.now }
    ensures layout { IsLayout rtype result.now }
{
    scratch.value(i)
}

/// The TTL of the set that is held.
pub(crate) fn ttl_of(scratch: &Scratch) -> u32
    requires { IsHolding scratch.now }
    ensures { (set : RecordSet) → scratch.now ≡ Some set → result ≡ ttl_of set.body }
{
    scratch.ttl()
}

/// The type of the set that is held.
pub(crate) fn rtype_of(scratch: &Scratch) -> RType
    requires { IsHolding scratch.now }
    ensures { (set : RecordSet) → scratch.now ≡ Some set → set.rtype ≡ result }
{
    scratch.rtype()
}

/// How many values the set that is held has.
pub(crate) fn count_of(scratch: &Scratch) -> usize
    requires { IsHolding scratch.now }
    ensures count { (set : RecordSet) → scratch.now ≡ Some set
        → result ≡ length (data_of set.body) }
    ensures places { (i : ℕ) → i < result → HasValue scratch.now i }
{
    scratch.values()
}
