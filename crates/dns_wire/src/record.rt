//! One record: its owner, ten octets, and its data with their length (RFC 1035, 4.1.3).

ghost use Rattle.std.specs.Prelude.{◌≡◌, ◌+◌, ◌≤◌, ◌++◌, length, take};
ghost use Rattle.rdata_layout.specs.Layout.{IsLayout};
ghost use Rattle.dns_wire.specs.Kept.{most_of_record};
ghost use Rattle.dns_wire.specs.Message.{fixed_octets, record_octets};

use crate::data::add_data;
use crate::pointers::add_name;
use octets::{four_octets, put_at, two_octets};
use rdata_layout::{Name, RType};

/// The octets of a record between its owner and its data.
const FIXED_LEN: usize = 10;

/// Writes a record at a place of the buffer, where `asked` is the name in the question, and says
/// where it ends.
pub(crate) fn add_record(
    buffer: &mut [u8],
    at: usize,
    asked: &Name,
    owner: &Name,
    rtype: RType,
    ttl: u32,
    wire: &[u8],
) -> usize
    requires room { at + most_of_record ≤ length buffer.old }
    requires layout { IsLayout rtype wire.now }
    ensures end { result
        ≡ at + length (record_octets asked.now (record {
          owner = owner.now;
          rtype = rtype;
          ttl = ttl;
          rdata = wire.now;
        })) }
    ensures written { take result buffer.new ≡ take at buffer.old
        ++ record_octets asked.now (record {
          owner = owner.now;
          rtype = rtype;
          ttl = ttl;
          rdata = wire.now;
        }) }
{
    let behind_owner = add_name(buffer, at, asked, owner);
    let data = behind_owner + FIXED_LEN;
    let end = add_data(buffer, data, asked, rtype, wire);
    let fixed = fixed_octets(rtype, ttl, (end - data) as u16);
    put_at(buffer, behind_owner, &fixed);
    end
}

/// A record from its type to its data's length.
fn fixed_octets(rtype: RType, ttl: u32, data_len: u16) -> [u8; 10]
    ensures { result ≡ fixed_octets rtype ttl data_len }
{
    let number = two_octets(rtype.number());
    let ttl = four_octets(ttl);
    let len = two_octets(data_len);
    [
        number[0], number[1], 0, 1, ttl[0], ttl[1], ttl[2], ttl[3], len[0], len[1],
    ]
}
