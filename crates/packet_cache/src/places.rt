//! Places, each with what stands behind the ID of a packet and of its reply, and how many and how large they are.

ghost use Rattle.std.specs.Prelude.{◌≡◌, ◌≤◌, ◌+◌, length, Some, IfSome};
ghost use Rattle.packet_cache.specs.Kept.{Kept};
ghost use Rattle.packet_cache.specs.Places.{kept_in, told};

use octets::{behind, front, put_at};

/// How many places there are: a power of two.
pub(crate) const PLACES: usize = 32_768;

/// How many octets a place has, for what stands behind the IDs of a packet and of its reply together.
pub(crate) const ROOM: usize = 250;

/// A place, of 256 octets: a negative reply with its SOA record fits, as most referrals do.
#[derive(Clone, Copy)]
pub(crate) struct Place {
    /// In which generation it was taken.
    pub generation: u32,
    /// How many octets of the packet stand in front.
    pub packet_len: u8,
    /// How many of the reply stand behind those.
    pub reply_len: u8,
    pub octets: [u8; ROOM],
}

/// A place that nothing took.
pub(crate) const FREE: Place = Place {
    generation: 0,
    packet_len: 0,
    reply_len: 0,
    octets: [0; ROOM],
};

/// A place with what stands behind the IDs of a packet and of its reply.
pub(crate) fn taken(generation: u32, packet_rest: &[u8], reply_rest: &[u8]) -> Place
    requires { length packet_rest.now + length reply_rest.now ≤ ROOM }
    ensures generation { result.generation ≡ generation }
    ensures told { told result ≡ record { packet_rest = packet_rest.now; reply_rest = reply_rest.now } }
{
    let mut place = FREE;
    put_at(&mut place.octets, 0, packet_rest);
    put_at(&mut place.octets, packet_rest.len(), reply_rest);
    place.generation = generation;
    place.packet_len = packet_rest.len() as u8;
    place.reply_len = reply_rest.len() as u8;
    place
}

/// What stands behind the ID of the reply that is kept in a place, where it is one to a packet behind whose ID these
/// octets stand.
pub(crate) fn reply_in<'a>(
    place: &'a Place,
    generation: u32,
    packet_rest: &[u8],
) -> Option<&'a [u8]>
    ensures { IfSome result (λ reply_rest. kept_in generation place.now
        ≡ Some (record { packet_rest = packet_rest.now; reply_rest = reply_rest.now })) }
{
    if place.generation != generation {
        return None;
    }
    let packet_len = place.packet_len as usize;
    let reply_len = place.reply_len as usize;
    if packet_len + reply_len > ROOM {
        return None;
    }
    if front(&place.octets, packet_len) != packet_rest {
        return None;
    }
    Some(front(behind(&place.octets, packet_len), reply_len))
}
