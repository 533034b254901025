//! The cache.

ghost use Rattle.std.specs.Prelude.{◌≡◌, ◌≤◌, ◌+◌, ◌++◌, ℕ, List, drop, length, replicate, take, vec_capacity, [], IfOk, IfSome, None};
ghost use Rattle.packet_cache.specs.Kept.{Keeps, KeepsNoMoreBut, KeepsNothing, kept_of};
ghost use Rattle.packet_cache.specs.Places.{AreOfThePast, free, kept_at, told};

use crate::places::{FREE, PLACES, Place, ROOM, reply_in, taken};
use octets::{OutOfMemory, behind, front, put_at};
use std::alloc::Global;
use std::marker::Model;

/// A mark of no packet.
const NEVER: u32 = 3;

/// Of a mark, what is known of a packet: it came once.
const CAME: u32 = 0;

/// Its reply is kept.
const KEPT: u32 = 1;

/// Its reply isn't worth being kept.
const PASSED: u32 = 2;

/// Of so many packets at both of whose places others' replies are kept, one takes the first.
const STAYS: u32 = 16;

/// Replies by packets.
#[derive(Drop)]
pub struct PacketCache {
    /// In which generation places are taken.
    generation: u32,
    /// What is known of the packet that was noted last at each place: in the low two bits that, in the next eight some of the
    /// generation in which it came, and in the others some of its key. Hints.
    marks: Vec<u32>,
    places: Vec<Place>,
    /// How many packets came to places of others' replies alone.
    others: u32,
}

impl Model for PacketCache {
    ghost use Rattle.std.specs.Prelude.{List, Option};
    ghost use Rattle.packet_cache.specs.Kept.{Kept};
    ghost use Rattle.packet_cache.specs.Places.{AreOfThePast, kept_at};

    ghost Value = { List (Option Kept) };

    ghost view = { λ c. kept_at c.generation c.places.items };

    ghost invariant = { λ c. AreOfThePast c.generation c.places.items };
}

impl PacketCache {
    /// A cache that keeps nothing. It takes eight megabytes, and no more later.
    pub fn new(alloc: Global) -> Result<PacketCache, OutOfMemory>
        ensures { IfOk result KeepsNothing }
    {
        let marks = vec![in alloc; NEVER; PLACES]?;
        let mut places = Vec::with_capacity(alloc, PLACES)?;
        lay_free(&mut places, PLACES);
        Ok(PacketCache {
            generation: 1,
            marks,
            places,
            others: 0,
        })
    }

    /// Keeps nothing any more; and nothing again, once this was called 2^32 times.
    pub fn clear(&mut self)
        ensures { KeepsNothing self.new }
    {
        if self.generation == u32::MAX {
            self.places.clear();
            return;
        }
        self.generation += 1;
    }

    /// Puts the reply that is kept for a packet, which is the front of these octets, in the place of that packet, and
    /// says how many octets it has. It has the packet's ID. The key may be any.
    pub fn answer(&self, key: u64, octets: &mut [u8], len: usize) -> Option<usize>
        requires { len ≤ length octets.old }
        ensures kept { IfSome result (λ n. (reply_rest : List ℕ) × Keeps self.now (record {
          packet_rest = drop 2 (take len octets.old);
          reply_rest = reply_rest;
        }) × (take n octets.new ≡ take 2 octets.old ++ reply_rest)) }
        ensures long { IfSome result (λ n. 2 ≤ len) }
        ensures within { IfSome result (λ n. n ≤ length octets.new) }
        ensures length { length octets.new ≡ length octets.old }
        ensures none { result ≡ None → octets.new ≡ octets.old }
    {
        let at = self.place_of(key, KEPT)?;
        if len < 2 {
            return None;
        }
        let place = self.places.get(at)?;
        let reply_rest = reply_in(place, self.generation, behind(front(octets, len), 2))?;
        let size = 2 + reply_rest.len();
        if size > octets.len() {
            return None;
        }
        put_at(octets, 2, reply_rest);
        Some(size)
    }

    /// Notes that a packet of this key came whose reply isn't kept, and says whether it is worth being kept: where such
    /// a packet came before, and was not passed by. Most of those at both of whose places others' replies are kept aren't
    /// noted, so that what is kept stays where more packets come than there are places.
    pub fn note(&mut self, key: u64) -> bool
        ensures { self.new ≡ self.old }
    {
        if self.place_of(key, CAME).is_some() {
            return true;
        }
        if self.place_of(key, PASSED).is_some() {
            return false;
        }
        if let Some(at) = self.place_for(key) {
            self.set_mark(at, mark_of(key, self.generation, CAME));
        }
        false
    }

    /// Notes that the reply to packets of this key isn't worth being kept, where it is noted that one came.
    pub fn pass_by(&mut self, key: u64)
        ensures { self.new ≡ self.old }
    {
        if let Some(at) = self.place_of(key, CAME) {
            self.set_mark(at, mark_of(key, self.generation, PASSED));
        }
    }

    /// Keeps the reply to a packet where both are short enough: at the place at which the packet is noted, or else at its
    /// first one, where another's reply may be kept.
    pub fn keep(&mut self, key: u64, packet: &[u8], reply: &[u8])
        ensures { KeepsNoMoreBut (kept_of packet.now reply.now) self.old self.new }
    {
        if packet.len() < 2 || reply.len() < 2 || packet.len() + reply.len() > ROOM + 4 {
            self.pass_by(key);
            return;
        }
        let at = self.place_of(key, CAME).unwrap_or(first_of(key));
        let place = taken(self.generation, behind(packet, 2), behind(reply, 2));
        put_place(&mut self.places, at, place);
        self.set_mark(at, mark_of(key, self.generation, KEPT));
    }

    /// At which of its two places this is known of a packet.
    fn place_of(&self, key: u64, known: u32) -> Option<usize> {
        let mark = mark_of(key, self.generation, known);
        if self.mark(first_of(key)) == mark {
            return Some(first_of(key));
        }
        if self.mark(second_of(key)) == mark {
            return Some(second_of(key));
        }
        None
    }

    /// At which of its two places a packet is noted: the first one at which no reply is kept, or that of a reply that
    /// gives way.
    fn place_for(&mut self, key: u64) -> Option<usize>
        ensures { self.new ≡ self.old }
    {
        if !self.is_taken(first_of(key)) {
            return Some(first_of(key));
        }
        if !self.is_taken(second_of(key)) {
            return Some(second_of(key));
        }
        if self.gives_way() {
            return Some(first_of(key));
        }
        None
    }

    /// Whether a reply is kept at a place, by its mark, which may be that of a generation with the same eight bits.
    fn is_taken(&self, at: usize) -> bool {
        let mark = self.mark(at);
        mark % 4 == KEPT && mark / 4 % 256 == self.generation % 256
    }

    /// Whether the reply at a place gives way to another packet, as one in so many does.
    fn gives_way(&mut self) -> bool
        ensures { self.new ≡ self.old }
    {
        self.others = self.others.wrapping_add(1);
        self.others % STAYS == 0
    }

    /// The mark of a place.
    fn mark(&self, at: usize) -> u32 {
        match self.marks.get(at) {
            Some(mark) => *mark,
            None => NEVER,
        }
    }

    /// Another mark there.
    fn set_mark(&mut self, at: usize, mark: u32)
        ensures { self.new ≡ self.old }
    {
        if let Some(known) = self.marks.get_mut(at) {
            *known = mark;
        }
    }
}

/// The first place of a key.
fn first_of(key: u64) -> usize {
    (key % PLACES as u64) as usize
}

/// The second, by other bits of the key.
fn second_of(key: u64) -> usize {
    (key / PLACES as u64 % PLACES as u64) as usize
}

/// The mark of a key in a generation, by which this is known: 22 bits of the key, eight of the generation, and two.
fn mark_of(key: u64, generation: u32, known: u32) -> u32 {
    let word = (key >> 42) as u32;
    (word << 10) | (generation % 256 * 4) | known
}

/// Lays so many places, which nothing took.
fn lay_free(places: &mut Vec<Place>, n: usize)
    requires empty { places.old.items ≡ [] }
    requires room { n ≤ vec_capacity places.old }
    ensures { places.new.items ≡ replicate n free }
{
    for _i in 0..n {
        places.push_reserved(FREE);
    }
}

/// Takes a place.
fn put_place(places: &mut Vec<Place>, at: usize, place: Place)
    requires { AreOfThePast place.generation places.old.items }
    ensures past { AreOfThePast place.generation places.new.items }
    ensures kept { KeepsNoMoreBut (told place) (kept_at place.generation places.old.items)
        (kept_at place.generation places.new.items) }
{
    if at < places.len() {
        places[at] = place;
    }
}
