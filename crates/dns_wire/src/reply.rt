//! A reply in the making: the question, then records as long as they fit, and the header last.

ghost use Rattle.std.specs.Prelude.{◌≡◌, ℕ, ◌+◌, ◌<◌, ◌≤◌, List, [], ◌∷◌, ◌++◌, length, take, drop, replicate, IfOk, IsTrue, ◌↔◌};
ghost use Rattle.rdata_layout.specs.Layout.{IsLayout};
ghost use Rattle.dns_wire.specs.Draft.{Follows, StandsFor, with_record, reply_to};
ghost use Rattle.dns_wire.specs.Steps.{closed, recorded, limited, emptied, ended};
ghost use Rattle.dns_wire.specs.Header.{FitsRcode, header_octets, short_reply};
ghost use Rattle.dns_wire.specs.Message.{Message, octets_within, opt_octets};
ghost use Rattle.dns_wire.specs.Draft.{opt_of};
ghost use Rattle.dns_message.specs.Whole.{IsWhole};

use crate::header::Header;
use crate::opt::{add_opt, opt_len};
use crate::record::add_record;
use dns_message::{Edns, Query};
use octets::{OutOfMemory, fill_front, front, put_at, zeros};
use rdata_layout::{Name, RType};
use std::alloc::Global;
use std::marker::Model;

/// The octets of a header (RFC 1035, 4.1.1).
const HEADER_LEN: usize = 12;

/// The most octets of one record: an owner of 255, 10, and data of 4,000.
const MOST_OF_RECORD: usize = 4265;

/// A section of a reply that holds records (RFC 1035, 4.1).
#[derive(Clone, Copy, Debug, PartialEq, Eq)]
pub enum Section {
    Answer,
    Authority,
    Additional,
}

/// A reply, written into a buffer that is taken once: begun with a query, then records, then finished.
#[derive(Drop)]
pub struct Reply {
    /// The room, and behind it room for one record, which is written before it is known to fit.
    buffer: Vec<u8>,
    room: usize,
    len: usize,
    question_end: usize,
    id: u16,
    rd: bool,
    name: Name,
    edns: Option<Edns>,
    is_truncated: bool,
    answers: u16,
    authorities: u16,
    additionals: u16,
}

impl Model for Reply {
    ghost use Rattle.std.specs.Prelude.{◌+◌, length, take};
    ghost use Rattle.dns_wire.specs.Draft.{Draft};
    ghost use Rattle.dns_wire.specs.Kept.{IsIntact};

    ghost Value = { Draft };

    ghost view = { λ a. record {
      room = a.room;
      id = a.id;
      rd = a.rd;
      name = a.name;
      edns = a.edns;
      question_end = a.question_end;
      is_truncated = a.is_truncated;
      answers = a.answers;
      authorities = a.authorities;
      additionals = a.additionals;
      bytes = take a.len a.buffer.items;
    } };

    ghost invariant = { λ a. IsIntact a.room (length a.buffer.items) a.len a.question_end (a.answers + a.authorities + a.additionals) a.edns };
}

impl Reply {
    /// A reply with this room, in octets.
    pub fn new(alloc: Global, room: usize) -> Result<Reply, OutOfMemory>
        requires least { 512 ≤ room }
        requires most { room ≤ 65535 }
        ensures room { IfOk result (λ reply. reply.room ≡ room) }
        ensures empty { IfOk result (λ reply. reply.bytes ≡ []) }
    {
        let buffer = zeros(alloc, room + MOST_OF_RECORD)?;
        Ok(Reply {
            buffer,
            room,
            len: 0,
            question_end: 0,
            id: 0,
            rd: false,
            name: Name::root(),
            edns: None,
            is_truncated: false,
            answers: 0,
            authorities: 0,
            additionals: 0,
        })
    }

    /// What it holds: after `finish` and `short` the whole reply.
    pub fn bytes(&self) -> &[u8]
        ensures { result.now ≡ self.now.bytes }
    {
        front(&self.buffer, self.len)
    }

    /// Begins the reply to a query: room for the header, and the question as it came.
    pub fn begin(&mut self, query: &Query)
        requires { IsWhole query.now }
        ensures stands { StandsFor (reply_to query.now) self.new }
        ensures edns { self.new.edns ≡ query.now.edns }
        ensures room { self.new.room ≡ self.old.room }
        ensures least { 512 ≤ self.new.room }
    {
        put_at(&mut self.buffer, 0, &[0; HEADER_LEN]);
        put_at(
            &mut self.buffer,
            HEADER_LEN,
            front(&query.question, query.question_len),
        );
        self.len = HEADER_LEN + query.question_len;
        self.question_end = self.len;
        self.id = query.id;
        self.rd = query.rd;
        self.name = query.name;
        self.edns = query.edns;
        self.is_truncated = false;
        self.answers = 0;
        self.authorities = 0;
        self.additionals = 0;
    }

    /// Adds a record of class IN at the end of a section. `wire` is the value with its names whole
    /// and in lower case.
    ///
    /// Where the records don't fit the room any more, the reply will be cut.
    pub fn record(&mut self, section: Section, owner: &Name, rtype: RType, ttl: u32, wire: &[u8])
        requires order { (m : Message) × StandsFor m self.old × Follows section m }
        requires layout { IsLayout rtype wire.now }
        ensures stands { (m : Message) → StandsFor m self.old → Follows section m
            → StandsFor (with_record section (record {
              owner = owner.now;
              rtype = rtype;
              ttl = ttl;
              rdata = wire.now;
            }) m) self.new }
        ensures edns { self.new.edns ≡ self.old.edns }
        ensures room { self.new.room ≡ self.old.room }
    {
        self.add(section, owner, rtype, ttl, wire);
    }

    /// Ends the reply: writes its OPT record, where the query had one, and its header, and says how
    /// long it is.
    ///
    /// `scope` is how many bits of the client's address the answer holds for; it is told where the
    /// query told a subnet. Where the reply would be longer than the limit it is truncated: it has the
    /// question, TC, and the OPT record.
    pub fn finish(&mut self, aa: bool, rcode: u16, limit: usize, scope: u8) -> usize
        requires begun { (m : Message) × StandsFor m self.old }
        requires least { 512 ≤ limit }
        requires most { limit ≤ self.old.room }
        requires rcode { FitsRcode rcode self.old.edns }
        ensures bytes { (m : Message) → StandsFor m self.old → self.new.bytes
            ≡ octets_within (record m { aa = aa; rcode = rcode; opt = opt_of self.old.edns scope }) limit }
        ensures room { self.new.room ≡ self.old.room }
        ensures len { result ≡ length self.new.bytes }
    {
        let more = opt_len(&self.edns);
        self.limit_to(limit, more);
        self.close(rcode, scope);
        self.write_header(aa, rcode);
        self.len
    }

    /// The reply of a header alone, and its length. What was begun is dropped.
    pub fn short(&mut self, id: u16, opcode: u8, rd: bool, rcode: u8) -> usize
        requires opcode { opcode < 16 }
        requires rcode { rcode < 16 }
        ensures bytes { self.new.bytes ≡ short_reply id opcode rd rcode }
        ensures room { self.new.room ≡ self.old.room }
        ensures len { result ≡ length self.new.bytes }
    {
        let header = Header {
            id,
            opcode,
            aa: false,
            tc: false,
            rd,
            rcode,
            qdcount: 0,
            ancount: 0,
            nscount: 0,
            arcount: 0,
        };
        let octets = header.octets();
        self.empty();
        put_at(&mut self.buffer, 0, &octets);
        self.len = HEADER_LEN;
        self.question_end = HEADER_LEN;
        self.len
    }

    /// Adds a record, or where it doesn't fit drops all records.
    fn add(&mut self, section: Section, owner: &Name, rtype: RType, ttl: u32, wire: &[u8])
        requires layout { IsLayout rtype wire.now }
        ensures { self.new
            ≡ recorded section (record {
              owner = owner.now;
              rtype = rtype;
              ttl = ttl;
              rdata = wire.now;
            }) self.old }
    {
        if self.is_truncated {
            return;
        }
        let end = add_record(
            &mut self.buffer,
            self.len,
            &self.name,
            owner,
            rtype,
            ttl,
            wire,
        );
        if end > self.room {
            self.empty();
            return;
        }
        self.len = end;
        match section {
            Section::Answer => self.answers += 1,
            Section::Authority => self.authorities += 1,
            Section::Additional => self.additionals += 1,
        }
    }

    /// Drops all records where it would be longer than the limit with so many octets more.
    fn limit_to(&mut self, limit: usize, more: usize)
        requires { more ≤ 35 }
        ensures { self.new ≡ limited limit more self.old }
    {
        if self.len + more > limit {
            self.empty();
        }
    }

    /// Writes the OPT record behind all others, where the query had one.
    #[inline(always)]
    fn close(&mut self, rcode: u16, scope: u8)
        requires rcode { FitsRcode rcode self.old.edns }
        requires room { length self.old.bytes + length (opt_octets rcode (opt_of self.old.edns scope))
            ≤ self.old.room }
        ensures { self.new ≡ closed (opt_octets rcode (opt_of self.old.edns scope)) self.old }
    {
        self.len = add_opt(&mut self.buffer, self.len, &self.edns, rcode, scope);
    }

    /// Drops all records.
    fn empty(&mut self)
        ensures { self.new ≡ emptied self.old }
    {
        self.len = self.question_end;
        self.is_truncated = true;
        self.answers = 0;
        self.authorities = 0;
        self.additionals = 0;
    }

    /// Writes the header over its room.
    fn write_header(&mut self, aa: bool, rcode: u16)
        requires begun { 12 ≤ length self.old.bytes }
        requires counted { self.old.additionals < 65535 }
        ensures { self.new ≡ ended self.old aa rcode }
    {
        let header = Header {
            id: self.id,
            opcode: 0,
            aa,
            tc: self.is_truncated,
            rd: self.rd,
            rcode: (rcode % 16) as u8,
            qdcount: 1,
            ancount: self.answers,
            nscount: self.authorities,
            arcount: self.additionals + u16::from(self.edns.is_some()),
        };
        let octets = header.octets();
        set_front(&mut self.buffer, self.len, &octets);
    }
}

/// Copies a piece over the front of the first `len` bytes.
fn set_front(buffer: &mut [u8], len: usize, piece: &[u8])
    requires within { length piece.now ≤ len }
    requires room { len ≤ length buffer.old }
    ensures { take len buffer.new ≡ piece.now ++ drop (length piece.now) (take len buffer.old) }
{
    fill_front(&mut buffer[..len], piece);
}
