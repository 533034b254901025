//! What a packet is read as: a query, a fault with its response code, or nothing to answer.

use dns_name::Name;
use ecs_option::ClientSubnet;

/// A query for one name, type and class (RFC 1035, 4.1.2).
#[derive(Clone, Copy)]
pub struct Query {
    /// The ID, which the reply repeats.
    pub id: u16,
    /// Recursion desired, which the reply repeats.
    pub rd: bool,
    /// The question's octets in the case in which they came, and zeros behind them.
    pub question: [u8; 259],
    /// How many octets the question has.
    pub question_len: usize,
    /// QNAME.
    pub name: Name,
    /// QTYPE.
    pub qtype: u16,
    /// QCLASS.
    pub qclass: u16,
    /// What its OPT record tells, where it has one.
    pub edns: Option<Edns>,
}

/// What an OPT record tells beside its version (RFC 6891, 6.1.2 and 6.1.3).
#[derive(Clone, Copy, Debug, PartialEq, Eq)]
pub struct Edns {
    /// How many octets a reply may have, as the client says.
    pub size: u16,
    /// DO: the client takes DNSSEC records.
    pub dnssec_ok: bool,
    /// The client's network (RFC 7871), where its option is well-formed.
    pub subnet: Option<ClientSubnet>,
}

/// What is read of a packet.
#[derive(Clone, Copy)]
pub enum QueryRead {
    /// Nothing is answered.
    Silent,
    /// The reply is a header alone, with this response code.
    Bad {
        id: u16,
        opcode: u8,
        rd: bool,
        rcode: u8,
    },
    /// A query of a newer version of EDNS than 0. It isn't answered, and the reply says so.
    BadVersion(Query),
    /// A query.
    Query(Query),
}
