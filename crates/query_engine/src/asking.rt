//! What is asked, how far its choices have come, and how its answer ends.

use address_text::IpAddress;
use dns_name::Name;
use zone_lookup::{Seen, Used};

/// What a query asks of a zone, and what its choices are made by.
#[derive(Clone, Copy)]
pub(crate) struct Asked<'a> {
    /// The number of the zone that holds the name.
    pub zone: u32,
    /// The name of its apex.
    pub apex: &'a Name,
    /// QTYPE.
    pub qtype: u16,
    /// The client's address.
    pub client: IpAddress,
    /// The words that are drawn for the query.
    pub words: &'a [u64; 8],
}

/// How many choices a query has made, what they used, and what they saw of the client in tables.
#[derive(Clone, Copy)]
pub(crate) struct Progress {
    pub count: u8,
    pub used: Used,
    pub seen: Seen,
}

/// How the answer ends.
#[derive(Clone, Copy)]
pub(crate) struct End {
    /// AA: the answer is authoritative.
    pub aa: bool,
    /// RCODE.
    pub rcode: u16,
}

/// What a name comes to: the end of the answer, or a CNAME record of this TTL, whose set is held,
/// and whose target is looked up next. The target isn't copied.
#[derive(Clone, Copy)]
pub(crate) enum Next {
    Ends(End),
    Follows(u32),
}
