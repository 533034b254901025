//! Sets for the rows.

use dns_name::Name;
use rdata::{RData, RType};
use record_set::{Body, Ident, RecordSet, Routing, Values};
use std::alloc::Global;
use std::process::Abort;

/// The name of a text, which is one.
pub fn name(rt: &impl Abort, text: &[u8]) -> Name {
    let read = Name::from_text(text);
    assert!(rt; read.is_ok(), "a name: {text:?}");
    read.unwrap_or(Name::root())
}

/// The identifier of a text, which is one.
pub fn ident(rt: &impl Abort, text: &[u8]) -> Ident {
    Ident::new(text).expect(rt, "an identifier")
}

/// The values of these texts.
fn list(rt: &impl Abort, alloc: Global, rtype: RType, texts: &[&[u8]]) -> Values {
    let mut list = Vec::new(alloc);
    for text in texts {
        let value = RData::from_text(alloc, rtype, text).expect(rt, "a value");
        assert!(rt; list.push(value).is_ok(), "memory");
    }
    Values::from_vec(list)
}

/// The body of values with these texts and this time to live.
pub fn lasting(rt: &impl Abort, alloc: Global, ttl: u32, rtype: RType, texts: &[&[u8]]) -> Body {
    Body::Values {
        ttl,
        values: list(rt, alloc, rtype, texts),
    }
}

/// The body of values with these texts and a time to live of 300 seconds.
pub fn values(rt: &impl Abort, alloc: Global, rtype: RType, texts: &[&[u8]]) -> Body {
    lasting(rt, alloc, 300, rtype, texts)
}

/// A set of the name without a check.
pub fn set(name: Name, rtype: RType, routing: Routing, body: Body) -> RecordSet {
    RecordSet {
        name,
        rtype,
        routing,
        body,
        check: None,
    }
}
