//! A zone of a few simple sets.

use dns_name::Name;
use rdata::{RData, RType};
use record_set::{Body, RecordSet, Routing, Values};
use std::alloc::Global;
use std::process::Abort;
use zone_allowed::is_allowed;
use zone_table::{Sets, ZoneEdit, Zones};

/// A set: its owner, its type, and the texts of its values.
pub type Set = (&'static str, RType, &'static [&'static str]);

/// The name of a text, which is one.
pub fn name(rt: &impl Abort, text: &str) -> Name {
    let read = Name::from_text(text.as_bytes());
    assert!(rt; read.is_ok(), "a name: {text}");
    read.unwrap_or(Name::root())
}

/// The values of these texts.
pub fn values(rt: &impl Abort, alloc: Global, rtype: RType, texts: &[&str]) -> Values {
    let mut list = Vec::new(alloc);
    for text in texts {
        let value = RData::from_text(alloc, rtype, text.as_bytes()).expect(rt, "a value");
        assert!(rt; list.push(value).is_ok(), "memory");
    }
    Values::from_vec(list)
}

/// The sets of these rows.
fn sets(rt: &impl Abort, alloc: Global, rows: &[Set]) -> Sets {
    let mut list = Vec::new(alloc);
    for row in rows {
        let (owner, rtype, texts) = *row;
        let set = RecordSet {
            name: name(rt, owner),
            rtype,
            routing: Routing::Simple,
            body: Body::Values {
                ttl: 86400,
                values: values(rt, alloc, rtype, texts),
            },
            check: None,
        };
        assert!(rt; list.push(set).is_ok(), "memory");
    }
    Sets::from_vec(list)
}

/// Zone 1, the root, with simple sets.
pub fn root(rt: &impl Abort, alloc: Global, rows: &[Set]) -> Zones {
    root_of(rt, alloc, sets(rt, alloc, rows))
}

/// Zone 1, the root, with these sets.
pub fn root_of(rt: &impl Abort, alloc: Global, sets: Sets) -> Zones {
    let mut zones = Zones::new(alloc);
    let edit = ZoneEdit::Begin {
        zone: 1,
        name: Name::root(),
        sets,
    };
    assert!(rt; is_allowed(&zones, &edit), "an edit that is allowed");
    let ready = zones.ready(alloc, edit);
    assert!(rt; ready.is_ok(), "memory");
    if let Ok(ready) = ready {
        zones.edit(ready);
    }
    zones
}
