//! Sets and changes for the rows.

use command_codec::{Action, Batch, Change, Changes};
use dns_name::Name;
use rdata::{RData, RType};
use record_set::{Body, RecordSet, Routing, Values};
use std::alloc::Global;
use std::process::Abort;

/// The name of a text, which is one.
pub fn name(rt: &impl Abort, text: &[u8]) -> Name {
    let read = Name::from_text(text);
    assert!(rt; read.is_ok(), "a name: {text:?}");
    read.unwrap_or(Name::root())
}

/// A simple set without a check.
pub fn simple(name: Name, rtype: RType, values: Vec<RData>) -> RecordSet {
    RecordSet {
        name,
        rtype,
        routing: Routing::Simple,
        body: Body::Values {
            ttl: 300,
            values: Values::from_vec(values),
        },
        check: None,
    }
}

/// A change of a set, in nine characters.
pub fn change(action: Action, set: RecordSet) -> Change {
    Change {
        action,
        characters: 9,
        set,
    }
}

/// A batch of these changes.
pub fn batch(zone: u32, changes: Vec<Change>) -> Batch {
    Batch {
        zone,
        changes: Changes::from_vec(changes),
    }
}

/// UPSERT of one address of www.a.
pub fn upsert(rt: &impl Abort, alloc: Global) -> Change {
    let mut list = Vec::new(alloc);
    let value = RData::from_wire(alloc, RType::A, &[192, 0, 2, 1]).expect(rt, "an address");
    assert!(rt; list.push(value).is_ok(), "memory");
    change(Action::Upsert, simple(name(rt, b"www.a"), RType::A, list))
}
