//! A batch by itself, which breaks no rule: the sets that come of it.

use crate::sets::{batch, change, name, simple};
use change_batch::{Action, prepare};
use dns_name::Name;
use rdata::{RData, RType};
use record_set::{Body, RecordSet};
use std::alloc::Global;
use std::process::Abort;

/// Whether the first of some sets is of a name and of type A, and has one value for 300 seconds.
fn is_address_of(sets: &[RecordSet], owner: &Name) -> bool {
    let Some(set) = sets.first() else {
        return false;
    };
    let Body::Values { ttl, values } = &set.body else {
        return false;
    };
    set.name == *owner && set.rtype == RType::A && *ttl == 300 && values.as_slice().len() == 1
}

/// One address.
fn address(rt: &impl Abort, alloc: Global) -> Vec<RData> {
    let mut values = Vec::new(alloc);
    let value = RData::from_wire(alloc, RType::A, &[192, 0, 2, 1]).expect(rt, "an address");
    assert!(rt; values.push(value).is_ok(), "memory");
    values
}

#[test]
fn a_set_that_comes(rt: HostRuntime) {
    let alloc = rt.alloc();
    let owner = name(&rt, b"a.example.com");
    let mut changes = Vec::new(alloc);
    let set = simple(owner, RType::A, address(&rt, alloc));
    assert!(&rt; changes.push(change(Action::Create, set)).is_ok(), "memory");
    let after = prepare(alloc, &[], &name(&rt, b"example.com"), &batch(1, changes));
    let sets = after.ok().expect(&rt, "no rule is broken");
    assert_eq!(&rt; sets.len(), 1, "one set");
    assert!(&rt; is_address_of(sets.as_slice(), &owner), "the one that came");
}
