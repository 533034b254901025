//! The numbers of collections that are read back, and the next one.

use cidr_routing::{Collection, Ident, Locations, is_sound};
use std::alloc::Global;
use std::process::Abort;

/// A list of one collection, with the number 1 and no location.
fn list(rt: &impl Abort, alloc: Global) -> Vec<(u32, Collection)> {
    let collection = Collection {
        name: Ident::new(b"sites").expect(rt, "a name"),
        locations: Locations::from_vec(Vec::new(alloc)),
    };
    let mut list = Vec::new(alloc);
    assert!(rt; list.push((1, collection)).is_ok(), "memory");
    list
}

#[test]
fn numbers(rt: HostRuntime) {
    let alloc = rt.alloc();
    let list = list(&rt, alloc);
    assert_eq!(rt; is_sound(alloc, 2, &list), Ok(true), "below the next");
    assert_eq!(rt; is_sound(alloc, 1, &list), Ok(false), "not below the next");
    assert_eq!(rt; is_sound(alloc, 0, &[]), Ok(false), "no next number");
    assert_eq!(rt; is_sound(alloc, 1, &[]), Ok(true), "nothing yet");
}
