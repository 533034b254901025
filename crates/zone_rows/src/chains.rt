//! Chains of aliases with the most links, and with one more.

ghost use Rattle.std.specs.Prelude.{◌≤◌};
ghost use Rattle.zone_model.specs.Zones.{IsRising};

use alias_tree::{missing_target, walk_of_17};
use dns_name::Name;
use rdata_layout::RType;
use record_set::{Body, RecordSet, Routing, Values};
use set_search::find;
use std::alloc::Global;
use std::process::Abort;
use zone_model::placed_rise;

/// The name of one letter.
fn name(rt: &impl Abort, letter: u8) -> Name {
    Name::from_text(&[letter]).ok().expect(rt, "a name")
}

/// A set of addresses, of which there is none.
fn addresses(rt: &impl Abort, alloc: Global, owner: u8) -> RecordSet {
    RecordSet {
        name: name(rt, owner),
        rtype: RType::A,
        routing: Routing::Simple,
        body: Body::Values {
            ttl: 300,
            values: Values::from_vec(Vec::new(alloc)),
        },
        check: None,
    }
}

/// An alias to the addresses of another name.
fn alias(rt: &impl Abort, owner: u8, target: u8) -> RecordSet {
    RecordSet {
        name: name(rt, owner),
        rtype: RType::A,
        routing: Routing::Simple,
        body: Body::Alias {
            target: name(rt, target),
            evaluate: false,
        },
        check: None,
    }
}

/// Puts a set to its place, where no set has its key.
fn put(rt: &impl Abort, sets: &mut Vec<RecordSet>, set: RecordSet)
    requires { IsRising sets.old.items }
    ensures { IsRising sets.new.items }
{
    placed_rise();
    if let Err(place) = find(sets, &set.key()) {
        assert!(rt; sets.insert(place, set).is_ok(), "memory");
    }
}

/// Addresses at the name `0`, and so many aliases from the name `a` on: each to the next letter,
/// the last to `0`.
fn chain(rt: &impl Abort, alloc: Global, links: u8) -> Vec<RecordSet>
    requires some { 1 ≤ links }
    requires letters { links ≤ 25 }
    ensures { IsRising result.items }
{
    let mut sets = Vec::new(alloc);
    put(rt, &mut sets, addresses(rt, alloc, b'0'));
    for i in 1..links {
        put(rt, &mut sets, alias(rt, b'a' + i - 1, b'a' + i));
    }
    put(rt, &mut sets, alias(rt, b'a' + links - 1, b'0'));
    sets
}

/// The place that is told, where there is memory.
fn told(rt: &impl Abort, alloc: Global, sets: &[RecordSet]) -> Option<usize>
    requires { IsRising sets.now }
{
    walk_of_17(alloc, sets).ok().expect(rt, "memory")
}

#[test]
fn most_links(rt: HostRuntime) {
    let sets = chain(&rt, rt.alloc(), 16);
    assert_eq!(rt; missing_target(&sets), None, "a target of each");
    assert_eq!(rt; told(&rt, rt.alloc(), &sets), None, "16 links");
}

#[test]
fn one_link_more(rt: HostRuntime) {
    let sets = chain(&rt, rt.alloc(), 17);
    assert_eq!(rt; told(&rt, rt.alloc(), &sets), Some(1), "17 links from a");
}

#[test]
fn two_links_more(rt: HostRuntime) {
    let sets = chain(&rt, rt.alloc(), 18);
    assert_eq!(rt;
        told(&rt, rt.alloc(), &sets),
        Some(1),
        "17 links from a and from b"
    );
}

#[test]
fn leads_to_itself(rt: HostRuntime) {
    let mut sets = chain(&rt, rt.alloc(), 2);
    put(&rt, &mut sets, alias(&rt, b'm', b'm'));
    assert_eq!(rt; missing_target(&sets), None, "a target of each");
    assert_eq!(rt;
        told(&rt, rt.alloc(), &sets),
        Some(3),
        "the alias to itself"
    );
}

#[test]
fn leads_to_none(rt: HostRuntime) {
    let mut sets = chain(&rt, rt.alloc(), 2);
    put(&rt, &mut sets, alias(&rt, b'n', b'y'));
    put(&rt, &mut sets, alias(&rt, b'm', b'z'));
    assert_eq!(rt; missing_target(&sets), Some(3), "the first alias to no set");
    assert_eq!(rt; told(&rt, rt.alloc(), &sets), None, "one link and two");
}
