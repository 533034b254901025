//! What the zone of RFC 1034, 6.1, tells where it is looked at without a query.

use crate::made::{name, root};
use crate::root::ROOT;
use dns_name::Name;
use rdata::RType;
use record_set::RecordSet;
use std::process::Abort;
use std::test::Fail;

/// Whether the set at a place is one of this name and type.
fn is_of(sets: &[RecordSet], place: usize, owner: &Name, rtype: RType) -> bool {
    match sets.get(place) {
        Some(set) => set.name == *owner && set.rtype == rtype,
        None => false,
    }
}

/// Compares the names and the types of sets.
fn compare(rt: &impl Abort, sets: &[RecordSet], rows: &[(&str, RType)]) {
    assert_eq!(rt; sets.len(), rows.len(), "sets");
    for place in 0..rows.len() {
        let (text, rtype) = rows[place];
        assert!(rt;
            is_of(sets, place, &name(rt, text), rtype),
            "in zone order: {place}"
        );
    }
}

#[test]
fn all_sets_of_a_zone(rt: HostRuntime) -> Result<(), Fail> {
    let zones = root(&rt, rt.alloc(), &ROOT);
    assert!(&rt; zones.apex(1).is_some(), "zone 1");
    let sets = zones.sets(rt.alloc(), 1)?;
    compare(
        &rt,
        sets.as_slice(),
        &[
            (".", RType::Ns),
            (".", RType::Soa),
            ("sri-nic.arpa", RType::A),
            ("a.isi.edu", RType::A),
            ("mil", RType::Ns),
        ],
    );
    Ok(())
}

#[test]
fn names_that_exist(rt: HostRuntime) -> Result<(), Fail> {
    let zones = root(&rt, rt.alloc(), &ROOT);
    assert!(&rt;
        zones.exists(1, &name(&rt, "a.isi.edu")),
        "a name with sets"
    );
    assert!(&rt; zones.exists(1, &name(&rt, "isi.edu")), "a name above it");
    assert!(&rt; !zones.exists(1, &name(&rt, "mit.edu")), "a name beside it");
    assert!(&rt; !zones.exists(2, &name(&rt, "mil")), "no such zone");
    Ok(())
}
