//! A batch of few characters with a set of more octets than a set may have, which no line gives: it
//! is refused as one of too many characters.

use crate::sets::{batch, change, name, simple};
use change_batch::{Action, BatchRefusal, prepare};
use rdata::{RData, RType};
use std::alloc::Global;
use std::process::Abort;

/// A TXT value of so many octets on the wire, all of its strings of one letter.
fn text_of(rt: &impl Abort, alloc: Global, octets: usize, letter: u8) -> RData {
    let mut wire = Vec::new(alloc);
    for i in 0..octets {
        let octet = if i % 256 == 0 {
            ((octets - i).min(256) - 1) as u8
        } else {
            letter
        };
        assert!(rt; wire.push(octet).is_ok(), "memory");
    }
    RData::from_wire(alloc, RType::Txt, wire.as_slice()).expect(rt, "strings")
}

/// 16 values of 4,000 octets and one of so many: with a name of 15 octets, the lengths, the type,
/// the policy, the time to live, the count and the check are 64,060 more.
fn values(rt: &impl Abort, alloc: Global, last: usize) -> Vec<RData> {
    let mut list = Vec::new(alloc);
    for n in 0..16 {
        let value = text_of(rt, alloc, 4000, b'a' + n);
        assert!(rt; list.push(value).is_ok(), "memory");
    }
    let value = text_of(rt, alloc, last, b'z');
    assert!(rt; list.push(value).is_ok(), "memory");
    list
}

/// Whether a batch that creates that set is refused for its characters.
fn is_refused(rt: &impl Abort, alloc: Global, last: usize) -> bool {
    let owner = name(rt, b"a.example.com");
    let set = simple(owner, RType::Txt, values(rt, alloc, last));
    let mut changes = Vec::new(alloc);
    assert!(rt; changes.push(change(Action::Create, set)).is_ok(), "memory");
    let refusal = prepare(alloc, &[], &name(rt, b"example.com"), &batch(1, changes));
    matches!(refusal.err(), Some(BatchRefusal::TooManyCharacters))
}

#[test]
fn octets_of_a_set(rt: HostRuntime) {
    assert!(rt; !is_refused(&rt, rt.alloc(), 1476), "65,536 octets");
    assert!(rt; is_refused(&rt, rt.alloc(), 1477), "65,537 octets");
}
