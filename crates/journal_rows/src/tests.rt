//! The bytes of a new store, and the most that a file takes.

use crate::CountingDisk;
use gate_journal::Journal;
use octets::OutOfMemory;
use r53_disk::{MemoryDisk, Torn};
use std::alloc::Global;
use std::test::Fail;
use zone_journal::{Appended, Entry, Init, Side, init};

const ROOM: u64 = 200_000;

/// The bytes of a file of a store with nothing in it.
const EMPTY: [u8; 34] = [
    0x01, 0x52, 0x35, 0x33, 0x5a, 0x4a, 0x30, 0x31, 0, 0, 0, 0, 0, 0, 0, 1, 0, 0, 0, 13, 2, 0, 0,
    0, 1, 0, 0, 0, 1, 0, 0, 0, 0, 0,
];

fn memory(alloc: Global, bytes: &[u8], fail: &[u64]) -> Result<MemoryDisk, OutOfMemory> {
    let room = ROOM.max(bytes.len() as u64);
    MemoryDisk::new(alloc, bytes, room, fail)
}

#[test]
fn bytes_of_a_new_store(rt: HostRuntime) -> Result<(), Fail> {
    let alloc = rt.alloc();
    let mut a = memory(alloc, &[], &[])?;
    let mut b = memory(alloc, &[], &[])?;
    assert_eq!(rt; init(&mut a, &mut b), Init::Done, "on empty disks");
    assert_eq!(rt;
        a.image(Torn::Lost)?.as_slice(),
        EMPTY.as_slice(),
        "the file of a"
    );
    assert_eq!(rt; b.image(Torn::Kept)?.len(), 0, "b is not written");
    assert_eq!(rt; init(&mut a, &mut b), Init::AlreadyAStore(Side::A), "again");
    assert_eq!(rt;
        init(&mut b, &mut a),
        Init::AlreadyAStore(Side::B),
        "the other way round"
    );
    assert_eq!(rt; a.starved(), 0, "with ample memory");
    Ok(())
}

#[test]
fn a_full_file(rt: HostRuntime) -> Result<(), Fail> {
    let alloc = rt.alloc();
    let entry = Entry::new(alloc, &[7])?;
    for (snapshot, appended) in [
        (268_435_429, Appended::Done),
        (268_435_430, Appended::Full(268_435_451)),
    ] {
        let mut disk = CountingDisk { size: 0 };
        let mut journal = Journal::built(&disk, snapshot + 21);
        assert_eq!(rt;
            journal.append(&mut disk, &entry),
            appended,
            "behind {snapshot} bytes"
        );
    }
    Ok(())
}
