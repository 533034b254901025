//! Drills over disks in memory: the line that each writes, and the file of a compaction, which comes
//! behind ten thousand events.

use crate::stores::runs;
use crate::two_disks::{Disks, empty_disks};
use r53_cli::{Side, Status};
use r53_disk::{Disk, Done, MemoryDisk, Size};
use std::alloc::Global;
use std::mem::replace;
use std::process::Abort;
use std::test::Fail;

/// The room of a disk, in octets.
const ROOM: u64 = 16_777_216;

/// A file of generation 2: the mark of a store, the generation, and how long its snapshot is.
const SECOND_GENERATION: [u8; 20] = [
    0x01, 0x52, 0x35, 0x33, 0x5a, 0x4a, 0x30, 0x31, 0, 0, 0, 0, 0, 0, 0, 2, 0, 0, 0x19, 0xf7,
];

/// A drill over so many events ends so, and writes this line.
fn check(
    rt: &impl Abort,
    alloc: Global,
    events: &str,
    disks: &mut Disks,
    status: Status,
    line: &[u8],
) -> Result<(), Fail> {
    let told = runs(alloc, &["drill", events], &[], 1, disks, line)?;
    assert_eq!(rt; told, (status, true), "{events} events");
    Ok(())
}

/// The size of a disk, and whether its file begins with these octets.
fn begins_with(disk: &mut MemoryDisk, octets: &[u8; 20]) -> (Size, bool) {
    let size = disk.size();
    let Size::Bytes(20..) = size else {
        return (size, false);
    };
    let mut front = [0; 20];
    let read = disk.read_at(0, &mut front);
    (size, read == Done::Whole && front == *octets)
}

/// File b has this size, and begins with these octets.
fn check_front(rt: &impl Abort, disks: &mut Disks, octets: &[u8; 20], size: u64) {
    let found = begins_with(&mut disks.b, octets);
    assert_eq!(rt; found, (Size::Bytes(size), true));
}

#[test]
fn a_few_events(rt: HostRuntime) -> Result<(), Fail> {
    let mut disks = empty_disks(rt.alloc(), ROOM)?;
    let drilled = drill_few(&rt, rt.alloc(), &mut disks);
    drop(disks);
    drilled
}

/// A drill over a few events, and another over the store that it made.
fn drill_few(rt: &impl Abort, alloc: Global, disks: &mut Disks) -> Result<(), Fail> {
    check(
        rt,
        alloc,
        "4",
        disks,
        Status::Done,
        b"{\"Batches\":1,\"Drill\":4,\"Healthy\":73,\"NxDomain\":0,\"Ok\":\"drill\",\"Records\":2,\"ReplyBytes\":97,\"Reports\":1}\n",
    )?;
    check(rt, alloc, "4", disks, Status::AlreadyAStore(Side::A), &[])
}

#[test]
fn a_compaction_behind_ten_thousand_events(rt: HostRuntime) -> Result<(), Fail> {
    let mut disks = empty_disks(rt.alloc(), ROOM)?;
    let drilled = drill_before(&rt, rt.alloc(), &mut disks);
    drop(disks);
    drilled
}

/// A drill over one event less, which leaves file b empty, and then one with another file a.
fn drill_before(rt: &impl Abort, alloc: Global, disks: &mut Disks) -> Result<(), Fail> {
    check(
        rt,
        alloc,
        "9999",
        disks,
        Status::Done,
        b"{\"Batches\":2500,\"Drill\":9999,\"Healthy\":172,\"NxDomain\":1200,\"Ok\":\"drill\",\"Records\":3799,\"ReplyBytes\":318021,\"Reports\":2500}\n",
    )?;
    assert_eq!(rt; disks.b.size(), Size::Bytes(0));
    let a = MemoryDisk::new(alloc, &[], ROOM, &[])?;
    drop(replace(&mut disks.a, a));
    drill_behind(rt, alloc, disks)
}

/// A drill over ten thousand events, which leaves a compaction in file b.
fn drill_behind(rt: &impl Abort, alloc: Global, disks: &mut Disks) -> Result<(), Fail> {
    check(
        rt,
        alloc,
        "10000",
        disks,
        Status::Done,
        b"{\"Batches\":2500,\"Drill\":10000,\"Healthy\":172,\"NxDomain\":1200,\"Ok\":\"drill\",\"Records\":3800,\"ReplyBytes\":318070,\"Reports\":2500}\n",
    )?;
    check_front(rt, disks, &SECOND_GENERATION, 6668);
    Ok(())
}
