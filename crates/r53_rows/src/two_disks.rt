//! The two disks of a store in memory, and what a crash leaves of them.

use octets::OutOfMemory;
use r53_disk::{MemoryDisk, Torn};
use std::alloc::Global;
use std::test::Fail;

/// The least room of a disk that holds octets, in octets.
const ROOM: usize = 4096;

/// The two disks of a store.
#[derive(Drop)]
pub(crate) struct Disks {
    pub(crate) a: MemoryDisk,
    pub(crate) b: MemoryDisk,
}

/// Disks with nothing in them, each with so much room.
pub(crate) fn empty_disks(alloc: Global, room: u64) -> Result<Disks, OutOfMemory> {
    let a = MemoryDisk::new(alloc, &[], room, &[])?;
    both(a, MemoryDisk::new(alloc, &[], room, &[]))
}

/// Disks of which file a holds these octets and file b none, and of which these calls fail.
pub(crate) fn make_disks(
    alloc: Global,
    octets: &[u8],
    a_fails: &[u64],
    b_fails: &[u64],
) -> Result<Disks, OutOfMemory> {
    let a = disk(alloc, octets, a_fails)?;
    both(a, disk(alloc, &[], b_fails))
}

/// A disk with these octets, of which these calls fail.
fn disk(alloc: Global, octets: &[u8], fails: &[u64]) -> Result<MemoryDisk, OutOfMemory> {
    let room = octets.len().max(ROOM);
    MemoryDisk::new(alloc, octets, room as u64, fails)
}

/// Both disks, where there was memory for the second.
fn both(a: MemoryDisk, b: Result<MemoryDisk, OutOfMemory>) -> Result<Disks, OutOfMemory> {
    match b {
        Ok(b) => Ok(Disks { a, b }),
        Err(fault) => {
            drop(a);
            Err(fault)
        }
    }
}

/// Disks that hold what a crash left of others.
pub(crate) fn behind_crash(
    alloc: Global,
    before: &Disks,
    a_torn: Torn,
    b_torn: Torn,
) -> Result<Disks, Fail> {
    let a = disk_behind(alloc, &before.a, a_torn)?;
    Ok(both(a, disk_behind(alloc, &before.b, b_torn))?)
}

/// A disk that holds what a crash left of another.
fn disk_behind(alloc: Global, before: &MemoryDisk, torn: Torn) -> Result<MemoryDisk, OutOfMemory> {
    let image = before.image(torn)?;
    let behind = disk(alloc, &image, &[]);
    drop(image);
    behind
}
