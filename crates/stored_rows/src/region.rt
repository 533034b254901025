//! Octets kept, read where they stand, freed and kept again.

ghost use Rattle.std.specs.Prelude.{◌≤◌};

use octet_region::{Handle, Region, cells_for};
use std::alloc::Global;
use std::process::Abort;
use std::test::Fail;

/// A region with so many free cells.
fn region(rt: &impl Abort, alloc: Global, cells: usize) -> Region {
    let mut region = Region::new(alloc);
    assert!(rt; region.reserve(cells).is_ok(), "memory");
    region
}

/// Keeps octets, for which there is room.
fn put(rt: &impl Abort, region: &mut Region, octets: &[u8]) -> Handle {
    assert!(rt; cells_for(octets.len()) <= region.spare(), "room");
    region.put(octets)
}

#[test]
fn a_name_is_read_where_it_stands(rt: HostRuntime) -> Result<(), Fail> {
    let mut region = region(&rt, rt.alloc(), 4);
    let handle = put(
        &rt,
        &mut region,
        b"\x03www\x07example\x03com\0 and what follows it",
    );
    assert_eq!(&rt; region.spare(), 2, "cells left");
    assert_eq!(&rt; region.cells(), 4, "cells");
    assert_eq!(&rt; region.length(handle), Some(37), "length");
    let first: &[u8] = b"\x03www\x07example\x03com\0 and what follo";
    assert_eq!(&rt; region.front(handle), first, "front");
    assert!(&rt;
        region.starts_with(handle, b"\x03www\x07example\x03com\0"),
        "begins"
    );
    assert!(&rt;
        region.is_at(handle, 30, b"lows it"),
        "over the end of a cell"
    );
    assert!(&rt; !region.is_at(handle, 30, b"lows it."), "too long");
    Ok(())
}

#[test]
fn a_part_is_copied(rt: HostRuntime) -> Result<(), Fail> {
    let mut region = region(&rt, rt.alloc(), 2);
    let handle = put(
        &rt,
        &mut region,
        b"0123456789012345678901234567890123456789",
    );
    let mut part = [b'x'; 5];
    assert!(&rt; region.read_at(handle, 30, &mut part), "five octets");
    assert_eq!(&rt; part, *b"01234", "over the end of a cell");
    assert!(&rt; !region.read_at(handle, 36, &mut part), "four octets");
    assert_eq!(&rt; part, *b"01234", "as before");
    Ok(())
}

#[test]
fn a_freed_handle_holds_nothing(rt: HostRuntime) -> Result<(), Fail> {
    let mut region = region(&rt, rt.alloc(), 2);
    let first = put(&rt, &mut region, b"first");
    let second = put(&rt, &mut region, b"");
    assert!(&rt; first != second, "two handles");
    assert!(&rt; region.free(first), "freed");
    assert!(&rt; !region.free(first), "freed twice");
    assert_eq!(&rt; region.length(first), None, "freed");
    assert_eq!(&rt; region.length(second), Some(0), "still there");
    let kept = Handle::of(second.number());
    assert!(&rt; kept == second, "a handle kept as a number");
    assert_eq!(&rt; region.spare(), 1, "cells left");
    Ok(())
}

#[test]
fn many_octets(rt: HostRuntime) -> Result<(), Fail> {
    let mut region = region(&rt, rt.alloc(), 4000);
    let handle = put(&rt, &mut region, &[7; 5000]);
    assert_eq!(&rt; region.spare(), 3843, "cells left");
    let mut octets = [0; 5001];
    assert_eq!(&rt; region.length(handle), Some(5000), "length");
    assert_eq!(&rt; region.copy_to(handle, &mut octets), Some(5000), "copied");
    assert_eq!(&rt; octets[4999], 7, "the last octet");
    assert_eq!(&rt; octets[5000], 0, "behind it");
    assert!(&rt; region.is_at(handle, 4990, &[7; 10]), "at the end");
    Ok(())
}

#[test]
fn two_cells_are_taken_and_given_back(rt: HostRuntime) -> Result<(), Fail> {
    let mut region = region(&rt, rt.alloc(), 2);
    let handle = put(&rt, &mut region, &[7; 33]);
    assert_eq!(&rt; region.spare(), 0, "both cells");
    assert_eq!(&rt; region.length(handle), Some(33), "length");
    let mut octets = [0; 33];
    assert_eq!(&rt; region.copy_to(handle, &mut octets), Some(33), "copied");
    assert_eq!(&rt; octets, [7; 33], "as they were put");
    assert!(&rt; region.free(handle), "freed");
    assert_eq!(&rt;
        region.copy_to(handle, &mut octets),
        None,
        "nothing is held"
    );
    assert!(&rt; !region.free(handle), "freed twice");
    assert_eq!(&rt; region.spare(), 2, "as after the reserve");
    Ok(())
}

/// How many octets are put in a turn.
fn size_of(turn: usize) -> usize
    ensures { result ≤ 97 }
{
    turn % 97 + 1
}

/// Of which value.
fn value_of(turn: usize) -> u8 {
    (turn % 256) as u8
}

/// Whether a handle gives back what a turn put.
fn copies_back(region: &Region, handle: Handle, turn: usize) -> bool {
    if region.length(handle) != Some(size_of(turn)) {
        return false;
    }
    let mut octets = [0; 97];
    if region.copy_to(handle, &mut octets) != Some(size_of(turn)) {
        return false;
    }
    octets[..size_of(turn)] == [value_of(turn); 97][..size_of(turn)]
}

/// Frees what a turn put, which is still there.
fn take(rt: &impl Abort, region: &mut Region, kept: Option<(Handle, usize)>) {
    if let Some((handle, turn)) = kept {
        assert!(rt; copies_back(region, handle, turn), "copied back");
        assert!(rt; region.free(handle), "freed");
    }
}

#[test]
fn cells_go_round(rt: HostRuntime) -> Result<(), Fail> {
    let mut region = region(&rt, rt.alloc(), 4096);
    let mut kept: [Option<(Handle, usize)>; 64] = [None; 64];
    for turn in 0..10_000 {
        take(&rt, &mut region, kept[turn % 64]);
        let handle = put(&rt, &mut region, &[value_of(turn); 97][..size_of(turn)]);
        kept[turn % 64] = Some((handle, turn));
    }
    for oldest in kept {
        take(&rt, &mut region, oldest);
    }
    assert_eq!(&rt; region.spare(), 4096, "as after the reserve");
    Ok(())
}
