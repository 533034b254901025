//! A file of the system as a disk.

use file_disk::FileDisk;
use r53_disk::{Disk, Done, Size};
use std::fs::File;
use std::process::Abort;
use std::rt::Files;

/// A disk has so many octets.
fn check_size<R: Files<File = File>>(
    rt: &impl Abort,
    disk: &mut FileDisk<'_, R>,
    octets: u64,
    what: &str,
) {
    assert_eq!(rt; disk.size(), Size::Bytes(octets), "{what}");
}

/// A write at a place ends so.
fn check_write<R: Files<File = File>>(
    rt: &impl Abort,
    disk: &mut FileDisk<'_, R>,
    at: u64,
    octets: &[u8],
    done: Done,
    what: &str,
) {
    assert_eq!(rt; disk.write_at(at, octets), done, "{what}");
}

/// A sync ends well.
fn check_sync<R: Files<File = File>>(rt: &impl Abort, disk: &mut FileDisk<'_, R>, what: &str) {
    assert_eq!(rt; disk.sync(), Done::Whole, "{what}");
}

/// A file is made, and written.
fn write_file<R: Files<File = File>>(rt: &impl Abort, disk: &mut FileDisk<'_, R>) {
    check_size(rt, disk, 0, "no file is empty");
    check_write(rt, disk, 1, b"x", Done::Failed, "it begins behind the end");
    check_write(rt, disk, 0, b"abc", Done::Whole, "the file is made");
    check_sync(rt, disk, "it is kept");
    check_write(rt, disk, 2, b"de", Done::Whole, "it grows");
    check_size(rt, disk, 4, "by the octets behind its end");
    check_write(rt, disk, 0, b"a", Done::Whole, "an octet within");
    check_size(rt, disk, 4, "it grows no more");
    check_write(rt, disk, 5, b"x", Done::Failed, "behind the end again");
}

/// Two octets of a file are read.
fn read_file<R: Files<File = File>>(rt: &impl Abort, disk: &mut FileDisk<'_, R>) {
    let mut two = [0; 2];
    let read = disk.read_at(1, &mut two);
    assert_eq!(rt; read, Done::Whole, "another disk reads it");
    assert_eq!(rt; two, *b"bd", "what was written");
}

#[test]
fn a_file_as_a_disk(rt: HostRuntime) {
    let mut disk = FileDisk::new(&rt, "rows.journal");
    write_file(&rt, &mut disk);
    let mut again = FileDisk::new(&rt, "rows.journal");
    read_file(&rt, &mut again);
    drop(again);
    drop(disk);
}
