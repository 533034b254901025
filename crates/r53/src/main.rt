//! The program: hands words, streams, files and sockets of the system to the top call, and ends with its status.
#![tactic(auto)]

use file_disk::{FileDisk, FileSource};
use r53_cli::{Status, run, status_text};
use r53_disk::{Disk, MemoryDisk};
use rand_chacha::ChaCha8Rng;
use rand_core::SeedableRng;
use std::env;
use std::fs::File;
use std::io::{self, ErrorKind, Write};
use std::process::ExitCode;
use std::random::RandomSource;
use stream_adapters::{Reading, Writing};
use udp_link::UdpLink;

/// The first file of a store, in the current folder.
const FIRST_DISK: &str = "r53-a.journal";

/// The second one.
const SECOND_DISK: &str = "r53-b.journal";

/// The file of the tables.
const TABLES: &str = "r53.tables";

/// The current folder, which can be opened, and neither read nor written as a file.
const FOLDER: &str = ".";

/// The word of a drill, which runs on two disks in memory.
const DRILL: &str = "drill";

/// The room of each of them, in octets.
const DRILL_ROOM: u64 = 16_777_216;

fn main(rt: HostRuntime) -> ExitCode {
    let status = started(&rt);
    let mut text = [0; 128];
    let len = status_text(&status, &mut text);
    let _ = rt.stderr().write_all(&text[..len]);
    ExitCode::from(status.number())
}

/// Runs over the words of the process. A word that is not UTF-8 is a faulty command line.
fn started(rt: &HostRuntime) -> Status {
    let words = match env::args(rt) {
        Ok(words) => words,
        Err(error) if error.kind() == ErrorKind::OutOfMemory => return Status::OutOfMemory,
        Err(_) => return Status::Usage,
    };
    let mut args = Vec::new(rt.alloc());
    for word in words.skip(1) {
        if args.push(word).is_err() {
            return Status::OutOfMemory;
        }
    }
    match generator(rt) {
        Ok(words) => run_over(rt, &args, words),
        // It is the one status that no cause is tied to.
        Err(_) => Status::OutOfMemory,
    }
}

/// Runs over the standard streams, the files and the sockets, with these random words; a drill over
/// disks in memory.
///
/// A standard stream that is closed leaves its number to the next file that is opened: replies would be written over a journal. So
/// these numbers are taken first, and a closed stream fails where it is read or written.
fn run_over(rt: &HostRuntime, args: &[String], words: ChaCha8Rng) -> Status {
    let alloc = rt.alloc();
    let _taken = (
        File::open(rt, FOLDER),
        File::open(rt, FOLDER),
        File::open(rt, FOLDER),
    );
    if is_drill(args) {
        let Ok(mut a) = MemoryDisk::new(alloc, &[], DRILL_ROOM, &[]) else {
            return Status::OutOfMemory;
        };
        let Ok(mut b) = MemoryDisk::new(alloc, &[], DRILL_ROOM, &[]) else {
            return Status::OutOfMemory;
        };
        return run_on(rt, args, words, &mut a, &mut b);
    }
    let mut a = FileDisk::new(rt, FIRST_DISK);
    let mut b = FileDisk::new(rt, SECOND_DISK);
    run_on(rt, args, words, &mut a, &mut b)
}

/// Whether the words begin as those of a drill do.
fn is_drill(args: &[String]) -> bool {
    match args.first() {
        Some(word) => word.as_str() == DRILL,
        None => false,
    }
}

/// Runs over two disks.
fn run_on<D: Disk>(
    rt: &HostRuntime,
    args: &[String],
    mut words: ChaCha8Rng,
    a: &mut D,
    b: &mut D,
) -> Status {
    let alloc = rt.alloc();
    let Ok(mut input) = Reading::new(alloc, rt.stdin()) else {
        return Status::OutOfMemory;
    };
    let mut tables = FileSource::new(File::open(rt, TABLES));
    let mut out = Writing::new(rt.stdout());
    let mut link = UdpLink::new(alloc, rt);
    run(
        alloc,
        args,
        &mut input,
        &mut tables,
        &mut out,
        a,
        b,
        &mut link,
        &mut words,
    )
}

/// A generator of random words whose key, and the word at which it begins, are octets of the random
/// source of the runtime.
///
/// The key alone would do. But words are written in their caller's place only where the function that
/// makes a block of them is called from here too, by a place that isn't known before.
fn generator(rt: &impl RandomSource) -> io::Result<ChaCha8Rng> {
    let mut key = [0; 32];
    rt.fill_bytes(&mut key)?;
    let mut start = [0; 8];
    rt.fill_bytes(&mut start)?;
    let mut words = ChaCha8Rng::from_seed(key);
    words.set_word_pos(u128::from(u64::from_le_bytes(start)));
    Ok(words)
}
