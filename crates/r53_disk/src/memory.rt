//! A disk that keeps its calls, so that it knows every image a crash may leave.

ghost use Rattle.std.specs.Prelude.{◌≡◌, ◌⊎◌, ◌↔◌, ℕ, ◌+◌, ◌<◌, ◌≤◌, List, [], ◌∷◌, ◌++◌, length, take, drop, Some, IfOk, OnOk, OnErr};
ghost use Rattle.octets.specs.Counts.{Rose};
ghost use Rattle.r53_disk.specs.Disk.{Rests, GivesSize, GivesBytes, WriteLeaves, Unsettles, Settles, Elapses};
ghost use Rattle.r53_disk.specs.Memory.{History, reading_of, IsImage, IsImageSince, AfterSize, AfterRead, AfterWrite, AfterSync};
ghost use Rattle.r53_disk.specs.Calls.{traces_of};
ghost use Rattle.r53_disk.specs.declared.record.Call.{Call};
ghost use Rattle.r53_disk.specs.Images.{torn_write, torn_after, image_of};

use crate::record::{Call, is_refused, note_sync, note_try, note_write, write_over};
use crate::{Disk, Done, Size};
use octets::OutOfMemory;
use std::alloc::Global;
use std::marker::Model;

/// What a byte that a crash may change holds in an image.
#[derive(Clone, Copy, Debug, PartialEq, Eq)]
pub enum Torn {
    /// What was last written or tried.
    Kept,
    /// What stood there after the last sync that succeeded, and the length of that moment.
    Lost,
    /// This value.
    Filled(u8),
}

/// A disk in memory, which fails at the calls that it is told.
///
/// It keeps what it was made with, and each call since that a crash can tell from none.
#[derive(Drop)]
pub struct MemoryDisk {
    alloc: Global,
    first: Vec<u8>,
    kept: Vec<Call>,
    bytes: Vec<u8>,
    room: u64,
    fail: Vec<u64>,
    calls: u64,
    faults: u64,
    starved: u64,
}

impl Model for MemoryDisk {
    ghost use Rattle.std.specs.Prelude.{◌≡◌};
    ghost use Rattle.r53_disk.specs.Memory.{History, reading_after};
    ghost use Rattle.r53_disk.specs.Calls.{traces_of};

    ghost Value = { History };

    ghost view = { λ d. record {
      first = d.first.items;
      steps = traces_of d.kept.items;
      room = d.room;
      fail = d.fail.items;
      calls = d.calls;
      faults = d.faults;
      starved = d.starved;
    } };

    ghost invariant = { λ d. d.bytes.items ≡ reading_after d.first.items (traces_of d.kept.items) };
}

impl MemoryDisk {
    /// A disk with these bytes, all of them synced. The calls whose numbers, from 0, are in `fail` fail.
    pub fn new(
        alloc: Global,
        bytes: &[u8],
        room: u64,
        fail: &[u64],
    ) -> Result<MemoryDisk, OutOfMemory>
        requires { length bytes.now ≤ room }
        ensures { IfOk result (λ disk. disk ≡ record {
          first = bytes.now;
          steps = [];
          room = room;
          fail = fail.now;
          calls = 0;
          faults = 0;
          starved = 0;
        }) }
    {
        let first = bytes.to_vec(alloc)?;
        let bytes = bytes.to_vec(alloc)?;
        let fail = fail.to_vec(alloc)?;
        Ok(MemoryDisk {
            alloc,
            first,
            kept: Vec::new(alloc),
            bytes,
            room,
            fail,
            calls: 0,
            faults: 0,
            starved: 0,
        })
    }

    /// One of the images that a crash now may leave: `torn` chooses what the bytes that it may change hold.
    pub fn image(&self, torn: Torn) -> Result<Vec<u8>, OutOfMemory>
        ensures image { IfOk result (λ image. IsImage self.now image.items) }
        ensures exact { IfOk result (λ image. image.items ≡ image_of torn self.now) }
    {
        let image = replay(self.alloc, torn, &self.first, &self.kept)?;
        Ok(image)
    }

    /// How many calls found no memory for what the disk keeps.
    pub fn starved(&self) -> u64
        ensures { result ≡ self.now.starved }
    {
        self.starved
    }

    fn take_size(&mut self) -> Size
        ensures after { AfterSize self.old result self.new }
        ensures counts { self.old.faults ≤ self.new.faults }
    {
        let call = self.calls;
        self.calls = self.calls.saturating_add(1);
        if self.fail.contains(&call) {
            self.faults = self.faults.saturating_add(1);
            return Size::Failed;
        }
        Size::Bytes(self.bytes.len() as u64)
    }

    fn read(&mut self, at: u64, into: &mut [u8]) -> Done
        requires { at + length into.old ≤ length (reading_of self.old) }
        ensures after { AfterRead self.old result self.new }
        ensures counts { self.old.faults ≤ self.new.faults }
        ensures bytes { GivesBytes result (reading_of self.old) at into.new }
        ensures stays { result ≡ Done.Failed → into.new ≡ into.old }
    {
        let call = self.calls;
        self.calls = self.calls.saturating_add(1);
        if self.fail.contains(&call) {
            self.faults = self.faults.saturating_add(1);
            return Done::Failed;
        }
        copy_from(into, &self.bytes, at as usize);
        Done::Whole
    }

    fn write(&mut self, at: u64, from: &[u8]) -> Done
        requires { at ≤ length (reading_of self.old) }
        ensures after { AfterWrite self.old result at from.now self.new }
        ensures counts { self.old.faults ≤ self.new.faults }
    {
        let call = self.calls;
        self.calls = self.calls.saturating_add(1);
        if is_refused(&self.fail, call, self.room, at, from) {
            self.faults = self.faults.saturating_add(1);
            if let Err(OutOfMemory) = note_try(self.alloc, &mut self.kept, at, from) {
                self.starved = self.starved.saturating_add(1);
            }
            return Done::Failed;
        }
        let Ok(()) = note_write(self.alloc, &mut self.kept, &mut self.bytes, at, from) else {
            self.faults = self.faults.saturating_add(1);
            self.starved = self.starved.saturating_add(1);
            return Done::Failed;
        };
        Done::Whole
    }

    fn settle(&mut self) -> Done
        ensures after { AfterSync self.old result self.new }
        ensures counts { self.old.faults ≤ self.new.faults }
    {
        let call = self.calls;
        self.calls = self.calls.saturating_add(1);
        if self.fail.contains(&call) {
            self.faults = self.faults.saturating_add(1);
            return Done::Failed;
        }
        let Ok(()) = note_sync(&mut self.kept) else {
            self.faults = self.faults.saturating_add(1);
            self.starved = self.starved.saturating_add(1);
            return Done::Failed;
        };
        Done::Whole
    }
}

impl Disk for MemoryDisk {
    ghost use Rattle.std.specs.Prelude.{Some, length, refl};
    ghost use Rattle.r53_disk.specs.Memory.{reading_of, IsImage, IsImageSince};
    ghost use Rattle.r53_disk.specs.Laws.{reads_as_image, now_counts, now_only};

    ghost reading = { λ d. Some (reading_of d) };

    ghost images = { λ d c. IsImage d c };

    ghost moment = { λ d. length d.steps };

    ghost images_since = { λ d t c. IsImageSince d t c };

    ghost faults = { λ d. d.faults };

    ghost alike = { λ d e bytes told. (reading_of e, refl) };

    ghost is_image = { λ d bytes told. reads_as_image d bytes told };

    ghost counts_now = { λ d t c le now. now_counts d t c le now };

    ghost only_now = { λ d c left. now_only d c left };

    fn size(&mut self) -> Size
        ensures size { (bytes : List ℕ) → Some (reading_of self.old) ≡ Some bytes → GivesSize result bytes }
        ensures rests { Rests (λ d. Some (reading_of d)) IsImage (λ d. length d.steps) IsImageSince
            self.old self.new }
        ensures counts { self.old.faults ≤ self.new.faults }
        ensures failed { result ≡ Size.Failed → Rose self.old.faults self.new.faults }

        // It fails exactly at the calls that it was told.
        ensures after { AfterSize self.old result self.new }
    {
        self.take_size()
    }

    fn read_at(&mut self, at: u64, into: &mut [u8]) -> Done
        requires { at + length into.old ≤ length (reading_of self.old) }
        ensures bytes { (bytes : List ℕ) → Some (reading_of self.old) ≡ Some bytes
            → GivesBytes result bytes at into.new }
        ensures rests { Rests (λ d. Some (reading_of d)) IsImage (λ d. length d.steps) IsImageSince
            self.old self.new }
        ensures counts { self.old.faults ≤ self.new.faults }
        ensures failed { result ≡ Done.Failed → Rose self.old.faults self.new.faults }

        // It fails exactly at the calls that it was told, and the slice stays then.
        ensures after { AfterRead self.old result self.new }
        ensures stays { result ≡ Done.Failed → into.new ≡ into.old }
    {
        self.read(at, into)
    }

    fn write_at(&mut self, at: u64, from: &[u8]) -> Done
        requires { at ≤ length (reading_of self.old) }
        ensures reading { (bytes : List ℕ) → Some (reading_of self.old) ≡ Some bytes
            → WriteLeaves result bytes at from.now (Some (reading_of self.new)) }
        ensures images { Unsettles result at (length from.now) (IsImage self.old) (IsImage self.new) }
        ensures time { Elapses (λ d. length d.steps) IsImageSince IsImage self.old self.new }
        ensures counts { self.old.faults ≤ self.new.faults }
        ensures failed { result ≡ Done.Failed → Rose self.old.faults self.new.faults }

        // It fails exactly at the calls that it was told, past its room, and where it found no memory.
        ensures after { AfterWrite self.old result at from.now self.new }
    {
        self.write(at, from)
    }

    fn sync(&mut self) -> Done
        ensures reading { reading_of self.new ≡ reading_of self.old }
        ensures images { Settles result (reading_of self.old) (IsImage self.old) (IsImage self.new) }
        ensures time { Elapses (λ d. length d.steps) IsImageSince IsImage self.old self.new }
        ensures counts { self.old.faults ≤ self.new.faults }
        ensures failed { result ≡ Done.Failed → Rose self.old.faults self.new.faults }

        // It fails exactly at the calls that it was told, and where it found no memory.
        ensures after { AfterSync self.old result self.new }
    {
        self.settle()
    }
}

/// Copies what stands from a place on.
fn copy_from(into: &mut [u8], bytes: &[u8], at: usize)
    requires { at + length into.old ≤ length bytes.now }
    ensures { into.new ≡ take (length into.old) (drop at bytes.now) }
{
    into.copy_from_slice(&bytes[at..at + into.len()]);
}

/// What these calls leave, on a disk that was made with these bytes.
fn replay(alloc: Global, torn: Torn, first: &[u8], calls: &[Call]) -> Result<Vec<u8>, OutOfMemory>
    ensures { IfOk result (λ image. image.items ≡ torn_after torn first.now first.now (traces_of calls.now)) }
{
    let mut reading = first.to_vec(alloc)?;
    let mut image = first.to_vec(alloc)?;
    for call in calls {
        replay_call(alloc, torn, call, &mut reading, &mut image)?;
    }
    Ok(image)
}

/// What one call leaves, of the reading and of the image.
fn replay_call(
    alloc: Global,
    torn: Torn,
    call: &Call,
    reading: &mut Vec<u8>,
    image: &mut Vec<u8>,
) -> Result<(), OutOfMemory>
    ensures { OnOk result ((rest : List Call)
        → torn_after torn reading.old.items image.old.items (traces_of (call.now ∷ rest))
        ≡ torn_after torn reading.new.items image.new.items (traces_of rest)) }
{
    match call {
        Call::Write(at, from) => {
            let at = reading.len().min(*at as usize);
            tear(alloc, torn, image, at, from)?;
            write_over(reading, at, from)
        }
        Call::Try(at, from) => {
            let at = reading.len().min(*at as usize);
            tear(alloc, torn, image, at, from)
        }
        Call::Sync => {
            *image = reading.to_vec(alloc)?;
            Ok(())
        }
    }
}

/// What is left of a write.
fn tear(
    alloc: Global,
    torn: Torn,
    image: &mut Vec<u8>,
    at: usize,
    from: &[u8],
) -> Result<(), OutOfMemory>
    ensures { OnOk result (image.new.items ≡ torn_write torn image.old.items at from.now) }
{
    let at = image.len().min(at);
    match torn {
        Torn::Kept => write_over(image, at, from),
        Torn::Lost => Ok(()),
        Torn::Filled(value) => {
            let filled = vec![in alloc; value; from.len()]?;
            write_over(image, at, &filled)
        }
    }
}
