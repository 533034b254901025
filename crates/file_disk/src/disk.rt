//! A file as a disk.

ghost use Rattle.std.specs.Prelude.{◌≡◌, ℕ, ◌≤◌, List, Some, None, length};
ghost use Rattle.octets.specs.Counts.{Rose, next_count};
ghost use Rattle.r53_disk.specs.Disk.{Rests, GivesSize, GivesBytes, WriteLeaves, Unsettles, Settles, Elapses};
ghost use Rattle.file_disk.specs.Faults.{IsCounted, IsSizeCounted};
ghost use Rattle.file_disk.specs.Untold.{untold, no_image, no_moment, none_since};

use r53_disk::{Disk, Done, Size};
use std::fs::{File, OpenOptions};
use std::io::{self, ErrorKind};
use std::marker::Model;
use std::os::unix::fs::FileExt;
use std::rt::Files;

/// The folder that a name without one stands in.
const FOLDER: &str = ".";

/// A file of the current folder as a disk. It tells nothing of its bytes, and is seen as its count of faults.
///
/// The file is opened at the first call. One that isn't there reads as empty, and is made by the first write.
/// How long it is, the system is asked once: nobody else writes to it, and its own writes tell what they make
/// of that. Behind a write that failed the system is asked anew.
#[derive(Drop)]
pub struct FileDisk<'a, R: Files<File = File>> {
    files: &'a R,
    name: &'a str,
    file: Option<File>,
    is_named: bool,
    /// How many octets the file has, where that is known.
    length: Option<u64>,
    faults: u64,
}

impl<'a, R: Files<File = File>> Model for FileDisk<'a, R> {
    ghost use Rattle.std.specs.Prelude.{ℕ};

    ghost Value = { ℕ };

    ghost view = { λ a. a.faults };
}

impl<'a, R: Files<File = File>> FileDisk<'a, R> {
    /// A disk over the file of this name, which has not failed yet.
    pub fn new(files: &'a R, name: &'a str) -> Self
        ensures { result ≡ 0 }
    {
        FileDisk {
            files,
            name,
            file: None,
            is_named: false,
            length: None,
            faults: 0,
        }
    }

    /// Counts what failed.
    fn told(&mut self, answer: io::Result<()>) -> Done
        ensures counted { IsCounted result self.old self.new }
        ensures counts { self.old ≤ self.new }
    {
        match answer {
            Ok(()) => Done::Whole,
            Err(_) => {
                self.faults = self.faults.saturating_add(1);
                Done::Failed
            }
        }
    }

    /// Opens the file, where it is there and isn't open.
    fn open(&mut self) -> io::Result<()>
        ensures { self.new ≡ self.old }
    {
        if self.file.is_none() {
            self.file = opened(self.files, self.name, false)?;
        }
        Ok(())
    }

    /// How many octets the file has, none where it isn't there.
    fn measure(&mut self) -> io::Result<u64>
        ensures { self.new ≡ self.old }
    {
        self.open()?;
        let Some(file) = &self.file else {
            return Ok(0);
        };
        if let Some(length) = self.length {
            return Ok(length);
        }
        let length = file.metadata()?.len();
        self.length = Some(length);
        Ok(length)
    }

    /// Reads, unless it would go past the end.
    fn read(&mut self, at: u64, into: &mut [u8]) -> io::Result<()>
        ensures { self.new ≡ self.old }
    {
        if into.is_empty() && at > self.measure()? {
            return Err(io::Error::from(ErrorKind::UnexpectedEof));
        }
        self.open()?;
        match &self.file {
            Some(file) => file.read_exact_at(into, at),
            None if into.is_empty() => Ok(()),
            None => Err(io::Error::from(ErrorKind::UnexpectedEof)),
        }
    }

    /// Writes, unless it would begin past the end.
    fn write(&mut self, at: u64, from: &[u8]) -> io::Result<()>
        ensures { self.new ≡ self.old }
    {
        let length = self.measure()?;
        if at > length {
            return Err(io::Error::from(ErrorKind::InvalidInput));
        }
        if self.file.is_none() {
            self.file = opened(self.files, self.name, true)?;
        }
        let Some(file) = &self.file else {
            return Err(io::Error::from(ErrorKind::InvalidInput));
        };
        self.length = None;
        file.write_all_at(from, at)?;
        self.length = Some(length.max(at.saturating_add(from.len() as u64)));
        Ok(())
    }

    /// The first sync keeps the name of the file too, which stands in its folder.
    fn settle(&mut self) -> io::Result<()>
        ensures { self.new ≡ self.old }
    {
        self.open()?;
        if let Some(file) = &self.file {
            file.sync_data()?;
            if !self.is_named {
                File::open(self.files, FOLDER)?.sync_all()?;
                self.is_named = true;
            }
        }
        Ok(())
    }
}

impl<'a, R: Files<File = File>> Disk for FileDisk<'a, R> {
    ghost use Rattle.file_disk.specs.Untold.{untold, no_image, no_moment, none_since};

    ghost reading = { untold };

    ghost images = { no_image };

    ghost moment = { no_moment };

    ghost images_since = { none_since };

    ghost faults = { λ d. d };

    ghost alike = { λ d e bytes told. absurd (Prim.cc) };

    ghost is_image = { λ d bytes told. absurd (Prim.cc) };

    ghost counts_now = { λ d t c le now. now };

    ghost only_now = { λ d c left. left };

    fn size(&mut self) -> Size
        ensures size { (bytes : List ℕ) → untold self.old ≡ Some bytes → GivesSize result bytes }
        ensures rests { Rests untold no_image no_moment none_since self.old self.new }
        ensures counts { self.old ≤ self.new }
        ensures failed { result ≡ Size.Failed → Rose self.old self.new }
        ensures counted { IsSizeCounted result self.old self.new }
    {
        match self.measure() {
            Ok(n) => Size::Bytes(n),
            Err(_) => {
                self.faults = self.faults.saturating_add(1);
                Size::Failed
            }
        }
    }

    fn read_at(&mut self, at: u64, into: &mut [u8]) -> Done
        ensures bytes { (bytes : List ℕ) → untold self.old ≡ Some bytes
            → GivesBytes result bytes at into.new }
        ensures rests { Rests untold no_image no_moment none_since self.old self.new }
        ensures counts { self.old ≤ self.new }
        ensures failed { result ≡ Done.Failed → Rose self.old self.new }
        ensures counted { IsCounted result self.old self.new }
    {
        let answer = self.read(at, into);
        self.told(answer)
    }

    fn write_at(&mut self, at: u64, from: &[u8]) -> Done
        ensures reading { (bytes : List ℕ) → untold self.old ≡ Some bytes
            → WriteLeaves result bytes at from.now (untold self.new) }
        ensures untold { untold self.old ≡ None → untold self.new ≡ None }
        ensures images { (bytes : List ℕ) → untold self.old ≡ Some bytes
            → Unsettles result at (length from.now) (no_image self.old) (no_image self.new) }
        ensures time { Elapses no_moment none_since no_image self.old self.new }
        ensures counts { self.old ≤ self.new }
        ensures failed { result ≡ Done.Failed → Rose self.old self.new }
        ensures counted { IsCounted result self.old self.new }
    {
        let answer = self.write(at, from);
        self.told(answer)
    }

    fn sync(&mut self) -> Done
        ensures reading { untold self.new ≡ untold self.old }
        ensures images { (bytes : List ℕ) → untold self.old ≡ Some bytes
            → Settles result bytes (no_image self.old) (no_image self.new) }
        ensures time { Elapses no_moment none_since no_image self.old self.new }
        ensures counts { self.old ≤ self.new }
        ensures failed { result ≡ Done.Failed → Rose self.old self.new }
        ensures counted { IsCounted result self.old self.new }
    {
        let answer = self.settle();
        self.told(answer)
    }
}

/// The file of a name. One that isn't there is made, or is none.
fn opened<R: Files<File = File>>(files: &R, name: &str, make: bool) -> io::Result<Option<File>> {
    let mut how = OpenOptions::new();
    how.read(true).write(true).create(make);
    match how.open(files, name) {
        Ok(file) => Ok(Some(file)),
        Err(error) if error.kind() == ErrorKind::NotFound && !make => Ok(None),
        Err(error) => Err(error),
    }
}
