//! A file as a source.

ghost use Rattle.std.specs.Prelude.{◌≡◌, ◌≢◌, ℕ, ◌≤◌, List, Some, None, length, IfOk, IfErr};
ghost use Rattle.std.specs.IoError.{error_kind};
ghost use Rattle.octets.specs.Counts.{Rose};
ghost use Rattle.r53_io.specs.Streams.{IsWithin, ReadGives, IfBytes};
ghost use Rattle.file_disk.specs.Source.{FileState, Open, Missing, Refused, left_of, AfterRead};

use r53_io::{Got, Source};
use std::io::{self, ErrorKind, Read};
use std::marker::Model;

/// What came of the opening of a file.
#[derive(Drop)]
enum Opened<F> {
    Open(F),
    Missing,
    Refused,
}

/// A file as a source. One that isn't there is empty; of the bytes of others nothing is told.
#[derive(Drop)]
pub struct FileSource<F> {
    file: Opened<F>,
    faults: u64,
}

impl<F> Model for FileSource<F> {
    ghost use Rattle.file_disk.specs.Source.{FileState};
    ghost use Rattle.file_disk.specs.Opened.{opening_of};

    ghost Value = { FileState };

    ghost view = { λ a. record {
      opening = opening_of a.file;
      faults = a.faults;
    } };
}

impl<F> FileSource<F> {
    /// A source over a file that was to be opened. It has not failed yet.
    pub fn new(opened: io::Result<F>) -> Self
        ensures open { IfOk opened (λ _. result ≡ record { opening = Open; faults = 0 }) }
        ensures missing { IfErr opened (λ error. error_kind error ≡ ErrorKind.NotFound
            → result ≡ record { opening = Missing; faults = 0 }) }
        ensures refused { IfErr opened (λ error. error_kind error ≢ ErrorKind.NotFound
            → result ≡ record { opening = Refused; faults = 0 }) }
    {
        let file = match opened {
            Ok(file) => Opened::Open(file),
            Err(error) if error.kind() == ErrorKind::NotFound => Opened::Missing,
            Err(_) => Opened::Refused,
        };
        FileSource { file, faults: 0 }
    }
}

impl<F: Read> Source for FileSource<F> {
    ghost use Rattle.file_disk.specs.Source.{left_of};

    ghost left = { λ s. left_of s.opening };

    ghost faults = { λ s. s.faults };

    fn read(&mut self, into: &mut [u8]) -> Got
        ensures within { IsWithin result (length into.old) }
        ensures gives { (bytes : List ℕ) → left_of self.old.opening ≡ Some bytes
            → ReadGives bytes (left_of self.new.opening) result into.old into.new }
        ensures counts { self.old.faults ≤ self.new.faults }
        ensures failed { result ≡ Got.Failed → Rose self.old.faults self.new.faults }

        // It never fails where the file is missing, and always where it was refused.
        ensures after { AfterRead self.old result self.new }
    {
        match &mut self.file {
            Opened::Open(file) => {
                if let Ok(n) = file.read(into) {
                    return Got::Bytes(n);
                }
            }
            Opened::Missing => return Got::Bytes(0),
            Opened::Refused => {}
        }
        self.faults = self.faults.saturating_add(1);
        Got::Failed
    }
}
