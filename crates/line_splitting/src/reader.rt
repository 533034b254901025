//! The reader of lines.

ghost use Rattle.std.specs.Prelude.{◌≡◌, ◌≤◌, ℕ, List, [], Some, None, length, take, drop, IfOk};
ghost use Rattle.std.specs.Prelude.{◌+◌, ◌<◌, IfSome, IsTrue};
ghost use Rattle.octets.specs.Counts.{Rose};
ghost use Rattle.line_splitting.specs.Reading.{Reader, fresh, HasOutcome, Leaves, IfStill};
ghost use Rattle.line_splitting.specs.Judging.{end_place};
ghost use Rattle.line_splitting.specs.Steps.{Takes, IfNothing, IsUnended, HasRoom};

use crate::judging::{Dropped, Told, drop_piece, drops, end_place, judge};
use crate::window::Window;
use octets::OutOfMemory;
use r53_io::{Got, Source};
use std::alloc::Global;
use std::marker::Model;

/// The bytes of input without an end at which it is too long.
const INPUT_LIMIT: u64 = 1 << 40;

/// What came of one turn of a reader.
#[derive(Clone, Copy, Debug, PartialEq, Eq)]
pub enum Next {
    /// A line, which `line` tells.
    Line,
    /// A line of more than 1,048,576 bytes.
    TooLong,
    /// No line waited, and the source was read once.
    Read,
    /// No line waited, and the read failed. A later turn tries again.
    Failed,
    /// All lines were given, and the source ended.
    Ended,
    /// All whole lines were given, and 2^40 bytes were read without the source's end.
    InputTooLong,
}

/// A reader of the lines of one source.
#[derive(Drop)]
pub struct LineReader {
    window: Window,
    searched: usize,
    dropped: Dropped,
    ended: bool,
    budget: u64,
}

impl Model for LineReader {
    ghost use Rattle.std.specs.Prelude.{◌≡◌, ◌≤◌, length, take, None};
    ghost use Rattle.line_splitting.specs.Judging.{end_place};
    ghost use Rattle.line_splitting.specs.Reading.{Reader};

    ghost Value = { Reader };

    ghost view = { λ r. record {
      line = r.window.line;
      waiting = r.window.waiting;
      dropped = r.dropped;
      ended = r.ended;
      budget = r.budget;
    } };

    ghost invariant = { λ r. (r.searched ≤ length r.window.waiting)
        × (end_place (take r.searched r.window.waiting) ≡ None) };
}

impl LineReader {
    /// A reader that has read nothing. It takes its buffer here, and no memory after.
    pub fn new(alloc: Global) -> Result<LineReader, OutOfMemory>
        ensures { IfOk result (λ r. r ≡ fresh) }
    {
        let window = Window::new(alloc)?;
        Ok(LineReader {
            window,
            searched: 0,
            dropped: Dropped::Nothing,
            ended: false,
            budget: INPUT_LIMIT,
        })
    }

    /// The line that the last turn gave.
    pub fn line(&self) -> &[u8]
        ensures { result.now ≡ self.now.line }
    {
        self.window.line()
    }

    /// Gives the next line that waits whole, or else reads once.
    ///
    /// The last line may lack its 0x0A: it is whole once the source was seen to end.
    pub fn next<S: Source>(&mut self, source: &mut S) -> Next
        // Which answer comes, by what waits.
        ensures answers { HasOutcome self.old result self.new }

        // The source is read only where no line waits, and what it gives is still to come.
        ensures still { IfStill result (source.new ≡ source.old) }
        ensures leaves { (left : List ℕ) → S.left source.old ≡ Some left
            → Leaves self.old left result self.new (S.left source.new) }

        // A read fails only where the source's count rose.
        ensures counts { S.faults source.old ≤ S.faults source.new }
        ensures failed { result ≡ Next.Failed → Rose (S.faults source.old) (S.faults source.new) }
    {
        match self.take_ready() {
            Told::Line => Next::Line,
            Told::TooLong => Next::TooLong,
            Told::Nothing => self.read_on(source),
        }
    }

    /// Gives the first line that waits whole and is not blank.
    fn take_ready(&mut self) -> Told
        ensures takes { Takes self.old result self.new }
        ensures open { IfNothing result (IsUnended self.new) }
    {
        match self.take_whole() {
            Told::Line => Told::Line,
            Told::TooLong => Told::TooLong,
            Told::Nothing => if self.ended {
                self.take_last()
            } else {
                Told::Nothing
            },
        }
    }

    /// Gives the first line that waits with its 0x0A and is not blank.
    fn take_whole(&mut self) -> Told
        ensures takes { Takes self.old result self.new }
        ensures open { IfNothing result (end_place self.new.waiting ≡ None) }
    {
        loop {
            let Some(place) = self.end_place() else {
                return Told::Nothing;
            };
            match self.take_line(place) {
                Told::Line => return Told::Line,
                Told::TooLong => return Told::TooLong,
                Told::Nothing => {}
            }
        }
    }

    /// The place of the first 0x0A that waits.
    fn end_place(&mut self) -> Option<usize>
        ensures place { result ≡ end_place self.old.waiting }
        ensures inside { IfSome result (λ k. k < length self.old.waiting) }
        ensures same { self.new ≡ self.old }
    {
        let waiting = self.window.waiting();
        let place = end_place(waiting, self.searched);
        if place.is_none() {
            self.searched = waiting.len();
        }
        place
    }

    /// Takes the line that ends at this place.
    fn take_line(&mut self, place: usize) -> Told
        requires place { Some place ≡ end_place self.old.waiting }
        requires inside { place < length self.old.waiting }
        ensures takes { Takes self.old result self.new }
        ensures shorter { length self.new.waiting < length self.old.waiting }
    {
        let told = judge(self.dropped, octets::front(self.window.waiting(), place));
        self.window.pass(place, place + 1);
        self.searched = 0;
        self.dropped = Dropped::Nothing;
        told
    }

    /// Takes the last line, which has no 0x0A.
    fn take_last(&mut self) -> Told
        requires no_end { end_place self.old.waiting ≡ None }
        requires ended { IsTrue self.old.ended }
        ensures takes { Takes self.old result self.new }
        ensures open { IfNothing result (IsUnended self.new) }
    {
        let waiting = self.window.waiting();
        let told = judge(self.dropped, waiting);
        let len = waiting.len();
        self.window.pass(len, len);
        self.searched = 0;
        self.dropped = Dropped::Nothing;
        told
    }

    /// Reads once, where the source has not ended and the limit is not reached.
    fn read_on<S: Source>(&mut self, source: &mut S) -> Next
        requires { IsUnended self.old }
        ensures answers { HasOutcome self.old result self.new }
        ensures still { IfStill result (source.new ≡ source.old) }
        ensures leaves { (left : List ℕ) → S.left source.old ≡ Some left
            → Leaves self.old left result self.new (S.left source.new) }
        ensures counts { S.faults source.old ≤ S.faults source.new }
        ensures failed { result ≡ Next.Failed → Rose (S.faults source.old) (S.faults source.new) }
    {
        if self.ended {
            return Next::Ended;
        }
        if self.budget == 0 {
            return Next::InputTooLong;
        }
        self.make_room();
        match self.window.take_from(source, self.budget) {
            Got::Bytes(n) => {
                self.budget -= n as u64;
                self.ended = n == 0;
                Next::Read
            }
            Got::Failed => Next::Failed,
        }
    }

    /// Drops what waits of a line that is too long, or blank so far.
    fn make_room(&mut self)
        requires { end_place self.old.waiting ≡ None }
        ensures { HasRoom self.old self.new }
    {
        let waiting = self.window.waiting();
        let len = waiting.len();
        if !drops(self.dropped, len) {
            return;
        }
        self.dropped = drop_piece(self.dropped, waiting);
        self.window.pass(0, len);
        self.searched = 0;
    }
}
