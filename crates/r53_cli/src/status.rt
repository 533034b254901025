//! How a run ends: the number and the line of each status.

ghost use Rattle.std.specs.Prelude.{◌≡◌, ◌+◌, length, take, ◌≤◌, ◌++◌, ◌∷◌, [], drop};
ghost use Rattle.std.specs.Fmt.{decimal};
ghost use Rattle.r53_cli.specs.Status.{number_of, text_of};

use itoa::Buffer;
use octets::put_at;
use zone_journal::Side;

/// How a run ended.
#[derive(Clone, Copy, Debug, PartialEq, Eq)]
pub enum Status {
    /// What was to be read was read to its end, and what was to be written was written.
    Done,
    /// The words are none of the program's forms.
    Usage,
    /// The files are no store: the side that decides, and the byte at which it isn't one; A and 0 where neither file is open.
    NotAStore(Side, u64),
    /// The file of this side is open; `a` is looked at first.
    AlreadyAStore(Side),
    /// This line of the tables, counted from 1, is the first that is bad.
    BadTables(u64),
    /// The input or the tables failed.
    ReadFault,
    /// The output failed, or took nothing of a piece.
    WriteFault,
    /// One of the two disks failed.
    DiskFault,
    /// The network failed.
    LinkFault,
    /// There was no memory at opening.
    OutOfMemory,
    /// 2^40 bytes of input or of tables were read without their end.
    InputTooLong,
}

impl Status {
    /// The exit status of the program.
    pub fn number(self) -> u8
        ensures { result ≡ number_of self }
    {
        match self {
            Status::Done => 0,
            Status::Usage => 1,
            Status::NotAStore(_, _) => 2,
            Status::AlreadyAStore(_) => 2,
            Status::BadTables(_) => 2,
            Status::ReadFault => 3,
            Status::WriteFault => 4,
            Status::DiskFault => 5,
            Status::LinkFault => 6,
            Status::OutOfMemory => 7,
            Status::InputTooLong => 8,
        }
    }
}

/// Writes to the front what the program says of a status, and answers how long that is.
///
/// It ends with a line feed. Of `Done` nothing is said.
pub fn status_text(status: &Status, into: &mut [u8; 128]) -> usize
    ensures text { take result into.new ≡ text_of status.now }
    ensures len { result ≡ length (text_of status.now) }
    ensures rest { drop result into.new ≡ drop result into.old }
{
    match *status {
        Status::Done => put_text(b"", into),
        Status::Usage => put_text(b"r53: usage\n", into),
        Status::NotAStore(Side::A, place) => {
            put_number(b"r53: not a store: disk a, byte ", place, into)
        }
        Status::NotAStore(Side::B, place) => {
            put_number(b"r53: not a store: disk b, byte ", place, into)
        }
        Status::AlreadyAStore(Side::A) => put_text(b"r53: already a store: disk a\n", into),
        Status::AlreadyAStore(Side::B) => put_text(b"r53: already a store: disk b\n", into),
        Status::BadTables(line) => put_number(b"r53: bad tables: line ", line, into),
        Status::ReadFault => put_text(b"r53: read fault\n", into),
        Status::WriteFault => put_text(b"r53: write fault\n", into),
        Status::DiskFault => put_text(b"r53: disk fault\n", into),
        Status::LinkFault => put_text(b"r53: link fault\n", into),
        Status::OutOfMemory => put_text(b"r53: out of memory\n", into),
        Status::InputTooLong => put_text(b"r53: input too long\n", into),
    }
}

/// Writes a text to the front, and answers how long it is.
fn put_text(text: &[u8], into: &mut [u8]) -> usize
    requires { length text.now ≤ length into.old }
    ensures text { take result into.new ≡ text.now }
    ensures len { result ≡ length text.now }
    ensures rest { drop result into.new ≡ drop result into.old }
{
    put_behind(into, 0, text)
}

/// Writes words, a number in decimal digits and a line feed to the front, and answers how long that is.
fn put_number(words: &[u8], n: u64, into: &mut [u8]) -> usize
    requires { length words.now + 21 ≤ length into.old }
    ensures text { take result into.new ≡ words.now ++ (decimal n ++ 0x0A ∷ []) }
    ensures len { result ≡ length (words.now ++ (decimal n ++ 0x0A ∷ [])) }
    ensures rest { drop result into.new ≡ drop result into.old }
{
    let at = put_behind(into, 0, words);
    let end = put_behind(into, at, Buffer::new().format(n).as_bytes());
    put_behind(into, end, b"\n")
}

/// Writes a piece behind the first octets, and answers where it ends.
fn put_behind(into: &mut [u8], at: usize, piece: &[u8]) -> usize
    requires { at + length piece.now ≤ length into.old }
    ensures text { take result into.new ≡ take at into.old ++ piece.now }
    ensures len { result ≡ at + length piece.now }
    ensures room { length into.new ≡ length into.old }
    ensures rest { drop result into.new ≡ drop result into.old }
{
    put_at(into, at, piece);
    at + piece.len()
}
