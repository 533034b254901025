//! Runs of `once`.

ghost use Rattle.std.specs.Prelude.{◌<◌};

use crate::stores::{run_words, with};
use crate::two_disks::empty_disks;
use r53_cli::Status;
use r53_io::VecSink;
use std::alloc::{AllocError, Global};
use std::process::Abort;
use std::test::Fail;

/// The words of a command line.
pub(crate) fn words(alloc: Global, texts: &[&str]) -> Result<Vec<String>, AllocError> {
    let mut words = Vec::new(alloc);
    for text in texts {
        words.push(text.to_string(alloc)?)?;
    }
    Ok(words)
}

/// How a run over these words and this input ends, in pieces, where the reads of these numbers fail.
fn run_over(
    alloc: Global,
    texts: &[&str],
    input: &[u8],
    piece: usize,
    fail: &[u64],
    sink: &mut VecSink,
) -> Result<Status, Fail>
    requires { 0 < piece }
{
    let mut disks = empty_disks(alloc, 0)?;
    let ended = run_words(alloc, texts, input, piece, fail, sink, &mut disks);
    drop(disks);
    ended
}

/// The same into so much room, with how many octets it writes.
fn count_over(
    alloc: Global,
    texts: &[&str],
    input: &[u8],
    piece: usize,
    fail: &[u64],
    room: usize,
) -> Result<(Status, usize), Fail>
    requires { 0 < piece }
{
    let mut sink = VecSink::new(alloc, room, &[])?;
    let ended = run_over(alloc, texts, input, piece, fail, &mut sink);
    let told = with(ended, sink.bytes().len());
    drop(sink);
    told
}

/// What is asked, the packet, and the reply, both in hexadecimal digits.
type Row = (&'static str, &'static str, &'static str);

/// Whether a run answers this packet so, where it comes in pieces of so many octets.
fn answers_in(
    alloc: Global,
    texts: &[&str],
    packet: &[u8],
    piece: usize,
    reply: &[u8],
) -> Result<bool, Fail>
    requires { 0 < piece }
{
    let mut sink = VecSink::new(alloc, 600, &[])?;
    let ended = run_over(alloc, texts, packet, piece, &[], &mut sink);
    let told = with(ended, sink.bytes() == reply);
    drop(sink);
    let (status, same) = told?;
    Ok(status == Status::Done && same)
}

/// Whether a run answers this packet so, in whatever pieces it comes.
fn answers(alloc: Global, texts: &[&str], packet: &[u8], reply: &[u8]) -> Result<bool, Fail> {
    Ok(
        answers_in(alloc, texts, packet, 1, reply)?
            && answers_in(alloc, texts, packet, 7, reply)?
            && answers_in(alloc, texts, packet, 100, reply)?,
    )
}

/// Runs over these words and the packet of a row, and compares the reply.
fn compare_row(rt: &impl Abort, alloc: Global, texts: &[&str], row: &Row) -> Result<(), Fail> {
    let (what, packet, reply) = row;
    let packet = hex::decode(alloc, packet)?;
    let answered = answers_digits(alloc, texts, &packet, reply);
    drop(packet);
    assert!(rt; answered?, "{what}");
    Ok(())
}

/// Whether a run answers this packet by a reply in hexadecimal digits, in whatever pieces it comes.
fn answers_digits(
    alloc: Global,
    texts: &[&str],
    packet: &[u8],
    digits: &str,
) -> Result<bool, Fail> {
    let reply = hex::decode(alloc, digits)?;
    let answered = answers(alloc, texts, packet, &reply);
    drop(reply);
    answered
}

/// Runs over these words and the packets of the rows, and compares the replies.
fn compare(rt: &impl Abort, alloc: Global, texts: &[&str], rows: &[Row]) -> Result<(), Fail> {
    for row in rows {
        compare_row(rt, alloc, texts, row)?;
    }
    Ok(())
}

const WWW: [&str; 4] = ["once", "www.example.com", "300", "192.0.2.1"];

const ESCAPED: [&str; 4] = ["once", "\\127ww.Example.\\143om.", "300", "192.0.2.1"];

const ROOT: [&str; 4] = ["once", ".", "2147483647", "255.255.255.255"];

#[test]
fn answers_questions(rt: HostRuntime) -> Result<(), Fail> {
    let www: [Row; 7] = [
        (
            // as dig asks: 1,232 octets, and a cookie (code 10), which is skipped
            "dig: AD beside RD, a cookie",
            "12340120000100000000000103777777076578616d706c6503636f6d000001000100002904d000000000000c000a00080102030405060708",
            "12348500000100010000000103777777076578616d706c6503636f6d0000010001c00c000100010000012c0004c00002010000291000000000000000",
        ),
        (
            "another type, refused with an OPT record",
            "12340120000100000000000103777777076578616d706c6503636f6d00001c000100002904d0000080000000",
            "12348105000100000000000103777777076578616d706c6503636f6d00001c00010000291000000080000000",
        ),
        (
            // id 0x1234, RD, one question: wWw.example.com. A IN; the reply repeats the question's octets
            "the record, asked in another case",
            "12340100000100000000000003775777076578616d706c6503636f6d0000010001",
            "12348500000100010000000003775777076578616d706c6503636f6d0000010001c00c000100010000012c0004c0000201",
        ),
        (
            // the same with type AAAA
            "another type",
            "12340100000100000000000003775777076578616d706c6503636f6d00001c0001",
            "12348105000100000000000003775777076578616d706c6503636f6d00001c0001",
        ),
        (
            // the same with class CH
            "another class",
            "12340100000100000000000003775777076578616d706c6503636f6d0000010003",
            "12348105000100000000000003775777076578616d706c6503636f6d0000010003",
        ),
        (
            // without RD, for wwv.example.com.
            "another name",
            "ffff0000000100000000000003777776076578616d706c6503636f6d0000010001",
            "ffff8005000100000000000003777776076578616d706c6503636f6d0000010001",
        ),
        (
            "octets behind the question",
            "12340100000100000000000003775777076578616d706c6503636f6d0000010001ffff",
            "12348500000100010000000003775777076578616d706c6503636f6d0000010001c00c000100010000012c0004c0000201",
        ),
    ];
    let escaped: [Row; 1] = [(
        // \127 is W and \143 is c
        "a name with escapes and a final dot",
        "12340100000100000000000003777777076578616d706c6503636f6d0000010001",
        "12348500000100010000000003777777076578616d706c6503636f6d0000010001c00c000100010000012c0004c0000201",
    )];
    let root: [Row; 1] = [(
        // the root as the owner is its zero octet, not a pointer
        "the root",
        "0001000000010000000000000000010001",
        "000184000001000100000000000001000100000100017fffffff0004ffffffff",
    )];
    compare(&rt, rt.alloc(), &WWW, &www)?;
    compare(&rt, rt.alloc(), &ESCAPED, &escaped)?;
    compare(&rt, rt.alloc(), &ROOT, &root)
}

#[test]
fn answers_nothing_or_a_header(rt: HostRuntime) -> Result<(), Fail> {
    let rows: [Row; 4] = [
        (
            "opcode 5 with an authority record",
            "12342900000100000001000003777777076578616d706c6503636f6d0000010001",
            "1234a9040000000000000000",
        ),
        ("nothing", "", ""),
        (
            "a response",
            "12348100000100000000000003775777076578616d706c6503636f6d0000010001",
            "",
        ),
        (
            "two questions",
            "12340100000200000000000003775777076578616d706c6503636f6d0000010001",
            "123481010000000000000000",
        ),
    ];
    compare(&rt, rt.alloc(), &WWW, &rows)
}

#[test]
fn reads_past_the_packet(rt: HostRuntime) -> Result<(), Fail> {
    let mut input = hex::decode(
        rt.alloc(),
        "12340100000100000000000003775777076578616d706c6503636f6d0000010001",
    )?;
    input.resize(70_000, 0)?;
    let told = count_over(rt.alloc(), &WWW, &input, 5000, &[], 600);
    drop(input);
    assert_eq!(rt; told?, (Status::Done, 49));
    Ok(())
}

/// Runs over a packet where the reads of these numbers fail, into so much room. Nothing is written.
fn ends_with(
    rt: &impl Abort,
    alloc: Global,
    fail: &[u64],
    room: usize,
    status: Status,
) -> Result<(), Fail> {
    let packet = hex::decode(
        alloc,
        "12340100000100000000000003775777076578616d706c6503636f6d0000010001",
    )?;
    let told = count_over(alloc, &WWW, &packet, 1, fail, room);
    drop(packet);
    assert_eq!(rt; told?, (status, 0), "{fail:?}");
    Ok(())
}

#[test]
fn ends_with_a_status(rt: HostRuntime) -> Result<(), Fail> {
    ends_with(&rt, rt.alloc(), &[0], 600, Status::ReadFault)?;
    // the read of the end
    ends_with(&rt, rt.alloc(), &[33], 600, Status::ReadFault)?;
    ends_with(&rt, rt.alloc(), &[], 48, Status::WriteFault)
}

/// Runs over these words, which are of no form. Nothing is written.
fn refuse_words(rt: &impl Abort, alloc: Global, texts: &[&str]) -> Result<(), Fail> {
    let told = count_over(alloc, texts, &[0; 12], 12, &[], 600)?;
    assert_eq!(rt; told, (Status::Usage, 0), "{texts:?}");
    Ok(())
}

/// The same for each of these.
fn refuse(rt: &impl Abort, alloc: Global, rows: &[&[&str]]) -> Result<(), Fail> {
    for texts in rows {
        refuse_words(rt, alloc, texts)?;
    }
    Ok(())
}

#[test]
fn refuses_words(rt: HostRuntime) -> Result<(), Fail> {
    let rows: [&[&str]; 23] = [
        &[],
        &["once"],
        &["once", "www.example.com"],
        &["once", "www.example.com", "300", "192.0.2.1", ""],
        &["twice", "www.example.com", "300", "192.0.2.1"],
        &["once", "", "300", "192.0.2.1"],
        &["once", "a..b", "300", "192.0.2.1"],
        &["once", "a b", "300", "192.0.2.1"],
        &["once", "a\\9", "300", "192.0.2.1"],
        &["once", "a\\.b", "300", "192.0.2.1"],
        &["once", "a\\400", "300", "192.0.2.1"],
        &["once", "-a", "300", "192.0.2.1"],
        &["once", "--help", "300", "192.0.2.1"],
        &["once", "www.example.com", "2147483648", "192.0.2.1"],
        &["once", "www.example.com", "0300", "192.0.2.1"],
        &["once", "www.example.com", "+300", "192.0.2.1"],
        &["once", "www.example.com", "", "192.0.2.1"],
        &["once", "www.example.com", "300", "192.0.2.01"],
        &["once", "www.example.com", "300", "192.0.2.1 "],
        &["init", ""],
        &["drill"],
        &["drill", "100001"],
        &["drill", "007"],
    ];
    refuse(&rt, rt.alloc(), &rows)
}
