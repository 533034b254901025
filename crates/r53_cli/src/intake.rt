//! Reading to the end: the first 65,535 bytes are kept, and the rest is counted and let go.

ghost use Rattle.std.specs.Prelude.{◌≡◌, ℕ, ◌≤◌, ◌<◌, List, Some, length};
ghost use Rattle.octets.specs.Counts.{Rose};
ghost use Rattle.r53_cli.specs.Streams.{IntakeOf, IntakeWithin, DrainOf, PacketOf, PacketWithin};

use r53_io::{Got, Source};

/// The most bytes of a packet.
pub(crate) const PACKET_LEN: usize = 65_535;

/// The bytes of input without an end at which a run gives up.
const INPUT_LIMIT: u64 = 1 << 40;

/// What filling a buffer came to.
#[derive(Clone, Copy, Debug, PartialEq, Eq)]
pub(crate) enum Intake {
    /// The buffer is full.
    Full,
    /// The source ended after this many bytes.
    Ended(usize),
    /// The source failed.
    Failed,
}

/// Reads until the buffer is full or the source ends.
pub(crate) fn fill<S: Source>(input: &mut S, buffer: &mut [u8]) -> Intake
    ensures reads { (left : List ℕ) → S.left input.old ≡ Some left
        → IntakeOf left (S.left input.new) result buffer.new }
    ensures within { IntakeWithin result (length buffer.old) }
    ensures counts { S.faults input.old ≤ S.faults input.new }
    ensures failed { result ≡ Intake.Failed → Rose (S.faults input.old) (S.faults input.new) }
{
    let mut at = 0;
    while at < buffer.len() {
        match input.read(&mut buffer[at..]) {
            Got::Bytes(n) => {
                if n == 0 {
                    return Intake::Ended(at);
                }
                at += n;
            }
            Got::Failed => return Intake::Failed,
        }
    }
    Intake::Full
}

/// How the rest of a source ended.
#[derive(Clone, Copy, Debug, PartialEq, Eq)]
pub(crate) enum Drained {
    /// At its end.
    Ended,
    /// As many bytes as are read at most were read without an end.
    TooLong,
    /// The source failed.
    Failed,
}

/// Reads a source to its end, or as many bytes as `most`, and lets them go.
pub(crate) fn drain<S: Source>(input: &mut S, buffer: &mut [u8], most: u64) -> Drained
    requires { 0 < length buffer.old }
    ensures reads { (left : List ℕ) → S.left input.old ≡ Some left
        → DrainOf left (S.left input.new) result most }
    ensures counts { S.faults input.old ≤ S.faults input.new }
    ensures failed { result ≡ Drained.Failed → Rose (S.faults input.old) (S.faults input.new) }
{
    let mut budget = most;
    while budget > 0 {
        let room = (buffer.len() as u64).min(budget) as usize;
        match input.read(&mut buffer[..room]) {
            Got::Bytes(n) => {
                if n == 0 {
                    return Drained::Ended;
                }
                budget -= n as u64;
            }
            Got::Failed => return Drained::Failed,
        }
    }
    Drained::TooLong
}

/// What came in.
#[derive(Clone, Copy, Debug, PartialEq, Eq)]
pub(crate) enum Incoming {
    /// The input ended. Its first bytes, so many, are the packet.
    Packet(usize),
    /// 2^40 bytes came without an end.
    TooLong,
    /// The source failed.
    Failed,
}

/// Reads the input to its end, its first 65,535 bytes as a packet. The rest goes through a second buffer.
pub(crate) fn take_packet<S: Source>(input: &mut S, packet: &mut [u8], rest: &mut [u8]) -> Incoming
    requires packet { length packet.old ≡ 65535 }
    requires rest { 0 < length rest.old }
    ensures reads { (left : List ℕ) → S.left input.old ≡ Some left
        → PacketOf left (S.left input.new) result packet.new }
    ensures within { PacketWithin result }
    ensures counts { S.faults input.old ≤ S.faults input.new }
    ensures failed { result ≡ Incoming.Failed → Rose (S.faults input.old) (S.faults input.new) }
{
    match fill(input, packet) {
        Intake::Failed => Incoming::Failed,
        Intake::Ended(len) => Incoming::Packet(len),
        Intake::Full => match drain(input, rest, INPUT_LIMIT - PACKET_LEN as u64) {
            Drained::Failed => Incoming::Failed,
            Drained::TooLong => Incoming::TooLong,
            Drained::Ended => Incoming::Packet(PACKET_LEN),
        },
    }
}
