//! A reply line, written into a buffer and then out.

ghost use Rattle.std.specs.Prelude.{◌≡◌, ◌≤◌, ℕ, List, None, Some, length, vec_capacity};
ghost use Rattle.octets.specs.Counts.{Rose};
ghost use Rattle.reply_writing.specs.Json.{line_of};
ghost use Rattle.reply_writing.specs.Lists.{query_reply};
ghost use Rattle.reply_writing.specs.OutcomesOfReplyModel.{text_of};
ghost use Rattle.whole_writing.specs.Output.{OutputOf};

use r53_io::Sink;
use reply_writing::{Outcome, write_answer, write_outcome, write_silence};
use whole_writing::{Output, write_whole};

/// The octets for which a buffer has room: a reply of 4,096 octets in hexadecimal digits, and what
/// stands round it.
pub const ROOM: usize = 8_256;

/// Writes the reply line of an outcome.
pub fn send_outcome<K: Sink>(outcome: &Outcome, text: &mut Vec<u8>, out: &mut K) -> Output
    requires { ROOM ≤ vec_capacity text.old }
    ensures writes { (held : List ℕ) → K.held out.old ≡ Some held
        → OutputOf held (K.held out.new) result (text_of outcome.now) }
    ensures room { vec_capacity text.old ≤ vec_capacity text.new }
    ensures counts { K.faults out.old ≤ K.faults out.new }
    ensures failed { result ≡ Output.Failed → Rose (K.faults out.old) (K.faults out.new) }
{
    text.clear();
    write_outcome(outcome, text);
    write_whole(out, text)
}

/// Writes the reply line of a packet, with the octets of what is answered.
pub fn send_answer<K: Sink>(answer: &[u8], text: &mut Vec<u8>, out: &mut K) -> Output
    requires room { ROOM ≤ vec_capacity text.old }
    requires short { length answer.now ≤ 4096 }
    ensures writes { (held : List ℕ) → K.held out.old ≡ Some held
        → OutputOf held (K.held out.new) result (line_of (query_reply (Some answer.now))) }
    ensures room { vec_capacity text.old ≤ vec_capacity text.new }
    ensures counts { K.faults out.old ≤ K.faults out.new }
    ensures failed { result ≡ Output.Failed → Rose (K.faults out.old) (K.faults out.new) }
{
    text.clear();
    write_answer(answer, text);
    write_whole(out, text)
}

/// Writes the reply line of a packet to which nothing is answered.
pub fn send_silence<K: Sink>(text: &mut Vec<u8>, out: &mut K) -> Output
    requires { ROOM ≤ vec_capacity text.old }
    ensures writes { (held : List ℕ) → K.held out.old ≡ Some held
        → OutputOf held (K.held out.new) result (line_of (query_reply None)) }
    ensures room { vec_capacity text.old ≤ vec_capacity text.new }
    ensures counts { K.faults out.old ≤ K.faults out.new }
    ensures failed { result ≡ Output.Failed → Rose (K.faults out.old) (K.faults out.new) }
{
    text.clear();
    write_silence(text);
    write_whole(out, text)
}
