//! Pieces of a text on their way through a buffer into a sink.

ghost use Rattle.std.specs.Prelude.{◌≡◌, ◌≤◌, ◌+◌, ◌++◌, ℕ, List, [], vec_capacity, vec_len};
ghost use Rattle.octets.specs.Counts.{Rose};
ghost use Rattle.whole_writing.specs.Output.{OutputOf};
ghost use Rattle.set_sending.specs.Passing.{IsPassed, PassesOn};

use r53_io::Sink;
use whole_writing::{Output, write_whole};

/// The octets for which the buffer has room: a value, and so much that most texts of a few sets are
/// one piece.
pub const ROOM: usize = 131_072;

/// Makes room for a piece: where the buffer has no room for it, what it holds is written out.
pub fn make_room<K: Sink>(most: usize, text: &mut Vec<u8>, out: &mut K) -> Output
    requires { most ≤ vec_capacity text.old }
    ensures passes { PassesOn (K.held out.old) text.old.items (K.held out.new) text.new.items
        result [] }
    ensures room { result ≡ Output.Whole → vec_len text.new + most ≤ vec_capacity text.new }
    ensures capacity { vec_capacity text.old ≤ vec_capacity text.new }
    ensures counts { K.faults out.old ≤ K.faults out.new }
    ensures failed { result ≡ Output.Failed → Rose (K.faults out.old) (K.faults out.new) }
{
    if text.capacity() - text.len() >= most {
        return Output::Whole;
    }
    match write_whole(out, text) {
        Output::Whole => {
            text.clear();
            Output::Whole
        }
        Output::Failed => Output::Failed,
    }
}

/// Writes out what the buffer holds, which is the end of the text.
pub fn send_last<K: Sink>(text: &Vec<u8>, out: &mut K) -> Output
    ensures writes { (held whole : List ℕ) → IsPassed held (K.held out.old) text.now.items [] whole
        → OutputOf held (K.held out.new) result whole }
    ensures counts { K.faults out.old ≤ K.faults out.new }
    ensures failed { result ≡ Output.Failed → Rose (K.faults out.old) (K.faults out.new) }
{
    write_whole(out, text)
}
