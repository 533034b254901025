//! The loop over a piece.

ghost use Rattle.std.specs.Prelude.{◌≡◌, ℕ, ◌≤◌, List, Some, length};
ghost use Rattle.octets.specs.Counts.{Rose};
ghost use Rattle.whole_writing.specs.Output.{OutputOf};

use octets::behind;
use r53_io::{Got, Sink};

/// What writing a piece came to.
#[derive(Clone, Copy, Debug, PartialEq, Eq)]
pub enum Output {
    /// All of it was written.
    Whole,
    /// The sink failed, or took nothing.
    Failed,
}

/// Writes a piece whole.
pub fn write_whole<K: Sink>(out: &mut K, piece: &[u8]) -> Output
    ensures writes { (held : List ℕ) → K.held out.old ≡ Some held
        → OutputOf held (K.held out.new) result piece.now }
    ensures counts { K.faults out.old ≤ K.faults out.new }
    ensures failed { result ≡ Output.Failed → Rose (K.faults out.old) (K.faults out.new) }
{
    let mut at = 0;
    while at < piece.len() {
        match out.write(behind(piece, at)) {
            Got::Bytes(n) => {
                if n == 0 {
                    return Output::Failed;
                }
                at += n;
            }
            Got::Failed => return Output::Failed,
        }
    }
    Output::Whole
}
