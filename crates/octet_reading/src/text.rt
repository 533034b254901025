//! Texts behind their length.

ghost use Rattle.std.specs.Prelude.{◌≡◌, ℕ, Bool, length, take, drop};
ghost use Rattle.std.specs.List.{list_all};
ghost use Rattle.octet_reading.specs.Reading.{Gives};
ghost use Rattle.octet_reading.specs.Readers.{text_at};

use crate::numbers::parts;
use crate::stop::Fault;

/// The bytes that a text is made of.
pub trait Alphabet {
    ghost is_plain: { ℕ → Bool };

    /// Whether a byte is one of them.
    fn is_plain(b: u8) -> bool
        ensures { result ≡ is_plain b };
}

/// A text of 1 to `most` bytes of an alphabet behind its length, and what stands behind it.
///
/// It is one field with its length: what can't go on to a text is faulty from its length on.
#[tactic(auto, unfolding(crate::specs::Readers::text_at))]
pub fn text_at<A: Alphabet>(most: usize, bytes: &[u8]) -> Result<(&[u8], &[u8]), Fault>
    ensures { Gives (λ x. (x.0.now, x.1.now)) result (text_at A.is_plain most bytes.now) }
{
    let [n, rest @ ..] = bytes else {
        return Err(Fault(0));
    };
    let n = *n as usize;
    if n < 1 || most < n {
        return Err(Fault(bytes.len()));
    }
    let (text, later) = parts(rest, n);
    if !are_plain::<A>(text) {
        return Err(Fault(bytes.len()));
    }
    if rest.len() < n {
        return Err(Fault(0));
    }
    Ok((text, later))
}

/// Whether each byte is one of the alphabet's.
fn are_plain<A: Alphabet>(bytes: &[u8]) -> bool
    ensures { result ≡ list_all A.is_plain bytes.now }
{
    for b in bytes {
        if !A::is_plain(*b) {
            return false;
        }
    }
    true
}
