//! Random words.

ghost use Rattle.std.specs.Prelude.{◌≡◌};
ghost use Rattle.session_model.specs.Serving.{behind_words, words_of};

use rand_core::Rng;

/// Draws the eight words of a query.
pub(crate) fn draw<R: Rng>(words: &mut R) -> [u64; 8]
    ensures drawn { result ≡ words_of 8 (R.stream words.old) }
    ensures behind { R.stream words.new ≡ behind_words 8 (R.stream words.old) }
{
    [
        words.next_u64(),
        words.next_u64(),
        words.next_u64(),
        words.next_u64(),
        words.next_u64(),
        words.next_u64(),
        words.next_u64(),
        words.next_u64(),
    ]
}
