//! Texts that marks cut into pieces.

ghost use Rattle.std.specs.Prelude.{◌≡◌, ◌<◌, ◌∷◌, length, IfSome};
ghost use Rattle.std.specs.Option.{option_copied};
ghost use Rattle.geo_latency.specs.Lines.{later, parts};

use octets::{behind, front};
use prefix_text::place_of;

/// What stands before the first separator of a text, and what stands behind that separator, where there is
/// one.
pub(crate) fn first_piece(separator: u8, text: &[u8]) -> (&[u8], Option<&[u8]>)
    ensures parts { parts separator text.now ≡ result.0.now ∷ later separator (option_copied result.1) }
    ensures shorter { IfSome (option_copied result.1) (λ rest. length rest < length text.now) }
{
    let Some(at) = place_of(separator, text) else {
        return (text, None);
    };
    (front(text, at), Some(behind(text, at + 1)))
}
