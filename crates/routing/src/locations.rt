//! The names of locations, as sets that answer by the client's address block (CIDR routing) name
//! them.

ghost use Rattle.std.specs.Prelude.{◌≡◌, ◌↔◌, ◌∷◌, [], IsTrue};
ghost use Rattle.routing.specs.Texts.{IsLocation};

use crate::alphabet::{Alphabet, is_text};

/// Whether a set may name a location by these bytes.
///
/// The one byte `*` names no location of the collection: it stands for all clients that no other
/// set is for.
pub fn is_location(text: &[u8]) -> bool
    ensures { IsTrue result ↔ IsLocation text.now }
{
    if is_text(Alphabet::LocationName, 16, text) {
        return true;
    }
    is_star(text)
}

/// Whether a text is the one byte `*`.
fn is_star(text: &[u8]) -> bool
    ensures { IsTrue result ↔ (text.now ≡ 0x2A ∷ []) }
{
    matches!(text, [b'*'])
}
