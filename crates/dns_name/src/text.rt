//! Names from their texts.

ghost use Rattle.std.specs.Prelude.{◌≡◌, IsTrue, ◌↔◌};
ghost use Rattle.dns_name.specs.Text.{root_text, name_of_text};

use crate::spelling::Spelling;
use crate::{Name, NameFault};

impl Name {
    /// The name of a text: labels with dots between them, `\ooo` for an octet, and an optional
    /// final dot.
    ///
    /// The root is a dot alone. Upper case is read as lower case.
    pub fn from_text(text: &[u8]) -> Result<Name, NameFault>
        ensures { result ≡ name_of_text text.now }
    {
        if is_root_text(text) {
            return Ok(Name::root());
        }
        let mut spelling = Spelling::new();
        let mut at = 0;
        while at < text.len() {
            match spelling.take(text, at) {
                Ok(n) => at += n,
                Err(fault) => return Err(fault),
            }
        }
        spelling.finish(at)
    }
}

/// Whether a text is that of the root.
fn is_root_text(text: &[u8]) -> bool
    ensures { IsTrue result ↔ (text.now ≡ root_text) }
{
    text == b".".as_slice()
}
