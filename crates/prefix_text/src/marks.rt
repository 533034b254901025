//! The places of marks in texts.

ghost use Rattle.std.specs.Prelude.{◌≡◌, ◌<◌, length, IfSome};
ghost use Rattle.prefix_text.specs.Marks.{place_of};

/// The first place at which a separator stands in a text.
pub fn place_of(separator: u8, text: &[u8]) -> Option<usize>
    ensures place { result ≡ place_of separator text.now }
    ensures within { IfSome result (λ at. at < length text.now) }
{
    for i in 0..text.len() {
        if text[i] == separator {
            return Some(i);
        }
    }
    None
}
