//! The fields of a text.

ghost use Rattle.std.specs.Prelude.{◌≡◌, ◌+◌, ◌<◌, ◌≤◌, ◌==◌, length, drop, false, IfSome};
ghost use Rattle.value_text.specs.Fields.{is_blank, plain_len, quoted_len, field_len, next_field};

/// Where a field of a text begins, and where what stands behind it begins.
#[derive(Clone, Copy, Debug, PartialEq, Eq)]
pub struct Field {
    pub start: usize,
    pub end: usize,
}

/// The first field from this place of the text on, or none where only spaces and tabs are left.
///
/// A field that begins with a quote takes its closing quote, or the rest of the text where it has
/// none.
pub fn next_field(text: &[u8], at: usize) -> Option<Field>
    requires { at ≤ length text.now }
    ensures exact { result ≡ next_field at (drop at text.now) }
    ensures behind { IfSome result (λ field. at ≤ field.start) }
    ensures filled { IfSome result (λ field. field.start < field.end) }
    ensures within { IfSome result (λ field. field.end ≤ length text.now) }
{
    for start in at..text.len() {
        if !is_blank(text[start]) {
            let end = field_end(text, start);
            return Some(Field { start, end });
        }
    }
    None
}

/// Where the field that begins at this place ends.
fn field_end(text: &[u8], at: usize) -> usize
    requires { at < length text.now }
    ensures exact { result ≡ at + field_len (drop at text.now) }
    ensures filled { at < result }
    ensures within { result ≤ length text.now }
{
    if text[at] == b'"' {
        return quoted_end(text, at + 1);
    }
    plain_end(text, at + 1)
}

/// Where the field ends whose opening quote stands before this place.
fn quoted_end(text: &[u8], at: usize) -> usize
    requires { at ≤ length text.now }
    ensures exact { result ≡ at + quoted_len false (drop at text.now) }
    ensures behind { at ≤ result }
    ensures within { result ≤ length text.now }
{
    let mut escaped = false;
    for i in at..text.len() {
        if escaped {
            escaped = false;
            continue;
        }
        if text[i] == b'"' {
            return i + 1;
        }
        escaped = text[i] == b'\\';
    }
    text.len()
}

/// Where the field without quotes ends that goes on at this place.
fn plain_end(text: &[u8], at: usize) -> usize
    requires { at ≤ length text.now }
    ensures exact { result ≡ at + plain_len (drop at text.now) }
    ensures behind { at ≤ result }
    ensures within { result ≤ length text.now }
{
    for i in at..text.len() {
        if is_blank(text[i]) {
            return i;
        }
    }
    text.len()
}

/// Whether a byte separates fields.
fn is_blank(b: u8) -> bool
    ensures { result ≡ is_blank b }
{
    b == b' ' || b == b'\t'
}
