//! Numbers in decimal digits.

ghost use Rattle.std.specs.Prelude.{◌≡◌};
ghost use Rattle.value_text.specs.Numbers.{is_digit, number};

/// The number of a field of decimal digits, or none where it is no such field or its number is
/// above `most`.
///
/// Leading zeros are let through, however many there are.
pub fn number(field: &[u8], most: u32) -> Option<u32>
    ensures { result ≡ number most field.now }
{
    if field.is_empty() {
        return None;
    }
    let mut value = 0;
    for b in field {
        if !is_digit(*b) {
            return None;
        }
        value = value * 10 + u64::from(*b - b'0');
        if value > u64::from(most) {
            return None;
        }
    }
    Some(value as u32)
}

/// Whether a byte is a decimal digit.
fn is_digit(b: u8) -> bool
    ensures { result ≡ is_digit b }
{
    b >= b'0' && b <= b'9'
}
