//! Numbers of two and four octets, and the octet of three octal digits.

ghost use Rattle.std.specs.Prelude.{◌≡◌, ◌+◌, ◌<◌, ◌≤◌, length, true, false, IfSome, IfNone};
ghost use Rattle.octets.specs.Numbers.{number_at, long_at, two_octets, four_octets};
ghost use Rattle.octets.specs.Octal.{is_octal_digit, octal_of, has_octal};

use byteorder::{BigEndian, ByteOrder};

/// The number of the two octets at a place.
pub fn number_at(bytes: &[u8], at: usize) -> u16
    requires { at + 1 < length bytes.now }
    ensures { result ≡ number_at bytes.now at }
{
    BigEndian::read_u16(&bytes[at..])
}

/// The number of the four octets at a place.
pub fn long_at(bytes: &[u8], at: usize) -> u32
    requires { at + 3 < length bytes.now }
    ensures { result ≡ long_at bytes.now at }
{
    BigEndian::read_u32(&bytes[at..])
}

/// A number as two octets.
pub fn two_octets(n: u16) -> [u8; 2]
    ensures { result ≡ two_octets n }
{
    let mut octets = [0; 2];
    BigEndian::write_u16(&mut octets, n);
    octets
}

/// A number as four octets.
pub fn four_octets(n: u32) -> [u8; 4]
    ensures { result ≡ four_octets n }
{
    let mut octets = [0; 4];
    BigEndian::write_u32(&mut octets, n);
    octets
}

/// The octet of the three octal digits at the front, or none where they are not there or above 255.
pub fn octal_at(bytes: &[u8]) -> Option<u8>
    ensures some { IfSome result (λ value. value ≡ octal_of bytes.now) }
    ensures found { IfSome result (λ _. has_octal bytes.now ≡ true) }
    ensures room { IfSome result (λ _. 3 ≤ length bytes.now) }
    ensures none { IfNone result (has_octal bytes.now ≡ false) }
{
    let &[a, b, c, ..] = bytes else {
        return None;
    };
    if !(is_octal_digit(a) && is_octal_digit(b) && is_octal_digit(c)) {
        return None;
    }
    let value = u16::from(a - b'0') * 64 + u16::from(b - b'0') * 8 + u16::from(c - b'0');
    if value > 255 {
        return None;
    }
    Some(value as u8)
}

/// Whether a byte is an octal digit.
fn is_octal_digit(b: u8) -> bool
    ensures { result ≡ is_octal_digit b }
{
    b >= b'0' && b <= b'7'
}
