//! The groups of an IPv6 address, and the zeros among them that `::` stands for (RFC 5952, 4).

ghost use Rattle.std.specs.Prelude.{◌≡◌, ◌+◌, ◌-◌, ◌*◌, ◌<◌, ◌≤◌, length};
ghost use Rattle.std.specs.Char.{digit_char};
ghost use Rattle.std.specs.Net.Text.{hex, groups_text, leading_zero_digits, longest_zero_run};
ghost use Rattle.address_text.specs.Wrote.{Wrote};

use crate::pieces::put;
use octets::behind;

/// Where the longest run of zero segments starts and how many they are, of equal ones the first.
pub fn longest_zero_run(segments: &[u16]) -> (usize, usize)
    ensures run { result ≡ longest_zero_run segments.now }
    ensures within { result.0 + result.1 ≤ length segments.now }
{
    let mut start = segments.len();
    let mut len = 0;
    let mut run = 0;
    for i in (0..segments.len()).rev() {
        run = if segments[i] == 0 { run + 1 } else { 0 };
        if run >= len {
            start = i;
            len = run;
        }
    }
    (start, len)
}

/// Writes groups with colons between them at a place, and says where they end.
pub fn write_groups(segments: &[u16], into: &mut [u8], at: usize) -> usize
    requires { at + (5 * length segments.now - 1) ≤ length into.old }
    ensures short { result ≤ at + (5 * length segments.now - 1) }
    ensures wrote { Wrote into.old into.new at result (groups_text segments.now) }
{
    let [first, rest @ ..] = segments else {
        return at;
    };
    let mut end = write_group(*first, into, at);
    for segment in rest {
        end = put(b":", into, end);
        end = write_group(*segment, into, end);
    }
    end
}

/// Writes one group in hexadecimal digits, in lower case and without leading zeros.
fn write_group(segment: u16, into: &mut [u8], at: usize) -> usize
    requires { at + 4 ≤ length into.old }
    ensures short { result ≤ at + 4 }
    ensures wrote { Wrote into.old into.new at result (hex segment) }
{
    let digits = [
        digit(segment / 0x1000),
        digit(segment / 0x100 % 16),
        digit(segment / 0x10 % 16),
        digit(segment % 16),
    ];
    put(behind(&digits, leading_zero_digits(segment)), into, at)
}

/// A hexadecimal digit.
fn digit(value: u16) -> u8
    requires { value < 16 }
    ensures { result ≡ digit_char value }
{
    if value < 10 {
        return b'0' + value as u8;
    }
    b'a' + (value - 10) as u8
}

/// How many of a segment's four digits are leading zeros, the last digit apart.
fn leading_zero_digits(segment: u16) -> usize
    ensures zeros { result ≡ leading_zero_digits segment }
    ensures within { result < 4 }
{
    match segment {
        0x1000.. => 0,
        0x100.. => 1,
        0x10.. => 2,
        _ => 3,
    }
}
