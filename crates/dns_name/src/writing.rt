//! The text of a name, label by label.

ghost use Rattle.std.specs.Prelude.{◌≡◌, ℕ, ◌+◌, ◌*◌, ◌≤◌, List, length, take, drop};
ghost use Rattle.std.specs.List.{flat_map};
ghost use Rattle.dns_name.specs.Buffer.{written};
ghost use Rattle.dns_name.specs.Stored.{labels_of};
ghost use Rattle.dns_name.specs.Text.{root_text};
ghost use Rattle.dns_name.specs.Whole.{IsWire};
ghost use Rattle.dns_name.specs.Written.{is_plain, text_of, text_of_label, text_of_octet};

use crate::Name;
use crate::walk::part;
use octets::put_at;

impl Name {
    /// Writes the name's text to the front, with a dot at its end, and says how long it is.
    ///
    /// An octet other than a to z, 0 to 9, `-` and `_` is written as `\ooo`, so the text has at
    /// most 1,016 bytes.
    pub fn write_text(&self, into: &mut [u8; 1024]) -> usize
        ensures size { result ≡ length (text_of self.now) }
        ensures written { take result into.new ≡ text_of self.now }
        ensures rest { drop result into.new ≡ drop result into.old }
    {
        if self.is_root() {
            into[0] = b'.';
            return 1;
        }
        write_labels(self.octets(), into)
    }
}

/// Writes each label and the dot behind it to the front, and says where they end.
fn write_labels(octets: &[u8], into: &mut [u8]) -> usize
    requires octets { IsWire octets.now }
    requires room { 4 * length octets.now ≤ length into.old + 4 }
    ensures end { result ≡ length (flat_map text_of_label (labels_of octets.now)) }
    ensures written { into.new ≡ written into.old 0 (flat_map text_of_label (labels_of octets.now)) }
    ensures within { result ≤ length into.old }
{
    let mut at = 0;
    let mut end = 0;
    while octets[at] != 0 {
        let n = octets[at] as usize;
        end = write_label(part(octets, at + 1, n), into, end);
        at += n + 1;
    }
    end
}

/// Writes a label and the dot behind it to a place, and says where they end.
fn write_label(label: &[u8], into: &mut [u8], at: usize) -> usize
    requires { at + 4 * length label.now + 1 ≤ length into.old }
    ensures end { result ≡ at + length (text_of_label label.now) }
    ensures written { into.new ≡ written into.old at (text_of_label label.now) }
    ensures within { result ≤ at + 4 * length label.now + 1 }
{
    let mut end = at;
    for b in label {
        end = write_octet(*b, into, end);
    }
    put_at(into, end, b".".as_slice());
    end + 1
}

/// Writes an octet to a place, and says where it ends.
fn write_octet(b: u8, into: &mut [u8], at: usize) -> usize
    requires { at + 4 ≤ length into.old }
    ensures end { result ≡ at + length (text_of_octet b) }
    ensures written { into.new ≡ written into.old at (text_of_octet b) }
    ensures within { result ≤ at + 4 }
{
    if is_plain(b) {
        put_at(into, at, &[b]);
        return at + 1;
    }
    put_at(
        into,
        at,
        &[b'\\', b'0' + b / 64, b'0' + b / 8 % 8, b'0' + b % 8],
    );
    at + 4
}

/// Whether an octet stands for itself in a written text.
fn is_plain(b: u8) -> bool
    ensures { result ≡ is_plain b }
{
    matches!(b, b'a'..=b'z' | b'0'..=b'9' | b'-' | b'_')
}
