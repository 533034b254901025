//! The name at the front of octets.

ghost use Rattle.std.specs.Prelude.{◌≡◌, ℕ, length, IfSome, IfNone, Ok, Err};
ghost use Rattle.std.specs.List.{list_all};
ghost use Rattle.octet_reading.specs.Reading.{Gives};
ghost use Rattle.octet_reading.specs.Names.{is_lower, name_read, name_at};
ghost use Rattle.octet_reading.specs.declared.names.NameRead.TheVariants.{Whole};

use crate::numbers::parts;
use crate::stop::Fault;
use octets::behind;
use rdata_layout::Name;

/// What octets are for a name that is read from their front.
#[derive(Clone, Copy)]
pub(crate) enum NameRead {
    /// They begin with a name, behind which so many octets are left.
    Whole(usize),
    /// They are the first octets of names, and are no name.
    Short,
    /// No name begins with them, and they begin with none.
    Broken,
}

/// The name at the front, in lower case and without pointers, and what stands behind it.
pub fn name_at(bytes: &[u8]) -> Result<(Name, &[u8]), Fault>
    ensures { Gives (λ x. (x.0, x.1.now)) result (name_at bytes.now) }
{
    match lower_name(bytes) {
        Some(read) => Ok(read),
        None => Err(no_name(bytes)),
    }
}

/// The name at the front and what stands behind it, where it is spelled in lower case.
fn lower_name(bytes: &[u8]) -> Option<(Name, &[u8])>
    ensures some { IfSome result (λ x. name_at bytes.now ≡ Ok (x.0, x.1.now)) }
    ensures none { IfNone result ((left : ℕ) → name_read bytes.now ≡ Whole left → ⊥) }
{
    let mut name = Name::root();
    let Some(len) = name.read_wire(bytes) else {
        return None;
    };
    let (spelled, rest) = parts(bytes, len);
    if name.octets() == spelled {
        return Some((name, rest));
    }
    None
}

/// Where the fault stands in octets that begin with no name in lower case.
fn no_name(bytes: &[u8]) -> Fault
    requires { (left : ℕ) → name_read bytes.now ≡ Whole left → ⊥ }
    ensures { name_at bytes.now ≡ Err result.0 }
{
    match name_read(bytes) {
        NameRead::Short => Fault(0),
        NameRead::Broken | NameRead::Whole(_) => Fault(bytes.len()),
    }
}

/// What the octets are for a name.
fn name_read(bytes: &[u8]) -> NameRead
    ensures { result ≡ name_read bytes.now }
{
    let mut rest = bytes;
    let mut room = 255;
    while rest.len() > 0 {
        let n = rest[0] as usize;
        if n == 0 {
            return NameRead::Whole(rest.len() - 1);
        }
        if n > 63 || n + 2 > room {
            return NameRead::Broken;
        }
        let (label, later) = parts(behind(rest, 1), n);
        if !are_lower(label) {
            return NameRead::Broken;
        }
        room -= n + 1;
        rest = later;
    }
    NameRead::Short
}

/// Whether no octet is a capital letter.
fn are_lower(octets: &[u8]) -> bool
    ensures { result ≡ list_all is_lower octets.now }
{
    for b in octets {
        if b.is_ascii_uppercase() {
            return false;
        }
    }
    true
}
