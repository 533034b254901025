//! Names as they are kept: the octets on the wire, in lower case.

ghost use Rattle.std.specs.Prelude.{◌≡◌, ℕ, ◌≤◌, ◌<◌, List, [], ◌∷◌, ◌++◌, length, IfSome, IfNone};
ghost use Rattle.std.specs.Prelude.{IsTrue, ◌↔◌, map, take, drop};
ghost use Rattle.std.specs.Char.{to_ascii_lowercase};
ghost use Rattle.dns_name.specs.Labels.{wire, IsRawName, lowered};
ghost use Rattle.dns_name.specs.Wildcard.{wildcard};
ghost use Rattle.dns_name.specs.Names.{IsName, AreOctets};
ghost use Rattle.dns_name.specs.Stored.{labels_of};
ghost use Rattle.dns_name.specs.Suffix.{EndsWith};
ghost use Rattle.dns_name.specs.Whole.{IsWire};
ghost use Rattle.dns_name.specs.Wire.{BeginsWithName, BeginsWithNone, BeginsWithOnly};

use crate::scan::name_len;
use crate::walk;
use octets::{behind, fill_front, front, put_at};
use std::marker::Model;

/// A domain name: labels of 1 to 63 octets in lower case, 255 octets in all on the wire.
#[derive(Clone, Copy)]
pub struct Name {
    /// The name on the wire, and zeros behind it.
    bytes: [u8; 255],
    /// How many of the bytes are the name's.
    len: u8,
}

impl Model for Name {
    ghost use Rattle.std.specs.Prelude.{◌≡◌, ℕ, List, length};
    ghost use Rattle.std.proofs.Common.{ap};
    ghost use Rattle.dns_name.specs.Stored.{labels_of, IsStored, stored};
    ghost use Rattle.dns_name.specs.Labels.{wire};

    ghost Value = { List (List ℕ) };

    ghost view = { λ a. labels_of a.bytes };

    ghost invariant = { λ a. IsStored a.bytes a.len };

    ghost inverse = { λ labels. record { bytes = stored labels; len = length (wire labels) } };

    ghost inverse_ok = { λ a h.
        let e : (stored (labels_of a.bytes), length (wire (labels_of a.bytes)))
        ≡ (a.bytes, a.len) = Prim.cc in
        ap (λ (p : List ℕ × ℕ). record { bytes = p.0; len = p.1 }) e };
}

impl Name {
    /// The root, which has no labels.
    pub fn root() -> Name
        ensures { result ≡ [] }
    {
        Name {
            bytes: [0; 255],
            len: 1,
        }
    }

    /// Whether the two are one name, by the equality that contracts use.
    pub fn is_same(&self, other: &Name) -> bool
        ensures { IsTrue result ↔ (self.now ≡ other.now) }
    {
        walk::is_same(self.octets(), other.octets())
    }

    /// Whether it is the root.
    pub fn is_root(&self) -> bool
        ensures { IsTrue result ↔ (self.now ≡ []) }
    {
        self.len == 1
    }

    /// What every name is, for the premises of laws; it does nothing.
    pub fn well_formed(&self)
        ensures { IsName self.now }
    {
        self.octets();
    }

    /// How many labels it has.
    pub fn labels(&self) -> usize
        ensures { result ≡ length self.now }
    {
        walk::count(self.octets())
    }

    /// Whether its last labels are those of the other name: whether it is the other name, or
    /// below it.
    pub fn ends_with(&self, other: &Name) -> bool
        ensures { IsTrue result ↔ EndsWith self.now other.now }
    {
        walk::ends_with(self.octets(), other.octets())
    }

    /// The name without its first label; the root has none.
    pub fn parent(&self) -> Option<Name>
        ensures some { IfSome result (λ parent. (first : List ℕ) × (self.now ≡ first ∷ parent)) }
        ensures none { IfNone result (self.now ≡ []) }
    {
        let octets = self.octets();
        let n = octets[0] as usize;
        if n == 0 {
            return None;
        }
        Some(Name::of_octets(behind(octets, n + 1)))
    }

    /// The name with the wildcard label in front (RFC 4592, 2.1.1), where that has no more than
    /// 255 octets.
    pub fn wildcard(&self) -> Option<Name>
        ensures some { IfSome result (λ name. name ≡ wildcard ∷ self.now) }
        ensures fits { IfSome result (λ name. length (wire (wildcard ∷ self.now)) ≤ 255) }
        ensures none { IfNone result (255 < length (wire (wildcard ∷ self.now))) }
    {
        let octets = self.octets();
        if octets.len() > 253 {
            return None;
        }
        let mut longer = [0; 255];
        longer[0] = 1;
        longer[1] = b'*';
        put_at(&mut longer, 2, octets);
        Some(Name::of_octets(front(&longer, octets.len() + 2)))
    }

    /// The name at the front of the bytes, whole and without pointers, and how many bytes it takes.
    pub fn from_wire(bytes: &[u8]) -> Option<(Name, usize)>
        ensures some { IfSome result (λ r. BeginsWithName bytes.now r.0 r.1) }
        ensures only { IfSome result (λ r. BeginsWithOnly bytes.now r.0 r.1) }
        ensures none { IfNone result (BeginsWithNone bytes.now) }
    {
        let mut name = Name::root();
        let Some(len) = name.read_wire(bytes) else {
            return None;
        };
        Some((name, len))
    }

    /// Becomes the name at the front of the bytes, whole and without pointers, and says how many
    /// bytes it takes. Where there is none it stays as it is.
    pub fn read_wire(&mut self, bytes: &[u8]) -> Option<usize>
        ensures some { IfSome result (λ n. BeginsWithName bytes.now self.new n) }
        ensures only { IfSome result (λ n. BeginsWithOnly bytes.now self.new n) }
        ensures none { IfNone result (BeginsWithNone bytes.now) }
        ensures kept { IfNone result (self.new ≡ self.old) }
    {
        let Some(len) = name_len(bytes) else {
            return None;
        };
        self.clear();
        self.fill(front(bytes, len));
        Some(len)
    }

    /// Becomes the root.
    fn clear(&mut self)
        ensures { self.new ≡ [] }
    {
        if !self.is_root() {
            *self = Name::root();
        }
    }

    /// From the root becomes the name that these bytes spell.
    fn fill(&mut self, spelled: &[u8])
        requires root { self.old ≡ [] }
        requires spelled { (raw : List (List ℕ)) × IsRawName raw × (spelled.now ≡ wire raw) }
        ensures { (raw : List (List ℕ)) → IsRawName raw → spelled.now ≡ wire raw
            → self.new ≡ lowered raw }
    {
        lower_into(&mut self.bytes, spelled);
        self.len = spelled.len() as u8;
    }

    /// The name's octets on the wire (RFC 1035, 3.1).
    pub fn octets(&self) -> &[u8]
        ensures spelled { result.now ≡ wire self.now }
        ensures octets { AreOctets result.now }
        ensures name { IsName self.now }
        ensures whole { IsWire result.now }
        ensures same { labels_of result.now ≡ self.now }
    {
        let octets = self.kept();
        walk::name_octets(octets);
        octets
    }

    /// The octets that are the name's.
    fn kept(&self) -> &[u8]
        ensures whole { IsWire result.now }
        ensures same { labels_of result.now ≡ self.now }
    {
        front(&self.bytes, self.len as usize)
    }

    /// Writes the name's octets on the wire to the front (RFC 1035, 3.1), and says how many.
    pub fn write_wire(&self, into: &mut [u8; 255]) -> usize
        ensures size { result ≡ length (wire self.now) }
        ensures written { take result into.new ≡ wire self.now }
        ensures rest { drop result into.new ≡ drop result into.old }
    {
        let octets = self.octets();
        fill_front(into, octets);
        octets.len()
    }

    /// The name of these octets, which are in lower case.
    fn of_octets(octets: &[u8]) -> Name
        requires { IsWire octets.now }
        ensures { result ≡ labels_of octets.now }
    {
        let mut bytes = [0; 255];
        fill_front(&mut bytes, octets);
        Name {
            bytes,
            len: octets.len() as u8,
        }
    }

    /// The name that these bytes spell.
    pub(crate) fn stored(spelled: &[u8]) -> Name
        requires { (raw : List (List ℕ)) × IsRawName raw × (spelled.now ≡ wire raw) }
        ensures { (raw : List (List ℕ)) → IsRawName raw → spelled.now ≡ wire raw
            → result ≡ lowered raw }
    {
        let mut bytes = [0; 255];
        lower_into(&mut bytes, spelled);
        Name {
            bytes,
            len: spelled.len() as u8,
        }
    }
}

/// Writes bytes in lower case to the front of the array.
fn lower_into(into: &mut [u8], from: &[u8])
    requires { length from.now ≤ length into.old }
    ensures { into.new ≡ map to_ascii_lowercase from.now ++ drop (length from.now) into.old }
{
    for i in 0..from.len() {
        into[i] = from[i].to_ascii_lowercase();
    }
}
