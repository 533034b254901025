//! The octets of the texts of fields.

ghost use Rattle.std.specs.Prelude.{◌≡◌, ℕ, ◌+◌, ◌≤◌, List, ◌∷◌, length, take, drop, IfSome, IfNone, IsTrue, ◌↔◌, true};
ghost use Rattle.std.specs.List.{AllByRecursion};
ghost use Rattle.rdata_layout.specs.Fields.{IsTag, is_letter_or_digit};
ghost use Rattle.value_text.specs.Numbers.{number};
ghost use Rattle.field_text.specs.Spelling.{Spells};

use address_text::{read_ipv4, read_ipv6};
use octets::{fill_front, four_octets, put_at, two_octets};
use rdata_layout::{Field, Name, is_tag};
use value_text::number;

/// Reads the octets of a field's text into the front of the array, and says how many they are.
///
/// None exactly where the text spells no field of this kind: the array is unchanged then.
pub fn read_field(field: Field, text: &[u8], into: &mut [u8; 255]) -> Option<usize>
    ensures some { IfSome result (λ n. Spells field text.now (take n into.new)) }
    ensures fits { IfSome result (λ n. n ≤ 255) }
    ensures kept { IfSome result (λ n. drop n into.new ≡ drop n into.old) }
    ensures none { IfNone result ((octets : List ℕ) → Spells field text.now octets → ⊥) }
    ensures unchanged { IfNone result (into.new ≡ into.old) }
{
    match field {
        Field::Ipv4 => ipv4_octets(text, into),
        Field::Ipv6 => ipv6_octets(text, into),
        Field::Name => name_octets(text, into),
        Field::Number8 => one_octet(text, into),
        Field::Number16 => number_octets(text, into),
        Field::Number32 => long_number_octets(text, into),
        Field::Tag => tag_octets(text, into),
    }
}

/// Reads an IPv4 address.
fn ipv4_octets(text: &[u8], into: &mut [u8; 255]) -> Option<usize>
    ensures some { IfSome result (λ n. Spells Field.Ipv4 text.now (take n into.new)) }
    ensures fits { IfSome result (λ n. n ≤ 255) }
    ensures kept { IfSome result (λ n. drop n into.new ≡ drop n into.old) }
    ensures none { IfNone result ((octets : List ℕ) → Spells Field.Ipv4 text.now octets → ⊥) }
    ensures unchanged { IfNone result (into.new ≡ into.old) }
{
    let Some(octets) = read_ipv4(text) else {
        return None;
    };
    Some(fill(into, &octets))
}

/// Reads an IPv6 address.
fn ipv6_octets(text: &[u8], into: &mut [u8; 255]) -> Option<usize>
    ensures some { IfSome result (λ n. Spells Field.Ipv6 text.now (take n into.new)) }
    ensures fits { IfSome result (λ n. n ≤ 255) }
    ensures kept { IfSome result (λ n. drop n into.new ≡ drop n into.old) }
    ensures none { IfNone result ((octets : List ℕ) → Spells Field.Ipv6 text.now octets → ⊥) }
    ensures unchanged { IfNone result (into.new ≡ into.old) }
{
    let Some(octets) = read_ipv6(text) else {
        return None;
    };
    Some(fill(into, &octets))
}

/// Reads a name.
fn name_octets(text: &[u8], into: &mut [u8; 255]) -> Option<usize>
    ensures some { IfSome result (λ n. Spells Field.Name text.now (take n into.new)) }
    ensures fits { IfSome result (λ n. n ≤ 255) }
    ensures kept { IfSome result (λ n. drop n into.new ≡ drop n into.old) }
    ensures none { IfNone result ((octets : List ℕ) → Spells Field.Name text.now octets → ⊥) }
    ensures unchanged { IfNone result (into.new ≡ into.old) }
{
    let Ok(name) = Name::from_text(text) else {
        return None;
    };
    name.well_formed();
    Some(name.write_wire(into))
}

/// Reads a number of 8 bits.
fn one_octet(text: &[u8], into: &mut [u8; 255]) -> Option<usize>
    ensures some { IfSome result (λ n. Spells Field.Number8 text.now (take n into.new)) }
    ensures fits { IfSome result (λ n. n ≤ 255) }
    ensures kept { IfSome result (λ n. drop n into.new ≡ drop n into.old) }
    ensures none { IfNone result ((octets : List ℕ) → Spells Field.Number8 text.now octets → ⊥) }
    ensures unchanged { IfNone result (into.new ≡ into.old) }
{
    let Some(n) = number_up_to(text, 255) else {
        return None;
    };
    Some(fill(into, &[n as u8]))
}

/// Reads a number of 16 bits.
fn number_octets(text: &[u8], into: &mut [u8; 255]) -> Option<usize>
    ensures some { IfSome result (λ n. Spells Field.Number16 text.now (take n into.new)) }
    ensures fits { IfSome result (λ n. n ≤ 255) }
    ensures kept { IfSome result (λ n. drop n into.new ≡ drop n into.old) }
    ensures none { IfNone result ((octets : List ℕ) → Spells Field.Number16 text.now octets → ⊥) }
    ensures unchanged { IfNone result (into.new ≡ into.old) }
{
    let Some(n) = number_up_to(text, 65_535) else {
        return None;
    };
    Some(fill(into, &two_octets(n as u16)))
}

/// Reads a number of 32 bits.
fn long_number_octets(text: &[u8], into: &mut [u8; 255]) -> Option<usize>
    ensures some { IfSome result (λ n. Spells Field.Number32 text.now (take n into.new)) }
    ensures fits { IfSome result (λ n. n ≤ 255) }
    ensures kept { IfSome result (λ n. drop n into.new ≡ drop n into.old) }
    ensures none { IfNone result ((octets : List ℕ) → Spells Field.Number32 text.now octets → ⊥) }
    ensures unchanged { IfNone result (into.new ≡ into.old) }
{
    let Some(n) = number_up_to(text, 4_294_967_295) else {
        return None;
    };
    Some(fill(into, &four_octets(n)))
}

/// Reads a tag.
fn tag_octets(text: &[u8], into: &mut [u8; 255]) -> Option<usize>
    ensures some { IfSome result (λ n. Spells Field.Tag text.now (take n into.new)) }
    ensures fits { IfSome result (λ n. n ≤ 255) }
    ensures kept { IfSome result (λ n. drop n into.new ≡ drop n into.old) }
    ensures none { IfNone result ((octets : List ℕ) → Spells Field.Tag text.now octets → ⊥) }
    ensures unchanged { IfNone result (into.new ≡ into.old) }
{
    if !is_tag(text) {
        return None;
    }
    Some(fill_tag(into, text))
}

/// The number of decimal digits, where it is at most this.
fn number_up_to(text: &[u8], most: u32) -> Option<u32>
    ensures same { result ≡ number most text.now }
    ensures within { IfSome result (λ n. n ≤ most) }
{
    number(text, most)
}

/// Writes octets to the front, and says how many.
fn fill(into: &mut [u8; 255], octets: &[u8]) -> usize
    requires { length octets.now ≤ 255 }
    ensures size { result ≡ length octets.now }
    ensures filled { take result into.new ≡ octets.now }
    ensures kept { drop result into.new ≡ drop result into.old }
{
    fill_front(into, octets);
    octets.len()
}

/// Writes a tag behind its length to the front, and says how many octets they are.
fn fill_tag(into: &mut [u8; 255], tag: &[u8]) -> usize
    requires { length tag.now ≤ 15 }
    ensures size { result ≡ length tag.now + 1 }
    ensures filled { take result into.new ≡ length tag.now ∷ tag.now }
    ensures kept { drop result into.new ≡ drop result into.old }
{
    into[0] = tag.len() as u8;
    put_at(into, 1, tag);
    tag.len() + 1
}
