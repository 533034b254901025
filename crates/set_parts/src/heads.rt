//! The key of a set, and what stands behind it.

ghost use Rattle.std.specs.Prelude.{◌≡◌, ◌≤◌, ℕ, List, ◌++◌, length, take};
ghost use Rattle.set_reading.specs.Labels.{wire};
ghost use Rattle.set_reading.specs.Names.{IsName};
ghost use Rattle.set_reading.specs.Types.{number_of};
ghost use Rattle.set_reading.specs.RTypeRecord.{RType};
ghost use Rattle.set_reading.specs.SetsOfRecordSet.{ident_of};
ghost use Rattle.set_reading.specs.RecordSetRecord.{RecordSet};
ghost use Rattle.set_reading.specs.RoutingRecord.{Routing};
ghost use Rattle.octets.specs.Numbers.{two_octets};
ghost use Rattle.set_reading.specs.Octets.{body_octets, check_octets, routing_octets, set_octets};
ghost use Rattle.set_parts.specs.Heads.{IsKeyFrontOf, Tells, key_octets, policy_front, text_behind};
ghost use Rattle.set_parts.specs.Heads.{told_ident};
ghost use Rattle.set_reading.specs.Sets.{IsSet};

use crate::passing::{behind_name, behind_policy, past};
use set_reading::{RType, fields_are_read, type_at};

/// What a set's key is told by.
#[derive(Clone, Copy)]
pub struct KeyFront<'a> {
    /// The octets of the name on the wire.
    pub name: &'a [u8],
    /// The type.
    pub rtype: RType,
    /// The identifier, which a set of the simple policy doesn't have.
    pub ident: Option<&'a [u8]>,
}

/// The key of a set, from octets that begin with all that tells it.
pub fn head_of(octets: &[u8]) -> KeyFront
    ensures { (set : RecordSet) (rest : List ℕ) → IsSet set
        → octets.now ≡ key_octets set ++ rest → IsKeyFrontOf set result }
{
    let (name, behind) = name_and_rest(octets);
    let (rtype, policy) = type_and_rest(behind);
    let ident = ident_in_front(policy);
    KeyFront { name, rtype, ident }
}

/// A name, and what stands behind it.
pub fn name_and_rest(octets: &[u8]) -> (&[u8], &[u8])
    ensures name { (labels : List (List ℕ)) (rest : List ℕ) → IsName labels
        → octets.now ≡ wire labels ++ rest → result.0.now ≡ wire labels }
    ensures rest { (labels : List (List ℕ)) (rest : List ℕ) → IsName labels
        → octets.now ≡ wire labels ++ rest → result.1.now ≡ rest }
{
    let behind = behind_name(octets);
    (first(octets, octets.len() - behind.len()), behind)
}

/// The first octets, or all where there are no more.
fn first(octets: &[u8], count: usize) -> &[u8]
    ensures { result.now ≡ take count octets.now }
{
    if octets.len() < count {
        return octets;
    }
    &octets[..count]
}

/// A type, and what stands behind it.
pub fn type_and_rest(octets: &[u8]) -> (RType, &[u8])
    ensures { (rtype : RType) (rest : List ℕ) → octets.now ≡ two_octets (number_of rtype) ++ rest
        → (result.0 ≡ rtype) × (result.1.now ≡ rest) }
{
    fields_are_read();
    match type_at(octets) {
        Ok(read) => read,
        Err(_) => (RType::A, octets),
    }
}

/// The identifier with which a policy's octets begin.
pub fn ident_in_front(octets: &[u8]) -> Option<&[u8]>
    ensures told { Tells (told_ident octets.now) result }
    ensures ident { (routing : Routing) (rest : List ℕ)
        → octets.now ≡ policy_front routing ++ rest → Tells (ident_of routing) result }
{
    match octets {
        [] | [0, ..] => None,
        [_, text @ ..] => Some(text_in_front(text)),
    }
}

/// A text without its length.
fn text_in_front(octets: &[u8]) -> &[u8]
    ensures { result.now ≡ text_behind octets.now }
{
    match octets {
        [] => octets,
        [size, text @ ..] => first(text, *size as usize),
    }
}

/// What stands behind the name and the type of a set: its policy, and what follows it.
pub fn policy_of(octets: &[u8]) -> &[u8]
    ensures { (set : RecordSet) (rest : List ℕ) → IsSet set → octets.now ≡ set_octets set ++ rest
        → result.now ≡ routing_octets set.routing ++ (body_octets set.body
        ++ (check_octets set.check ++ rest)) }
{
    past(behind_name(octets), 2)
}

/// What stands behind the policy of a set: its body, and what follows it.
pub fn body_of(octets: &[u8]) -> &[u8]
    ensures { (set : RecordSet) (rest : List ℕ) → IsSet set → octets.now ≡ set_octets set ++ rest
        → result.now ≡ body_octets set.body ++ (check_octets set.check ++ rest) }
{
    behind_policy(policy_of(octets))
}
