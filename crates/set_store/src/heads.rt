//! Sets compared with bounds by the octets that tell their keys.

ghost use Rattle.std.specs.Prelude.{◌≡◌, ◌++◌, ℕ, List, length, Ok, Err, IsTrue, ◌↔◌};
ghost use Rattle.std.specs.Option.{option_copied};
ghost use Rattle.std.specs.Ordering.{nat_cmp};
ghost use Rattle.set_search.specs.Labels.{wire};
ghost use Rattle.set_search.specs.NamesOfDnsName.{IsName};
ghost use Rattle.set_search.specs.OrderOfDnsName.{zone_cmp};
ghost use Rattle.set_search.specs.Suffix.{EndsWith};
ghost use Rattle.set_search.specs.Types.{number_of};
ghost use Rattle.set_search.specs.Sets.{ident_of, key_of};
ghost use Rattle.set_search.specs.RecordSetRecord.{RecordSet};
ghost use Rattle.set_scratch.specs.Heads.{Tells, key_octets, policy_front};
ghost use Rattle.set_scratch.specs.Sets.{IsSet};
ghost use Rattle.set_search.specs.Keys.{ident_cmp, key_cmp};
ghost use Rattle.set_search.specs.Bounds.{group_cmp, is_before};
ghost use Rattle.set_search.specs.Stops.{bound_of};
ghost use Rattle.set_store.specs.Heads.{IsKeyFront, IsPartedBy};
ghost use Rattle.set_store.specs.Servers.{server_labels};
ghost use Rattle.set_store.specs.Stars.{has_star, is_starred};

use set_scratch::{base_fields_are_read, ident_in_front, name_and_rest, name_at, type_and_rest};
use set_search::{Ident, Name, RType, Stop, octets_cmp, one_name_of_a_wire};
use std::cmp::Ordering;

/// Whether a set stands before a bound, from octets that begin with all that tells its key.
pub fn head_is_before(octets: &[u8], stop: &Stop) -> bool
    requires { IsKeyFront octets.now }
    ensures { (set : RecordSet) (rest : List ℕ) → IsSet set
        → octets.now ≡ key_octets set ++ rest → result ≡ is_before (bound_of stop.now) set }
{
    match stop {
        Stop::From(name, rtype, ident) => key_order(octets, name, *rtype, *ident).is_lt(),
        Stop::Past(name, rtype, ident) => !key_order(octets, name, *rtype, *ident).is_gt(),
        Stop::PastGroup(name, rtype) => !group_order(octets, name, *rtype).is_gt(),
    }
}

/// Whether a set has the name, or one below it, from octets that begin with all that tells its key.
pub fn head_is_below(octets: &[u8], name: &Name) -> bool
    requires { IsKeyFront octets.now }
    ensures { (set : RecordSet) (rest : List ℕ) → IsSet set
        → octets.now ≡ key_octets set ++ rest → IsTrue result ↔ EndsWith set.name name.now }
{
    base_fields_are_read();
    match name_at(octets) {
        Ok(read) => read.0.ends_with(name),
        Err(_) => unreachable!(),
    }
}

/// How many labels the name of an NS set has, from octets that begin with all that tells its key.
pub fn head_server_labels(octets: &[u8]) -> Option<usize>
    requires { IsKeyFront octets.now }
    ensures { (set : RecordSet) (rest : List ℕ) → IsSet set
        → octets.now ≡ key_octets set ++ rest → result ≡ server_labels set }
{
    let number = head_number(octets);
    if number != 2 {
        return None;
    }
    Some(head_labels(octets))
}

/// Whether the octets of a set's name have that of `*`, from octets that begin with all that tells
/// its key.
pub fn head_is_starred(octets: &[u8]) -> bool
    requires { IsKeyFront octets.now }
    ensures { (set : RecordSet) (rest : List ℕ) → IsSet set
        → octets.now ≡ key_octets set ++ rest → result ≡ is_starred set }
{
    let (owner, _) = name_and_rest(octets);
    has_star(owner)
}

/// Whether some octet is that of `*`.
pub fn has_star(octets: &[u8]) -> bool
    ensures { result ≡ has_star octets.now }
{
    octets.contains(&b'*')
}

/// The number of a set's type.
fn head_number(octets: &[u8]) -> u16
    requires { IsKeyFront octets.now }
    ensures { (set : RecordSet) (rest : List ℕ) → IsSet set
        → octets.now ≡ key_octets set ++ rest → result ≡ number_of set.rtype }
{
    let (_, behind) = name_and_rest(octets);
    let (rtype, _) = type_and_rest(behind);
    rtype.number()
}

/// How many labels a set's name has.
fn head_labels(octets: &[u8]) -> usize
    requires { IsKeyFront octets.now }
    ensures { (set : RecordSet) (rest : List ℕ) → IsSet set
        → octets.now ≡ key_octets set ++ rest → result ≡ length set.name }
{
    base_fields_are_read();
    match name_at(octets) {
        Ok(read) => read.0.labels(),
        Err(_) => unreachable!(),
    }
}

/// The order of a set's key and another.
fn key_order(octets: &[u8], name: &Name, rtype: RType, ident: Option<&Ident>) -> Ordering
    requires { IsKeyFront octets.now }
    ensures { (set : RecordSet) (rest : List ℕ) → IsSet set
        → octets.now ≡ key_octets set ++ rest
        → result ≡ key_cmp (key_of set)
        (record { name = name.now; rtype = rtype; ident = option_copied ident.entry }) }
{
    match parted(octets, name, rtype) {
        Ok(policy) => ident_order(ident_in_front(policy), ident),
        Err(order) => order,
    }
}

/// The order of a set's name and type and others.
fn group_order(octets: &[u8], name: &Name, rtype: RType) -> Ordering
    requires { IsKeyFront octets.now }
    ensures { (set : RecordSet) (rest : List ℕ) → IsSet set
        → octets.now ≡ key_octets set ++ rest → result ≡ group_cmp set name.now rtype }
{
    match parted(octets, name, rtype) {
        Ok(_) => Ordering::Equal,
        Err(order) => order,
    }
}

/// What stands behind a set's name and type where they are these, or else their order.
fn parted<'a>(octets: &'a [u8], name: &Name, rtype: RType) -> Result<&'a [u8], Ordering>
    requires { IsKeyFront octets.now }
    ensures { (set : RecordSet) (rest : List ℕ) → IsSet set
        → octets.now ≡ key_octets set ++ rest → IsPartedBy set name.now rtype rest result }
{
    let (owner, behind) = name_and_rest(octets);
    let order = name_order(owner, name);
    if order.is_ne() {
        return Err(order);
    }
    let (own_type, policy) = type_and_rest(behind);
    let order = own_type.number().cmp(&rtype.number());
    if order.is_ne() {
        return Err(order);
    }
    Ok(policy)
}

/// The order of a name, told by its octets, and another.
fn name_order(octets: &[u8], name: &Name) -> Ordering
    requires { (labels : List (List ℕ)) × IsName labels × (octets.now ≡ wire labels) }
    ensures { (labels : List (List ℕ)) → IsName labels → octets.now ≡ wire labels
        → result ≡ zone_cmp labels name.now }
{
    one_name_of_a_wire();
    let others = name.octets();
    if is_same(octets, others) {
        return Ordering::Equal;
    }
    octets_cmp(octets, others)
}

/// Whether octets are the same.
pub(crate) fn is_same(octets: &[u8], others: &[u8]) -> bool
    ensures { IsTrue result ↔ (octets.now ≡ others.now) }
{
    octets == others
}

/// The order of two identifiers.
fn ident_order(ident: Option<&[u8]>, other: Option<&Ident>) -> Ordering
    ensures { (text : _) → Tells text ident.entry → result ≡ ident_cmp text
        (option_copied other.entry) }
{
    match (ident, other) {
        (None, None) => Ordering::Equal,
        (None, Some(_)) => Ordering::Less,
        (Some(_), None) => Ordering::Greater,
        (Some(ident), Some(other)) => ident.cmp(other.bytes()),
    }
}
