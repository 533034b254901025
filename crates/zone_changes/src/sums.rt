//! What is counted of the sets of a zone: one more set, and one fewer.
//!
//! The counts are kept modulo 2^64, so that no call asks for a bound.

ghost use Rattle.std.specs.Prelude.{◌≡◌, ◌<◌, [], is_some, length, slice_get, Some};
ghost use Rattle.zone_changes.specs.Sums.{AreSmall, aliases_in, checked_in, octets_in, one_of};
ghost use Rattle.zone_changes.specs.Sums.{starred_in};
ghost use Rattle.zone_changes.specs.Sums.{plus, sums_of};
ghost use Rattle.zone_order.specs.Slotted.{Slotted};
ghost use Rattle.zone_order.specs.Orders.{IsOrder, slotted_of};
ghost use Rattle.zone_order.specs.Servers.{server_labels};

use zone_order::{Body, RType, RecordSet, SetSlots, has_star};

/// How many octets sets have, how many of them are aliases, how many are NS sets, how many labels
/// the names of these have in all, how many sets name a check, and of how many the name has the
/// octet of `*`, each modulo 2^64.
///
/// The NS sets and their labels tell whether all NS sets stand at one name, of which all other names
/// are below; the last, whether there can be a wildcard.
#[derive(Clone, Copy)]
pub struct Sums {
    pub octets: u64,
    pub aliases: u64,
    pub servers: u64,
    pub labels: u64,
    pub checked: u64,
    pub starred: u64,
}

/// The sums of no sets.
pub fn no_sums() -> Sums
    ensures { result ≡ sums_of [] }
{
    Sums {
        octets: 0,
        aliases: 0,
        servers: 0,
        labels: 0,
        checked: 0,
        starred: 0,
    }
}

/// The sums with one more set, which has so many octets.
pub(crate) fn with_set(sums: Sums, octets: usize, set: &RecordSet) -> Sums
    ensures { (given : Slotted) → given.set ≡ set.now → octets ≡ octets_in given
        → result ≡ plus sums given }
{
    let labels = labels_in(set);
    Sums {
        octets: sums.octets.wrapping_add(octets as u64),
        aliases: sums.aliases.wrapping_add(u64::from(is_alias(set))),
        servers: sums.servers.wrapping_add(u64::from(labels.is_some())),
        labels: sums.labels.wrapping_add(labels.unwrap_or(0) as u64),
        checked: sums.checked.wrapping_add(u64::from(names_check(set))),
        starred: sums.starred.wrapping_add(u64::from(is_starred(set))),
    }
}

/// Whether a set is an alias.
fn is_alias(set: &RecordSet) -> bool
    ensures { (given : Slotted) → given.set ≡ set.now → one_of result ≡ aliases_in given }
{
    match set.body {
        Body::Alias { .. } => true,
        Body::Values { .. } => false,
    }
}

/// Whether a set names a check.
fn names_check(set: &RecordSet) -> bool
    ensures { (given : Slotted) → given.set ≡ set.now → one_of result ≡ checked_in given }
{
    set.check.is_some()
}

/// Whether the octets of a set's name have that of `*`.
fn is_starred(set: &RecordSet) -> bool
    ensures { (given : Slotted) → given.set ≡ set.now → one_of result ≡ starred_in given }
{
    has_star(set.name.octets())
}

/// How many labels the name of an NS set has.
fn labels_in(set: &RecordSet) -> Option<usize>
    ensures { result ≡ server_labels set.now }
{
    if set.rtype.number() != RType::Ns.number() {
        return None;
    }
    Some(set.name.labels())
}

/// The sums without the set at a place of a zone.
pub(crate) fn without_at(
    sums: Sums,
    store: &SetSlots,
    zone: u32,
    order: &Vec<u32>,
    place: usize,
) -> Sums
    requires order { IsOrder store.now.slots zone order.now.items }
    requires place { place < length order.now.items }
    ensures without { (was : Slotted)
        → slice_get (slotted_of store.now.slots zone order.now.items) place ≡ Some was
        → plus result was ≡ sums }
    ensures small { AreSmall result }
{
    let slot = slot_at(order, place);
    without(
        sums,
        store.size(slot),
        store.is_alias(slot),
        store.server_labels(slot),
        store.watch(slot).check.is_some(),
        store.is_starred(slot),
    )
}

/// The slot at a place.
fn slot_at(order: &Vec<u32>, place: usize) -> u32
    requires { place < length order.now.items }
    ensures { slice_get order.now.items place ≡ Some result }
{
    order[place]
}

/// The sums without a set of so many octets, which is an alias or not, an NS set where labels are
/// told, names a check or not, and has the octet of `*` in its name or not.
fn without(
    sums: Sums,
    octets: usize,
    alias: bool,
    labels: Option<usize>,
    checked: bool,
    starred: bool,
) -> Sums
    ensures without { (was : Slotted) → octets ≡ octets_in was → one_of alias ≡ aliases_in was
        → labels ≡ server_labels was.set → checked ≡ is_some was.set.check
        → one_of starred ≡ starred_in was → plus result was ≡ sums }
    ensures small { AreSmall result }
{
    Sums {
        octets: sums.octets.wrapping_sub(octets as u64),
        aliases: sums.aliases.wrapping_sub(u64::from(alias)),
        servers: sums.servers.wrapping_sub(u64::from(labels.is_some())),
        labels: sums.labels.wrapping_sub(labels.unwrap_or(0) as u64),
        checked: sums.checked.wrapping_sub(u64::from(checked)),
        starred: sums.starred.wrapping_sub(u64::from(starred)),
    }
}
