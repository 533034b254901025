//! The sets of a client's location and of `*`, looked for in this order.

ghost use Rattle.std.specs.Prelude.{◌≡◌, ◌≤◌, ◌<◌, ◌&&◌, ◌||◌, length, slice_get, IfSome};
ghost use Rattle.std.specs.Option.{option_copied};
ghost use Rattle.std.specs.Str.{bytes_eq};
ghost use Rattle.cidr_routing.specs.Choice.{chosen, in_order, sets_of};
ghost use Rattle.considered_sets.specs.Healthy.{asked};

use crate::ident::Ident;

/// Chooses a set of a group of IP-based routing. The answer is its place in the group.
///
/// It is the set of the client's location, or the one of `*` where that isn't healthy or isn't
/// there. Where neither is healthy the first of them answers, and None where none is there.
pub fn choose_block(locations: &[Ident], healthy: &[bool], client: Option<&Ident>) -> Option<usize>
    requires one_length { length locations.now ≡ length healthy.now }
    ensures chosen { result ≡ chosen locations.now healthy.now (option_copied client.entry) }
    ensures within { IfSome result (λ set. set < length locations.now) }
{
    if let Some(set) = search(locations, healthy, client, false) {
        return Some(set);
    }
    search(locations, healthy, client, true)
}

/// The first set that applies, among the healthy ones or among all.
fn search(locations: &[Ident], healthy: &[bool], client: Option<&Ident>, all: bool) -> Option<usize>
    requires one_length { length locations.now ≡ length healthy.now }
    ensures first { result ≡ slice_get
        (asked all healthy.now (in_order (option_copied client.entry) locations.now)) 0 }
    ensures within { IfSome result (λ set. set < length locations.now) }
{
    let Some(client) = client else {
        return find(locations, healthy, b"*", all);
    };
    let location = client.bytes();
    if let Some(set) = find(locations, healthy, location, all) {
        return Some(set);
    }
    find(locations, healthy, b"*", all)
}

/// The first set of a location, among the healthy ones or among all.
fn find(locations: &[Ident], healthy: &[bool], location: &[u8], all: bool) -> Option<usize>
    requires one_length { length locations.now ≡ length healthy.now }
    ensures first { result
        ≡ slice_get (asked all healthy.now (sets_of location.now locations.now)) 0 }
    ensures within { IfSome result (λ set. set < length locations.now) }
{
    for i in 0..locations.len() {
        if is_asked(location, &locations[i], healthy[i], all) {
            return Some(i);
        }
    }
    None
}

/// Whether a set is of a location and is one of those that are asked.
fn is_asked(location: &[u8], here: &Ident, healthy: bool, all: bool) -> bool
    ensures { result ≡ (bytes_eq location.now here.now && (all || healthy)) }
{
    location == here.bytes() && (all || healthy)
}
