//! Whether what is read are collections as a config holds them.

ghost use Rattle.std.specs.Prelude.{◌≡◌, ◌≢◌, ◌+◌, ◌<◌, ◌≤◌, ◌↔◌, length, drop, IfOk, IsTrue};
ghost use Rattle.std.specs.List.{AllByRecursion};
ghost use Rattle.cidr_changes.specs.Places.{IsCollection};
ghost use Rattle.cidr_commands.specs.Stored.{IdsRise, IsSound, NamesDiffer, Stored};

use cidr_changes::{Collection, Ident, is_collection};
use octets::OutOfMemory;
use std::alloc::Global;

/// The most collections.
const MAX_COLLECTIONS: usize = 100;

/// Whether these are the collections of a config, of which the next one gets this number: what
/// `Collections::restore` asks.
pub fn is_sound(alloc: Global, next: u32, list: &[(u32, Collection)]) -> Result<bool, OutOfMemory>
    ensures { IfOk result (λ sound. IsTrue sound
        ↔ IsSound (record { next = next; list = list.now })) }
{
    if list.len() > MAX_COLLECTIONS {
        return Ok(false);
    }
    if next == 0 {
        return Ok(false);
    }
    if !have_ids(next, list) {
        return Ok(false);
    }
    if !ids_rise(list) {
        return Ok(false);
    }
    if !names_differ(list) {
        return Ok(false);
    }
    are_collections(alloc, list)
}

/// Whether each number is at least 1 and below the next one.
fn have_ids(next: u32, list: &[(u32, Collection)]) -> bool
    ensures { IsTrue result
        ↔ AllByRecursion (λ held. (1 ≤ held.0) × (held.0 < next)) list.now }
{
    for held in list {
        if held.0 < 1 || held.0 >= next {
            return false;
        }
    }
    true
}

/// Whether each number is below those behind it.
fn ids_rise(list: &[(u32, Collection)]) -> bool
    ensures { IsTrue result ↔ IdsRise list.now }
{
    for i in 0..list.len() {
        if !are_above(list[i].0, behind(list, i + 1)) {
            return false;
        }
    }
    true
}

/// Whether each number is above this one.
fn are_above(id: u32, list: &[(u32, Collection)]) -> bool
    ensures { IsTrue result ↔ AllByRecursion (λ other. id < other.0) list.now }
{
    for other in list {
        if other.0 <= id {
            return false;
        }
    }
    true
}

/// Whether no two collections have one name.
fn names_differ(list: &[(u32, Collection)]) -> bool
    ensures { IsTrue result ↔ NamesDiffer list.now }
{
    for i in 0..list.len() {
        if !have_other_names(&list[i].1.name, behind(list, i + 1)) {
            return false;
        }
    }
    true
}

/// Whether none of these has this name.
fn have_other_names(name: &Ident, list: &[(u32, Collection)]) -> bool
    ensures { IsTrue result ↔ AllByRecursion (λ other. other.1.name ≢ name.now) list.now }
{
    for other in list {
        if has_name(other, name) {
            return false;
        }
    }
    true
}

/// Whether a collection has this name.
fn has_name(held: &(u32, Collection), name: &Ident) -> bool
    ensures { IsTrue result ↔ (held.now.1.name ≡ name.now) }
{
    held.1.name.bytes() == name.bytes()
}

/// What stands from a place on.
fn behind(list: &[(u32, Collection)], at: usize) -> &[(u32, Collection)]
    requires { at ≤ length list.now }
    ensures { result.now ≡ drop at list.now }
{
    &list[at..]
}

/// Whether each is a collection.
fn are_collections(alloc: Global, list: &[(u32, Collection)]) -> Result<bool, OutOfMemory>
    ensures { IfOk result (λ are. IsTrue are
        ↔ AllByRecursion (λ held. IsCollection held.1) list.now) }
{
    for held in list {
        if !is_collection(alloc, &held.1)? {
            return Ok(false);
        }
    }
    Ok(true)
}
