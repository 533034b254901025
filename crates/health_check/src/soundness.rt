//! Whether what is read are checks as a configuration holds them.

ghost use Rattle.std.specs.Prelude.{◌≡◌, ◌+◌, ◌<◌, ◌≤◌, ◌↔◌, IsTrue, drop, length};
ghost use Rattle.std.specs.List.{AllByRecursion};
ghost use Rattle.check_model.specs.Checks.{AreChildren, Checks, IdsRise, IsBounded, IsSound};
ghost use Rattle.check_model.specs.Checks.{children_of};

use crate::children::{children_of, first_missing, has_repeated};
use crate::nesting::is_too_deep_with;
use check_model::{Check, is_check_bounded};

/// The most checks.
const MAX_CHECKS: usize = 200;

/// Whether these are the checks of a configuration, of which the next one gets this number: what
/// `CheckTable::restore` asks.
pub fn is_sound(next: u32, list: &[(u32, Check)]) -> bool
    ensures { IsTrue result ↔ IsSound (record { next = next; list = list.now }) }
{
    if list.len() > MAX_CHECKS {
        return false;
    }
    if next == 0 {
        return false;
    }
    if !have_ids(next, list) {
        return false;
    }
    if !ids_rise(list) {
        return false;
    }
    if !have_children(list) {
        return false;
    }
    if is_too_deep_with(list, 0, &[]) {
        return false;
    }
    are_bounded(list)
}

/// Whether each number is at least 1 and below the next one.
fn have_ids(next: u32, list: &[(u32, Check)]) -> bool
    ensures { IsTrue result
        ↔ AllByRecursion (λ held. (1 ≤ held.0) × (held.0 < next)) list.now }
{
    for held in list {
        if held.0 < 1 || held.0 >= next {
            return false;
        }
    }
    true
}

/// Whether each number is below those behind it.
fn ids_rise(list: &[(u32, Check)]) -> bool
    ensures { IsTrue result ↔ IdsRise list.now }
{
    for i in 0..list.len() {
        if !are_above(list[i].0, behind(list, i + 1)) {
            return false;
        }
    }
    true
}

/// Whether each number is above this one.
fn are_above(id: u32, list: &[(u32, Check)]) -> bool
    ensures { IsTrue result ↔ AllByRecursion (λ other. id < other.0) list.now }
{
    for other in list {
        if other.0 <= id {
            return false;
        }
    }
    true
}

/// What stands from a place on.
fn behind(list: &[(u32, Check)], at: usize) -> &[(u32, Check)]
    requires { at ≤ length list.now }
    ensures { result.now ≡ drop at list.now }
{
    &list[at..]
}

/// Whether the children of each check are there, and none is named twice.
fn have_children(list: &[(u32, Check)]) -> bool
    requires { IdsRise list.now }
    ensures { IsTrue result
        ↔ AllByRecursion (λ held. AreChildren list.now (children_of held.1)) list.now }
{
    for held in list {
        if !are_children(list, children_of(&held.1)) {
            return false;
        }
    }
    true
}

/// Whether these are there, and none is named twice.
fn are_children(list: &[(u32, Check)], children: &[u32]) -> bool
    requires { IdsRise list.now }
    ensures { IsTrue result ↔ AreChildren list.now children.now }
{
    if has_repeated(children) {
        return false;
    }
    first_missing(list, children).is_none()
}

/// Whether each check is within its bounds.
fn are_bounded(list: &[(u32, Check)]) -> bool
    ensures { IsTrue result ↔ AllByRecursion (λ held. IsBounded held.1) list.now }
{
    for held in list {
        if !is_check_bounded(&held.1) {
            return false;
        }
    }
    true
}
