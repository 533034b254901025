//! The children that checks name.

ghost use Rattle.std.specs.Prelude.{◌≡◌, IsTrue, ◌↔◌, nat_eq, ◌≤◌, drop, length};
ghost use Rattle.std.specs.List.{list_any};
ghost use Rattle.check_model.specs.Checks.{IdsRise, IsId, children_of};
ghost use Rattle.check_model.specs.Commands.{first_missing, has_repeated, is_named, is_there};

use crate::finding::place_of;
use check_model::Check;

/// The children of a check; one of an endpoint has none.
pub fn children_of(check: &Check) -> &[u32]
    ensures { result.now ≡ children_of check.now }
{
    match check {
        Check::Endpoint { .. } => &[],
        Check::Calculated { children, .. } => children.as_slice(),
    }
}

/// Whether a number stands twice among children.
pub fn has_repeated(children: &[u32]) -> bool
    ensures { result ≡ has_repeated children.now }
{
    for i in 0..children.len() {
        if has_number(behind(children, i + 1), children[i]) {
            return true;
        }
    }
    false
}

/// What stands from a place on.
fn behind(children: &[u32], at: usize) -> &[u32]
    requires { at ≤ length children.now }
    ensures { result.now ≡ drop at children.now }
{
    &children[at..]
}

/// Whether a number is among these.
fn has_number(children: &[u32], id: u32) -> bool
    ensures { result ≡ list_any (nat_eq id) children.now }
{
    for child in children {
        if id == *child {
            return true;
        }
    }
    false
}

/// Whether a check has the number.
fn is_there(list: &[(u32, Check)], id: u32) -> bool
    requires { IdsRise list.now }
    ensures { result ≡ is_there list.now id }
{
    match place_of(list, id) {
        Some(_) => true,
        None => false,
    }
}

/// The first child that isn't there.
pub fn first_missing(list: &[(u32, Check)], children: &[u32]) -> Option<u32>
    requires { IdsRise list.now }
    ensures { result ≡ first_missing list.now children.now }
{
    for child in children {
        if !is_there(list, *child) {
            return Some(*child);
        }
    }
    None
}

/// Whether a calculated check names the check of a number.
pub fn is_named(list: &[(u32, Check)], id: u32) -> bool
    ensures { result ≡ is_named id list.now }
{
    for held in list {
        if has_number(children_of(&held.1), id) {
            return true;
        }
    }
    false
}
