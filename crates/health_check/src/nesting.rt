//! How deep checks are nested, by walks from a check to its child.
//!
//! The checks at which a walk of so many steps starts are marked, all of them at each step: so a
//! table in which many ways lead from check to check takes no longer.

ghost use Rattle.std.specs.Prelude.{◌≡◌, ◌≤◌, ℕ, Bool, [], length, map, take};
ghost use Rattle.std.specs.List.{list_any};
ghost use Rattle.check_model.specs.Checks.{IdsRise, children_of};
ghost use Rattle.check_model.specs.Commands.{is_calculated, is_too_deep, starts_walk, updated_at};
ghost use Rattle.check_model.specs.declared.checks.Check.{Check};
ghost use Rattle.health_check.specs.Marks.{children_given, is_calculated_in, marked, marks_of};
ghost use Rattle.health_check.specs.Marks.{with_children};

use crate::children::children_of;
use crate::finding::place_of;
use check_model::Check;

/// The most checks.
const MAX_CHECKS: usize = 200;

/// Whether a walk of five checks stands, where the check of a number has these children.
pub fn is_too_deep_with(list: &[(u32, Check)], id: u32, children: &[u32]) -> bool
    requires rising { IdsRise list.now }
    requires few { length list.now ≤ 200 }
    ensures { result ≡ is_too_deep (with_children id children.now list.now) }
{
    let mut marks = [false; MAX_CHECKS];
    mark(list, id, children, 4, &mut marks);
    has_mark(front(&marks, list.len()))
}

/// Whether a walk of four checks starts at one of these.
pub fn starts_deep(list: &[(u32, Check)], children: &[u32]) -> bool
    requires rising { IdsRise list.now }
    requires few { length list.now ≤ 200 }
    ensures { result ≡ list_any (starts_walk 3 (with_children 0 [] list.now)) children.now }
{
    if !has_calculated(list, children) {
        return false;
    }
    let mut marks = [false; MAX_CHECKS];
    mark(list, 0, &[], 3, &mut marks);
    any_marked(list, children, &marks)
}

/// Whether one of these is calculated.
fn has_calculated(list: &[(u32, Check)], children: &[u32]) -> bool
    requires { IdsRise list.now }
    ensures { result ≡ list_any (is_calculated_in list.now) children.now }
{
    for child in children {
        if is_calculated_in(list, *child) {
            return true;
        }
    }
    false
}

/// Whether the check of a number is calculated.
fn is_calculated_in(list: &[(u32, Check)], id: u32) -> bool
    requires { IdsRise list.now }
    ensures { result ≡ is_calculated_in list.now id }
{
    match place_of(list, id) {
        Some(place) => is_calculated(&list[place].1),
        None => false,
    }
}

/// The first so many marks.
fn front(marks: &[bool], count: usize) -> &[bool]
    requires { count ≤ length marks.now }
    ensures { result.now ≡ take count marks.now }
{
    &marks[..count]
}

/// Whether a mark is set.
fn has_mark(marks: &[bool]) -> bool
    ensures { result ≡ list_any (λ (mark : Bool). mark) marks.now }
{
    for mark in marks {
        if *mark {
            return true;
        }
    }
    false
}

/// Marks the checks at which a walk of so many steps starts, where the check of a number has these
/// children.
fn mark(list: &[(u32, Check)], id: u32, children: &[u32], steps: usize, marks: &mut [bool])
    requires rising { IdsRise list.now }
    requires few { length list.now ≤ 200 }
    requires room { length marks.old ≡ 200 }
    ensures marks { take (length list.now) marks.new
        ≡ marks_of steps (with_children id children.now list.now) list.now }
    ensures length { length marks.new ≡ length marks.old }
{
    mark_calculated(list, marks);
    let mut before = [false; MAX_CHECKS];
    for _step in 0..steps {
        before.copy_from_slice(marks);
        mark_parents(list, id, children, &before, marks);
    }
}

/// Marks the calculated checks.
fn mark_calculated(list: &[(u32, Check)], marks: &mut [bool])
    requires { length list.now ≤ length marks.old }
    ensures marks { take (length list.now) marks.new
        ≡ map (λ (held : ℕ × Check). is_calculated held.1) list.now }
    ensures length { length marks.new ≡ length marks.old }
{
    for i in 0..list.len() {
        marks[i] = is_calculated(&list[i].1);
    }
}

/// Whether a check is calculated.
fn is_calculated(check: &Check) -> bool
    ensures { result ≡ is_calculated check.now }
{
    match check {
        Check::Endpoint { .. } => false,
        Check::Calculated { .. } => true,
    }
}

/// Marks the checks of which a child was marked before.
fn mark_parents(
    list: &[(u32, Check)],
    id: u32,
    children: &[u32],
    before: &[bool],
    marks: &mut [bool],
)
    requires rising { IdsRise list.now }
    requires before { length list.now ≤ length before.now }
    requires room { length list.now ≤ length marks.old }
    ensures marks { take (length list.now) marks.new ≡ map (λ (held : ℕ × Check).
        list_any (marked list.now before.now)
        (children_of (updated_at id (children_given children.now) held).1)) list.now }
    ensures length { length marks.new ≡ length marks.old }
{
    for i in 0..list.len() {
        marks[i] = has_marked_child(list, &list[i], id, children, before);
    }
}

/// Whether a child of a check is marked, where the check of a number has these children.
fn has_marked_child(
    list: &[(u32, Check)],
    held: &(u32, Check),
    id: u32,
    children: &[u32],
    marks: &[bool],
) -> bool
    requires rising { IdsRise list.now }
    requires marks { length list.now ≤ length marks.now }
    ensures { result ≡ list_any (marked list.now marks.now)
        (children_of (updated_at id (children_given children.now) held.now).1) }
{
    match &held.1 {
        Check::Endpoint { .. } => false,
        Check::Calculated { children: own, .. } => {
            if held.0 == id {
                return any_marked(list, children, marks);
            }
            any_marked(list, own.as_slice(), marks)
        }
    }
}

/// Whether one of these is marked.
fn any_marked(list: &[(u32, Check)], children: &[u32], marks: &[bool]) -> bool
    requires rising { IdsRise list.now }
    requires marks { length list.now ≤ length marks.now }
    ensures { result ≡ list_any (marked list.now marks.now) children.now }
{
    for child in children {
        if is_marked(list, *child, marks) {
            return true;
        }
    }
    false
}

/// Whether the check of a number is marked.
fn is_marked(list: &[(u32, Check)], id: u32, marks: &[bool]) -> bool
    requires rising { IdsRise list.now }
    requires marks { length list.now ≤ length marks.now }
    ensures { result ≡ marked list.now marks.now id }
{
    match place_of(list, id) {
        Some(place) => marks[place],
        None => false,
    }
}
