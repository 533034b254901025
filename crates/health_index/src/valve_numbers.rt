//! Which valves checks get.

ghost use Rattle.std.specs.Prelude.{◌≡◌, ◌≤◌, ◌<◌, ◌↔◌, [], ℕ, IsTrue, None, Some, false, length, slice_get, true};
ghost use Rattle.std.specs.Prelude.{vec_capacity};
ghost use Rattle.health_index.specs.Following.{HaveTheirValves};
ghost use Rattle.health_planning.specs.Wired.{HaveValves, IsSpare, StandApart, ids_of};

use crate::following::{Way, way_of};
use health_check::Check;
use health_planning::{MOST_CHECKS, place_in};

/// Gives so many checks the first valves, where none has one.
pub fn list_numbers(numbers: &mut Vec<u32>, many: usize)
    requires empty { numbers.old.items ≡ [] }
    requires room { many ≤ vec_capacity numbers.old }
    requires few { many ≤ 200 }
    ensures valves { HaveValves many numbers.new.items }
    ensures room { vec_capacity numbers.new ≡ vec_capacity numbers.old }
{
    for place in 0..many {
        numbers.push_reserved(place as u32);
    }
}

/// The valves of checks that follow of those that had some numbers. Where one came behind them, or one of them
/// went, or none did, each that stays keeps its valve, which is the answer. Else all have others.
pub fn keep_numbers(numbers: &mut Vec<u32>, ids: &[u32], list: &[(u32, Check)]) -> bool
    requires valves { HaveValves (length ids.now) numbers.old.items }
    requires apart { StandApart ids.now }
    requires apart_now { StandApart (ids_of list.now) }
    requires few { length list.now ≤ 200 }
    requires room { 200 ≤ vec_capacity numbers.old }
    ensures valves { HaveValves (length list.now) numbers.new.items }
    ensures kept { result ≡ true
        → HaveTheirValves ids.now numbers.old.items (ids_of list.now) numbers.new.items }
    ensures room { vec_capacity numbers.new ≡ vec_capacity numbers.old }
{
    match way_of(ids, list) {
        Way::Same => true,
        Way::More => {
            let valve = spare_number(numbers);
            numbers.push_reserved(valve);
            true
        }
        Way::Fewer(gone) => {
            numbers.remove(gone);
            true
        }
        Way::Other => {
            numbers.clear();
            list_numbers(numbers, list.len());
            false
        }
    }
}

/// Whether all sets are asked: where that is wanted, and where checks got other valves.
pub fn asks_all(whole: bool, kept: bool) -> bool
    ensures wanted { whole ≡ true → result ≡ true }
    ensures kept { result ≡ false → kept ≡ true }
{
    if whole {
        return true;
    }
    !kept
}

/// Whether a number is that of a check's valve.
pub fn has_number(numbers: &[u32], number: u32) -> bool
    ensures { IsTrue result ↔ ((place : ℕ) × (slice_get numbers.now place ≡ Some number)) }
{
    match place_in(numbers, number) {
        Some(_place) => true,
        None => false,
    }
}

/// The first valve from one number on and below another that no check has, where there is one.
fn spare_between(numbers: &[u32], from: usize, to: usize) -> Option<u32>
    requires { to ≤ 200 }
    ensures found { (valve : ℕ) → result ≡ Some valve
        → (from ≤ valve) × (valve < to) × IsSpare numbers.now valve }
    ensures none { result ≡ None → (valve : ℕ) → from ≤ valve → valve < to
        → (place : ℕ) × (slice_get numbers.now place ≡ Some valve) }
{
    for valve in from..to {
        if !has_number(numbers, valve as u32) {
            return Some(valve as u32);
        }
    }
    None
}

/// A valve that no check has: the first one behind the last check's, else the first of all. Where
/// checks came one after another the one behind the last check's mostly is spare.
pub fn spare_number(numbers: &[u32]) -> u32
    requires { length numbers.now < 200 }
    ensures { IsSpare numbers.now result }
{
    if let Some(valve) = spare_between(numbers, behind_last(numbers), MOST_CHECKS) {
        return valve;
    }
    let Some(valve) = spare_between(numbers, 0, MOST_CHECKS) else {
        unreachable!();
    };
    valve
}

/// The number behind that of the last check's valve.
fn behind_last(numbers: &[u32]) -> usize {
    match numbers.last() {
        Some(last) => (*last as usize).saturating_add(1),
        None => 0,
    }
}
