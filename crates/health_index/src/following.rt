//! Commands by which no calculated check comes, goes or gets other children: the check of an endpoint comes
//! behind all, one goes, or checks get other conditions. Their valves change in place, and none is laid anew.

ghost use Rattle.std.specs.Prelude.{◌≡◌, ◌≢◌, ◌≤◌, ◌<◌, ◌↔◌, ℕ, IsTrue, Some, length, slice_get};
ghost use Rattle.check_model.specs.Checks.{IsBounded};
ghost use Rattle.check_model.specs.declared.checks.Check.{Check};
ghost use Rattle.health_valves.specs.Laying.{links_of};
ghost use Rattle.health_valves.specs.Pass.{IsIdle};
ghost use Rattle.health_valves.specs.Valves.{IsReady, Net, ValvesStandFor, size_of};
ghost use Rattle.health_index.specs.Following.{AreSame, HaveIds, HaveIdsBehind};
ghost use Rattle.health_index.specs.Following.{IsWay, Reshapes};
ghost use Rattle.health_index.specs.Following.{HasCheckers, IsFresh};
ghost use Rattle.health_index.specs.Index.{IsEndpoint};
ghost use Rattle.health_planning.specs.Wired.{HaveValves};

use checker_state::Checkers;
use health_check::Check;
use health_planning::{inverted_of, need_of, number_at};
use health_valves::Valves;

/// How checks follow of those that had some numbers.
#[derive(Clone, Copy)]
pub enum Way {
    /// They have these numbers.
    Same,
    /// One more came, behind all.
    More,
    /// The one at a place went.
    Fewer(usize),
    /// None of these.
    Other,
}

/// Whether a check is of an endpoint.
pub fn is_endpoint(check: &Check) -> bool
    ensures { IsTrue result ↔ IsEndpoint (Some check.now) }
{
    match check {
        Check::Endpoint { .. } => true,
        Check::Calculated { .. } => false,
    }
}

/// Whether a number stands at a place.
fn has_at(ids: &[u32], place: usize, id: u32) -> bool
    ensures { IsTrue result ↔ (slice_get ids.now place ≡ Some id) }
{
    if place >= ids.len() {
        return false;
    }
    ids[place] == id
}

/// As far as which place the checks have these numbers, one by one.
fn agreeing(ids: &[u32], list: &[(u32, Check)]) -> usize
    ensures ids { result ≤ length ids.now }
    ensures list { result ≤ length list.now }
    ensures same { HaveIds ids.now result list.now }
    ensures end { (held : ℕ × Check) → slice_get list.now result ≡ Some held
        → slice_get ids.now result ≢ Some held.0 }
{
    for place in 0..list.len() {
        if !has_at(ids, place, list[place].0) {
            return place;
        }
    }
    list.len()
}

/// Whether from a place on the checks have these numbers, each one place further.
fn agree_behind(ids: &[u32], list: &[(u32, Check)], gone: usize) -> bool
    requires { gone < length ids.now }
    ensures { IsTrue result ↔ HaveIdsBehind ids.now gone list.now }
{
    for place in gone..list.len() {
        if !has_at(ids, place + 1, list[place].0) {
            return false;
        }
    }
    true
}

/// Whether the checks have these numbers.
pub fn has_ids(ids: &[u32], list: &[(u32, Check)]) -> bool
    ensures { IsTrue result ↔ AreSame ids.now list.now }
{
    if list.len() != ids.len() {
        return false;
    }
    agreeing(ids, list) == ids.len()
}

/// How checks follow of those that had these numbers.
pub fn way_of(ids: &[u32], list: &[(u32, Check)]) -> Way
    ensures { IsWay ids.now list.now result }
{
    let same = agreeing(ids, list);
    if same == ids.len() {
        if list.len() == same {
            return Way::Same;
        }
        if list.len() == same + 1 {
            return Way::More;
        }
        return Way::Other;
    }
    if list.len() + 1 != ids.len() {
        return Way::Other;
    }
    if agree_behind(ids, list, same) {
        return Way::Fewer(same);
    }
    Way::Other
}

/// Whether there are checkers of the check at a place, which that of an endpoint has.
pub fn has_checkers(seen: &[Option<Checkers>], place: usize) -> bool
    requires { place < length seen.now }
    ensures { IsTrue result ↔ HasCheckers seen.now place }
{
    seen[place].is_some()
}

/// The checkers of an endpoint's check, before any result.
pub fn fresh_checkers(check: &Check) -> Checkers
    requires endpoint { IsEndpoint (Some check.now) }
    requires bounded { IsBounded check.now }
    ensures { IsFresh check.now result }
{
    match check {
        Check::Endpoint { threshold, .. } => Checkers::new(*threshold),
        Check::Calculated { .. } => unreachable!(),
    }
}

/// Gives the valves of checks their conditions, and works out what stands above those whose values
/// change. It takes no memory.
pub fn reshape_checks(valves: &mut Valves, list: &[(u32, Check)], numbers: &[u32])
    requires ready { IsReady valves.old }
    requires idle { IsIdle valves.old }
    requires numbers { HaveValves (length list.now) numbers.now }
    requires within { (place valve : ℕ) → slice_get numbers.now place ≡ Some valve
        → valve < size_of valves.old }
    ensures reshaped { (net : Net) (own : ℕ → ℕ) → ValvesStandFor net own valves.old
        → Reshapes list.now numbers.now (length list.now) net own valves.old valves.new }
    ensures idle { IsIdle valves.new }
    ensures size { size_of valves.new ≡ size_of valves.old }
    ensures links { links_of valves.new ≡ links_of valves.old }
{
    for (place, held) in list.iter().enumerate() {
        let check = &held.1;
        let valve = number_at(numbers, place);
        valves.reshape(valve, need_of(check), inverted_of(check));
    }
}
