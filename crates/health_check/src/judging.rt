//! The first refusal of a command.

ghost use Rattle.std.specs.Prelude.{◌≡◌, ◌≤◌, ◌∷◌, ◌&&◌, ◌||◌, [], ℕ, length, is_some, not};
ghost use Rattle.std.specs.Prelude.{None, Some};
ghost use Rattle.check_model.specs.Checks.{IdsRise, IsSound, check_with};
ghost use Rattle.check_model.specs.Commands.{Given, children_rules, create_refusal};
ghost use Rattle.check_model.specs.Commands.{delete_refusal, first_missing, first_of};
ghost use Rattle.check_model.specs.Commands.{has_repeated, is_calculated, missing, of_there};
ghost use Rattle.check_model.specs.Commands.{refusal_of, refuse_if, update_refusal};
ghost use Rattle.health_check.specs.Marks.{with_children};
ghost use Rattle.check_model.specs.declared.refusals.CheckRefusal.TheVariants.{ChildRepeated};

use crate::children::{children_of, first_missing, has_repeated, is_named};
use crate::finding::place_of;
use crate::nesting::{is_too_deep_with, starts_deep};
use check_model::{Check, CheckCommand, CheckRefusal, Children};

/// The most checks.
const MAX_CHECKS: usize = 200;

/// The last number, which no check gets.
const LAST: u32 = 4_294_967_295;

/// The first refusal of a command on these checks, of which the next one gets this number.
pub fn refusal_of(next: u32, list: &[(u32, Check)], command: &CheckCommand) -> Option<CheckRefusal>
    requires { IsSound (record { next = next; list = list.now }) }
    ensures { result ≡ refusal_of (record { next = next; list = list.now }) command.now }
{
    match command {
        CheckCommand::Create(check) => create_refusal(next, list, check),
        CheckCommand::Update {
            id,
            threshold,
            children,
            ..
        } => update_refusal(list, *id, threshold.is_some(), children),
        CheckCommand::Delete(id) => delete_refusal(list, *id),
    }
}

/// The first refusal of a new check.
fn create_refusal(next: u32, list: &[(u32, Check)], check: &Check) -> Option<CheckRefusal>
    requires { IsSound (record { next = next; list = list.now }) }
    ensures { result ≡ create_refusal (record { next = next; list = list.now }) check.now }
{
    let children = children_of(check);
    if let Some(refusal) = named_refusal(list, children) {
        return Some(refusal);
    }
    if starts_deep(list, children) {
        return Some(CheckRefusal::ChildTooDeep);
    }
    if list.len() >= MAX_CHECKS {
        return Some(CheckRefusal::TooManyHealthChecks);
    }
    if next == LAST {
        return Some(CheckRefusal::IdsEnded);
    }
    None
}

/// The first refusal of children by their numbers.
fn named_refusal(list: &[(u32, Check)], children: &[u32]) -> Option<CheckRefusal>
    requires { IdsRise list.now }
    ensures { result ≡ first_of (refuse_if (has_repeated children.now) ChildRepeated
        ∷ missing (first_missing list.now children.now) ∷ []) }
{
    if has_repeated(children) {
        return Some(CheckRefusal::ChildRepeated);
    }
    match first_missing(list, children) {
        Some(child) => Some(CheckRefusal::NoSuchHealthCheck(child)),
        None => None,
    }
}

/// The first refusal of changes of a check.
fn update_refusal(
    list: &[(u32, Check)],
    id: u32,
    threshold: bool,
    children: &Option<Children>,
) -> Option<CheckRefusal>
    requires rising { IdsRise list.now }
    requires few { length list.now ≤ 200 }
    ensures { (next : ℕ) (given : Given) → is_some given.threshold ≡ threshold
        → given.children ≡ children.now
        → result ≡ of_there id (check_with list.now id)
        (update_refusal (record { next = next; list = list.now }) id given) }
{
    let Some(place) = place_of(list, id) else {
        return Some(CheckRefusal::NoSuchHealthCheck(id));
    };
    if is_wrong_member(&list[place].1, threshold, children.is_some()) {
        return Some(CheckRefusal::WrongMember);
    }
    match children {
        Some(children) => given_refusal(list, id, children.as_slice()),
        None => None,
    }
}

/// Whether a threshold or children are given for a check of an endpoint.
fn is_wrong_member(check: &Check, threshold: bool, children: bool) -> bool
    ensures { result ≡ (not (is_calculated check.now) && (threshold || children)) }
{
    match check {
        Check::Endpoint { .. } => threshold || children,
        Check::Calculated { .. } => false,
    }
}

/// The first refusal of children that are given for a check.
fn given_refusal(list: &[(u32, Check)], id: u32, children: &[u32]) -> Option<CheckRefusal>
    requires rising { IdsRise list.now }
    requires few { length list.now ≤ 200 }
    ensures { result ≡ first_of (children_rules list.now
        (with_children id children.now list.now) children.now) }
{
    if let Some(refusal) = named_refusal(list, children) {
        return Some(refusal);
    }
    if is_too_deep_with(list, id, children) {
        return Some(CheckRefusal::ChildTooDeep);
    }
    None
}

/// The first refusal of the end of a check.
fn delete_refusal(list: &[(u32, Check)], id: u32) -> Option<CheckRefusal>
    requires { IdsRise list.now }
    ensures { (next : ℕ) → result ≡ of_there id (check_with list.now id)
        (λ check. delete_refusal (record { next = next; list = list.now }) id) }
{
    let Some(_) = place_of(list, id) else {
        return Some(CheckRefusal::NoSuchHealthCheck(id));
    };
    if is_named(list, id) {
        return Some(CheckRefusal::HealthCheckInUse(id));
    }
    None
}
