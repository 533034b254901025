//! What a command makes of a list of checks. It takes no memory.

ghost use Rattle.std.specs.Prelude.{◌≡◌, ◌+◌, map, unwrap_or, vec_capacity, vec_len};
ghost use Rattle.check_model.specs.Checks.{IdsRise, IsId};
ghost use Rattle.check_model.specs.Commands.{given_by, updated_at, updated_check, without};

use crate::finding::place_of;
use check_model::{Check, Children};

/// The changes that an update gives; None leaves what is there.
#[derive(Drop)]
pub struct Changes {
    pub inverted: Option<bool>,
    pub disabled: Option<bool>,
    pub threshold: Option<u16>,
    pub children: Option<Children>,
}

/// Changes the check of a number, and leaves the rest.
pub fn update(list: &mut Vec<(u32, Check)>, id: u32, changes: Changes)
    requires rising { IdsRise list.old.items }
    requires there { IsId list.old.items id }
    ensures items { list.new.items ≡ map (updated_at id (given_by changes.inverted changes.disabled
        changes.threshold changes.children)) list.old.items }
    ensures len { vec_len list.new ≡ vec_len list.old }
    ensures capacity { vec_capacity list.new ≡ vec_capacity list.old }
{
    let Some(place) = place_of(list, id) else {
        return;
    };
    change(&mut list[place].1, changes);
}

/// Changes what is given of a check.
fn change(check: &mut Check, changes: Changes)
    ensures { check.new ≡ updated_check (given_by changes.inverted changes.disabled
        changes.threshold changes.children) check.old }
{
    match check {
        Check::Endpoint {
            inverted,
            disabled,
            ..
        } => {
            put(inverted, changes.inverted);
            put(disabled, changes.disabled);
        }
        Check::Calculated {
            threshold,
            inverted,
            disabled,
            children,
        } => {
            put(threshold, changes.threshold);
            put(inverted, changes.inverted);
            put(disabled, changes.disabled);
            put(children, changes.children);
        }
    }
}

/// Puts what is given in the place of what is there.
fn put<T: Drop>(place: &mut T, given: Option<T>)
    ensures { place.new ≡ unwrap_or given place.old }
{
    if let Some(value) = given {
        *place = value;
    }
}

/// Takes the check of a number away.
pub fn delete(list: &mut Vec<(u32, Check)>, id: u32)
    requires rising { IdsRise list.old.items }
    requires there { IsId list.old.items id }
    ensures items { list.new.items ≡ without id list.old.items }
    ensures len { vec_len list.new + 1 ≡ vec_len list.old }
    ensures capacity { vec_capacity list.new ≡ vec_capacity list.old }
{
    let Some(place) = place_of(list, id) else {
        return;
    };
    list.remove(place);
}
