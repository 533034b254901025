//! The children of calculated checks, one check behind the other. Where these stay while checks come, go and
//! change, each valve of a check that stays is fed by those that fed it.

ghost use Rattle.std.specs.Prelude.{◌≡◌, ◌≢◌, ◌≤◌, ◌+◌, ◌∷◌, ◌++◌, ◌↔◌, ℕ, IsTrue, List, MatchOption, Some, length};
ghost use Rattle.std.specs.Prelude.{slice_get, vec_capacity};
ghost use Rattle.check_model.specs.Checks.{IsBounded};
ghost use Rattle.check_model.specs.declared.checks.Check.{Check};
ghost use Rattle.health_index.specs.Kin.{its_kin, kin_of};

use health_check::Check;

/// What stands behind a number, where others begin with it.
fn behind_one(numbers: &[u32], this: usize) -> Option<&[u32]>
    ensures { MatchOption result ((rest : List ℕ) → numbers.now ≢ this ∷ rest)
        (λ rest. numbers.now ≡ this ∷ rest.now) }
{
    let Some((first, rest)) = numbers.split_first() else {
        return None;
    };
    if *first as usize != this {
        return None;
    }
    Some(rest)
}

/// What stands behind some numbers, where others begin with them.
fn behind_all<'a>(numbers: &'a [u32], these: &[u32]) -> Option<&'a [u32]>
    ensures { MatchOption result ((rest : List ℕ) → numbers.now ≢ these.now ++ rest)
        (λ rest. numbers.now ≡ these.now ++ rest.now) }
{
    numbers.strip_prefix(these)
}

/// What stands behind the kin of a calculated check, where some numbers begin with them.
fn behind_children<'a>(kin: &'a [u32], id: u32, children: &[u32]) -> Option<&'a [u32]>
    ensures { MatchOption result
        ((rest : List ℕ) → kin.now ≢ id ∷ length children.now ∷ (children.now ++ rest))
        (λ rest. kin.now ≡ id ∷ length children.now ∷ (children.now ++ rest.now)) }
{
    let Some(rest) = behind_one(kin, id as usize) else {
        return None;
    };
    let Some(rest) = behind_one(rest, children.len()) else {
        return None;
    };
    behind_all(rest, children)
}

/// What stands behind the kin of a check, where some numbers begin with them. An endpoint's has none.
fn behind_kin<'a>(kin: &'a [u32], id: u32, check: &Check) -> Option<&'a [u32]>
    ensures { MatchOption result ((rest : List ℕ) → kin.now ≢ its_kin id check.now ++ rest)
        (λ rest. kin.now ≡ its_kin id check.now ++ rest.now) }
{
    match check {
        Check::Endpoint { .. } => Some(kin),
        Check::Calculated { children, .. } => behind_children(kin, id, children.as_slice()),
    }
}

/// Whether these are the kin of some checks.
pub fn has_kin(kin: &[u32], list: &[(u32, Check)]) -> bool
    ensures { IsTrue result ↔ (kin.now ≡ kin_of list.now) }
{
    let mut rest = kin;
    for held in list {
        let Some(behind) = behind_kin(rest, held.0, &held.1) else {
            return false;
        };
        rest = behind;
    }
    rest.is_empty()
}

/// Writes the kin of a check behind those that are there.
fn push_kin(kin: &mut Vec<u32>, id: u32, check: &Check)
    requires bounded { IsBounded check.now }
    requires room { length kin.old.items + 257 ≤ vec_capacity kin.old }
    ensures kin { kin.new.items ≡ kin.old.items ++ its_kin id check.now }
    ensures room { vec_capacity kin.new ≡ vec_capacity kin.old }
    ensures few { length kin.new.items ≤ length kin.old.items + 257 }
{
    let Check::Calculated { children, .. } = check else {
        return;
    };
    let children = children.as_slice();
    kin.push_reserved(id);
    kin.push_reserved(children.len() as u32);
    push_each(kin, children);
}

/// Writes numbers behind those that are there.
fn push_each(kin: &mut Vec<u32>, numbers: &[u32])
    requires room { length kin.old.items + length numbers.now ≤ vec_capacity kin.old }
    ensures kin { kin.new.items ≡ kin.old.items ++ numbers.now }
    ensures room { vec_capacity kin.new ≡ vec_capacity kin.old }
{
    for number in numbers {
        kin.push_reserved(*number);
    }
}

/// Writes the kin of checks in the place of what there is. It takes no memory.
pub fn list_kin(kin: &mut Vec<u32>, list: &[(u32, Check)])
    requires few { length list.now ≤ 200 }
    requires bounded { (place id : ℕ) (check : Check) → slice_get list.now place ≡ Some (id, check)
        → IsBounded check }
    requires room { 51400 ≤ vec_capacity kin.old }
    ensures kin { kin.new.items ≡ kin_of list.now }
    ensures room { vec_capacity kin.new ≡ vec_capacity kin.old }
{
    kin.clear();
    for held in list {
        push_kin(kin, held.0, &held.1);
    }
}
