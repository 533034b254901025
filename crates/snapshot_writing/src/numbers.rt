//! Numbers that are told in some versions, and checks.

ghost use Rattle.std.specs.Prelude.{◌≡◌, ◌<◌, ◌^◌, ◌++◌, ℕ, length, OnOk};
ghost use Rattle.std.specs.List.{AllByRecursion, flat_map};
ghost use Rattle.octets.specs.Numbers.{four_octets};
ghost use Rattle.octet_reading.specs.Rules.{list_octets};
ghost use Rattle.check_model.specs.Checks.{IsBounded};
ghost use Rattle.check_model.specs.declared.checks.Check.{Check};
ghost use Rattle.check_octets.specs.Octets.{where_spelled};
ghost use Rattle.snapshot_octets.specs.Octets.{numbered_check_octets};

use check_model::Check;
use check_octets::write_check;
use octets::{OutOfMemory, append, four_octets, two_octets};

/// Appends a number, where it is told.
pub fn append_told_number(told: bool, n: u32, into: &mut Vec<u8>) -> Result<(), OutOfMemory>
    ensures { OnOk result (into.new.items ≡ into.old.items ++ where_spelled told (four_octets n)) }
{
    if told {
        return append(&four_octets(n), into);
    }
    Ok(())
}

/// Appends the number of checks, and these, each behind its own number.
pub fn append_checks(checks: &[(u32, Check)], into: &mut Vec<u8>) -> Result<(), OutOfMemory>
    requires few { length checks.now < 2 ^ 16 }
    requires bounded { AllByRecursion (λ (held : ℕ × Check). IsBounded held.1) checks.now }
    ensures { OnOk result (into.new.items
        ≡ into.old.items ++ list_octets (numbered_check_octets 2) checks.now) }
{
    append(&two_octets(checks.len() as u16), into)?;
    append_held_checks(checks, into)
}

/// Appends checks one behind another.
fn append_held_checks(checks: &[(u32, Check)], into: &mut Vec<u8>) -> Result<(), OutOfMemory>
    requires { AllByRecursion (λ (held : ℕ × Check). IsBounded held.1) checks.now }
    ensures { OnOk result (into.new.items
        ≡ into.old.items ++ flat_map (numbered_check_octets 2) checks.now) }
{
    for held in checks {
        if let Err(OutOfMemory) = append_held_check(held, into) {
            return Err(OutOfMemory);
        }
    }
    Ok(())
}

/// Appends a check behind its number.
fn append_held_check(held: &(u32, Check), into: &mut Vec<u8>) -> Result<(), OutOfMemory>
    requires { IsBounded held.now.1 }
    ensures { OnOk result (into.new.items ≡ into.old.items ++ numbered_check_octets 2 held.now) }
{
    append(&four_octets(held.0), into)?;
    write_check(&held.1, into)
}
