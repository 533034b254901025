//! Commands on health checks as octets, in the version that is written.

ghost use Rattle.std.specs.Prelude.{◌≡◌, ◌<◌, ◌^◌, ◌∷◌, [], ◌++◌, length, OnOk};
ghost use Rattle.std.specs.List.{flat_map};
ghost use Rattle.octets.specs.Numbers.{two_octets, four_octets};
ghost use Rattle.octet_reading.specs.Rules.{flag_octet, list_octets, optional_octets, WhereSome};
ghost use Rattle.check_model.specs.Checks.{IsBounded};
ghost use Rattle.check_octets.specs.Octets.{flag_octets, check_octets, kind_of, field_octets};
ghost use Rattle.check_octets.specs.Octets.{IsListable, HasSpelling};

use check_model::{Check, CheckCommand, Children};
use octets::{OutOfMemory, append, four_octets, two_octets};

/// Appends the kind of a command and its fields, in version 2.
pub fn write_check_command(command: &CheckCommand, into: &mut Vec<u8>) -> Result<(), OutOfMemory>
    requires { HasSpelling 2 command.now }
    ensures { OnOk result (into.new.items
        ≡ into.old.items ++ kind_of command.now ∷ field_octets 2 command.now) }
{
    match command {
        CheckCommand::Create(check) => {
            append(&[4], into)?;
            write_check(check, into)
        }
        CheckCommand::Update {
            id,
            inverted,
            disabled,
            threshold,
            children,
        } => {
            append(&[5], into)?;
            append(&four_octets(*id), into)?;
            append_flag(*inverted, into)?;
            append_flag(*disabled, into)?;
            append_threshold(*threshold, into)?;
            append_optional(children, into)
        }
        CheckCommand::Delete(id) => {
            append(&[6], into)?;
            append(&four_octets(*id), into)
        }
    }
}

/// Appends a check, in version 2.
pub fn write_check(check: &Check, into: &mut Vec<u8>) -> Result<(), OutOfMemory>
    requires { IsBounded check.now }
    ensures { OnOk result (into.new.items ≡ into.old.items ++ check_octets 2 check.now) }
{
    match check {
        Check::Endpoint {
            threshold,
            inverted,
            disabled,
        } => append(
            &[1, *threshold, flag_octet(*inverted), flag_octet(*disabled)],
            into,
        ),
        Check::Calculated {
            threshold,
            inverted,
            disabled,
            children,
        } => {
            append(&[2], into)?;
            append(&two_octets(*threshold), into)?;
            append(&[flag_octet(*inverted), flag_octet(*disabled)], into)?;
            append_children(children.as_slice(), into)
        }
    }
}

/// Appends a flag, where it is given.
fn append_flag(flag: Option<bool>, into: &mut Vec<u8>) -> Result<(), OutOfMemory>
    ensures { OnOk result (into.new.items ≡ into.old.items ++ optional_octets flag_octets flag) }
{
    match flag {
        None => append(&[0], into),
        Some(flag) => append(&[1, flag_octet(flag)], into),
    }
}

/// Appends a threshold, where it is given.
fn append_threshold(threshold: Option<u16>, into: &mut Vec<u8>) -> Result<(), OutOfMemory>
    ensures { OnOk result (into.new.items
        ≡ into.old.items ++ optional_octets two_octets threshold) }
{
    match threshold {
        None => append(&[0], into),
        Some(threshold) => {
            append(&[1], into)?;
            append(&two_octets(threshold), into)
        }
    }
}

/// Appends children, where they are given.
fn append_optional(children: &Option<Children>, into: &mut Vec<u8>) -> Result<(), OutOfMemory>
    requires { WhereSome IsListable children.now }
    ensures { OnOk result (into.new.items
        ≡ into.old.items ++ optional_octets (list_octets four_octets) children.now) }
{
    match children {
        None => append(&[0], into),
        Some(children) => {
            append(&[1], into)?;
            append_children(children.as_slice(), into)
        }
    }
}

/// Appends the number of children, and these.
fn append_children(children: &[u32], into: &mut Vec<u8>) -> Result<(), OutOfMemory>
    requires { length children.now < 2 ^ 16 }
    ensures { OnOk result (into.new.items
        ≡ into.old.items ++ list_octets four_octets children.now) }
{
    append(&two_octets(children.len() as u16), into)?;
    append_numbers(children, into)
}

/// Appends numbers of four octets.
fn append_numbers(numbers: &[u32], into: &mut Vec<u8>) -> Result<(), OutOfMemory>
    ensures { OnOk result (into.new.items ≡ into.old.items ++ flat_map four_octets numbers.now) }
{
    for number in numbers {
        if let Err(OutOfMemory) = append(&four_octets(*number), into) {
            return Err(OutOfMemory);
        }
    }
    Ok(())
}

/// The octet of a flag.
fn flag_octet(flag: bool) -> u8
    ensures { result ≡ flag_octet flag }
{
    if flag { 1 } else { 0 }
}
