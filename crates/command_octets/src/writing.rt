//! Commands as octets, in the version that is written.

ghost use Rattle.std.specs.Prelude.{◌≡◌, ◌<◌, ◌^◌, ◌∷◌, [], ◌++◌, length, OnOk, IfOk};
ghost use Rattle.std.specs.List.{AllByRecursion, flat_map};
ghost use Rattle.check_octets.specs.Labels.{wire};
ghost use Rattle.command_octets.specs.Octets.{action_number, change_octets, batch_octets, command_octets, HasSpelledSet, IsSpelledBatch, HasSpelling};

use crate::commands::Command;
use batch_model::{Action, Batch, Change, write_set};
use block_octets::write_cidr_command;
use check_octets::{Name, write_check_command};
use octets::{OutOfMemory, append, four_octets, two_octets};
use std::alloc::Global;

/// The version that is written.
const VERSION: u8 = 2;

/// The octets of a command, in version 2.
pub fn write(alloc: Global, command: &Command) -> Result<Vec<u8>, OutOfMemory>
    requires { HasSpelling 2 command.now }
    ensures { IfOk result (λ octets. octets.items ≡ command_octets command.now) }
{
    let mut octets = Vec::new(alloc);
    append_command(command, &mut octets)?;
    Ok(octets)
}

/// Appends a command.
fn append_command(command: &Command, into: &mut Vec<u8>) -> Result<(), OutOfMemory>
    requires { HasSpelling 2 command.now }
    ensures { OnOk result (into.new.items ≡ into.old.items ++ command_octets command.now) }
{
    match command {
        Command::CreateZone { name, servers } => {
            append(&[VERSION, 1], into)?;
            append_name(name, into)?;
            append_names(servers, into)
        }
        Command::DeleteZone(zone) => {
            append(&[VERSION, 2], into)?;
            append(&four_octets(*zone), into)
        }
        Command::Change(batch) => {
            append(&[VERSION, 3], into)?;
            append_batch(batch, into)
        }
        Command::Health(command) => {
            append(&[VERSION], into)?;
            write_check_command(command, into)
        }
        Command::Cidr(command) => {
            append(&[VERSION], into)?;
            write_cidr_command(command, into)
        }
    }
}

/// Appends a name on the wire.
fn append_name(name: &Name, into: &mut Vec<u8>) -> Result<(), OutOfMemory>
    ensures { OnOk result (into.new.items ≡ into.old.items ++ wire name.now) }
{
    append(name.octets(), into)
}

/// Appends names on the wire.
fn append_names(names: &[Name], into: &mut Vec<u8>) -> Result<(), OutOfMemory>
    ensures { OnOk result (into.new.items ≡ into.old.items ++ flat_map wire names.now) }
{
    for name in names {
        if let Err(OutOfMemory) = append_name(name, into) {
            return Err(OutOfMemory);
        }
    }
    Ok(())
}

/// Appends a zone's number and the changes to its sets.
fn append_batch(batch: &Batch, into: &mut Vec<u8>) -> Result<(), OutOfMemory>
    requires { IsSpelledBatch batch.now }
    ensures { OnOk result (into.new.items ≡ into.old.items ++ batch_octets batch.now) }
{
    append(&four_octets(batch.zone), into)?;
    append(&two_octets(batch.changes.len() as u16), into)?;
    append_changes(batch.changes.as_slice(), into)
}

/// Appends changes one behind another.
fn append_changes(changes: &[Change], into: &mut Vec<u8>) -> Result<(), OutOfMemory>
    requires { AllByRecursion HasSpelledSet changes.now }
    ensures { OnOk result (into.new.items ≡ into.old.items ++ flat_map change_octets changes.now) }
{
    for change in changes {
        if let Err(OutOfMemory) = append_change(change, into) {
            return Err(OutOfMemory);
        }
    }
    Ok(())
}

/// Appends a change.
fn append_change(change: &Change, into: &mut Vec<u8>) -> Result<(), OutOfMemory>
    requires { HasSpelledSet change.now }
    ensures { OnOk result (into.new.items ≡ into.old.items ++ change_octets change.now) }
{
    append(&[action_number(change.action)], into)?;
    append(&four_octets(change.characters), into)?;
    write_set(&change.set, into)
}

/// The number of an action.
fn action_number(action: Action) -> u8
    ensures { result ≡ action_number action }
{
    match action {
        Action::Create => 1,
        Action::Delete => 2,
        Action::Upsert => 3,
    }
}
