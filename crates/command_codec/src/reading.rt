//! Reading a command from left to right.

ghost use Rattle.std.specs.Prelude.{◌≡◌, ◌≤◌, ℕ, length, take, drop, IfOk, Ok};
ghost use Rattle.set_reading.specs.ReadingOfOctetReading.{Gives, GivesOrStops};
ghost use Rattle.command_octets.specs.declared.commands.Command.{Command};
ghost use Rattle.command_codec.specs.Commands.{Spells};
ghost use Rattle.command_codec.specs.Gives.{IsInside, GivesCommand};
ghost use Rattle.command_codec.specs.Reading.{version_at, servers_at, create_at, delete_at, action_of, action_at, set_at, change_at};
ghost use Rattle.command_codec.specs.Reading.{batch_at, check_made_at, check_changed_at};
ghost use Rattle.command_codec.specs.Reading.{check_deleted_at, collection_made_at};
ghost use Rattle.command_codec.specs.Reading.{collection_changed_at, collection_deleted_at};
ghost use Rattle.command_codec.specs.Reading.{command_at, versioned_at, read};

use block_reading::{change_collection_at, create_collection_at, delete_collection_at};
use check_reading::{create_check_at, delete_check_at, update_check_at};
use command_octets::{Action, Batch, Change, Changes, Command};
use octets::behind;
use set_reading::{
    Fault, Field, Name, ReadFault, RecordSet, Stop, four_at, list_at, name_at, octet_at, read_set,
};
use std::alloc::Global;

/// The command that bytes are, as a whole.
pub fn read(alloc: Global, bytes: &[u8]) -> Result<Command, ReadFault>
    // What is read is spelled so.
    ensures found { IfOk result (λ command. Spells bytes.now command) }
    // What is spelled so is read, unless memory runs out.
    ensures only { (command : Command)
        → Spells bytes.now command → GivesCommand result (Ok command) }
    // Which fault it is, and at which place.
    ensures exact { GivesCommand result (read bytes.now) }
    ensures inside { IsInside (length bytes.now) result }
{
    set_reading::written_reads_back();
    set_reading::sets_are_told();
    check_reading::check_commands_are_read();
    block_reading::cidr_commands_are_read();
    read_whole(alloc, bytes)
}

/// The command, or the place of the first fault. Nothing may stand behind a command.
#[tactic(auto, unfolding(crate::specs::Reading::read))]
fn read_whole(alloc: Global, bytes: &[u8]) -> Result<Command, ReadFault>
    ensures exact { GivesCommand result (read bytes.now) }
    ensures inside { IsInside (length bytes.now) result }
{
    set_reading::written_reads_back();
    set_reading::sets_are_told();
    check_reading::check_commands_are_read();
    block_reading::cidr_commands_are_read();
    match versioned_at(alloc, bytes) {
        Ok((_, command, rest)) => {
            if rest.len() > 0 {
                return Err(ReadFault::Bad(bytes.len() - rest.len()));
            }
            Ok(command)
        }
        Err(Stop::Bad(left)) => Err(ReadFault::Bad(bytes.len() - left)),
        Err(Stop::OutOfMemory) => Err(ReadFault::OutOfMemory),
    }
}

/// The version and a command behind it.
#[tactic(auto, unfolding(crate::specs::Reading::versioned_at))]
fn versioned_at(alloc: Global, bytes: &[u8]) -> Result<(u8, Command, &[u8]), Stop>
    ensures { GivesOrStops (λ x. ((x.0, x.1), x.2.now)) result (versioned_at bytes.now) }
{
    let (version, rest) = version_at(bytes)?;
    match command_at(alloc, version, rest) {
        Ok((command, rest)) => Ok((version, command, rest)),
        Err(stop) => Err(stop),
    }
}

/// The version of the spelling.
#[tactic(auto, unfolding(crate::specs::Reading::version_at))]
fn version_at(bytes: &[u8]) -> Result<(u8, &[u8]), Fault>
    ensures { Gives (λ x. (x.0, x.1.now)) result (version_at bytes.now) }
{
    let (version, rest) = octet_at(bytes)?;
    match version {
        1 | 2 => Ok((version, rest)),
        _ => Err(Fault(bytes.len())),
    }
}

/// A command behind the version.
#[tactic(auto, unfolding(crate::specs::Reading::command_at))]
fn command_at(alloc: Global, version: u8, bytes: &[u8]) -> Result<(Command, &[u8]), Stop>
    ensures { GivesOrStops (λ x. (x.0, x.1.now)) result (command_at version bytes.now) }
{
    let (kind, rest) = octet_at(bytes)?;
    match kind {
        1 => Ok(create_at(rest)?),
        2 => Ok(delete_at(rest)?),
        3 => batch_at(alloc, rest),
        4 => check_made_at(alloc, version, rest),
        5 => check_changed_at(alloc, version, rest),
        6 => Ok(check_deleted_at(rest)?),
        7 if version == 2 => collection_made_at(rest),
        8 if version == 2 => collection_changed_at(alloc, rest),
        9 if version == 2 => Ok(collection_deleted_at(rest)?),
        _ => Err(Stop::Bad(bytes.len())),
    }
}

/// The name of a zone and its servers.
#[tactic(auto, unfolding(crate::specs::Reading::create_at))]
fn create_at(bytes: &[u8]) -> Result<(Command, &[u8]), Fault>
    ensures { Gives (λ x. (x.0, x.1.now)) result (create_at bytes.now) }
{
    let (name, rest) = match name_at(bytes) {
        Ok(read) => read,
        Err(stop) => return Err(stop),
    };
    let (servers, rest) = match servers_at(rest) {
        Ok(read) => read,
        Err(stop) => return Err(stop),
    };
    Ok((Command::CreateZone { name, servers }, rest))
}

/// Four names.
#[tactic(auto, unfolding(crate::specs::Reading::servers_at))]
fn servers_at(bytes: &[u8]) -> Result<([Name; 4], &[u8]), Fault>
    ensures { Gives (λ x. (x.0, x.1.now)) result (servers_at bytes.now) }
{
    let (first, rest) = match name_at(bytes) {
        Ok(read) => read,
        Err(stop) => return Err(stop),
    };
    let (second, rest) = match name_at(rest) {
        Ok(read) => read,
        Err(stop) => return Err(stop),
    };
    let (third, rest) = match name_at(rest) {
        Ok(read) => read,
        Err(stop) => return Err(stop),
    };
    let (fourth, rest) = match name_at(rest) {
        Ok(read) => read,
        Err(stop) => return Err(stop),
    };
    Ok(([first, second, third, fourth], rest))
}

/// The number of a zone.
#[tactic(auto, unfolding(crate::specs::Reading::delete_at))]
fn delete_at(bytes: &[u8]) -> Result<(Command, &[u8]), Fault>
    ensures { Gives (λ x. (x.0, x.1.now)) result (delete_at bytes.now) }
{
    let (zone, rest) = four_at(bytes)?;
    Ok((Command::DeleteZone(zone), rest))
}

/// The number of a zone, and the changes to its sets.
#[tactic(auto, unfolding(crate::specs::Reading::batch_at))]
fn batch_at(alloc: Global, bytes: &[u8]) -> Result<(Command, &[u8]), Stop>
    ensures { GivesOrStops (λ x. (x.0, x.1.now)) result (batch_at bytes.now) }
{
    let (zone, rest) = four_at(bytes)?;
    let (changes, rest) = list_at(alloc, &OneChange, rest)?;
    let changes = Changes::from_vec(changes);
    Ok((Command::Change(Batch { zone, changes }), rest))
}

/// A new health check.
#[tactic(auto, unfolding(crate::specs::Reading::check_made_at))]
fn check_made_at(alloc: Global, version: u8, bytes: &[u8]) -> Result<(Command, &[u8]), Stop>
    ensures { GivesOrStops (λ x. (x.0, x.1.now)) result (check_made_at version bytes.now) }
{
    match create_check_at(alloc, version, bytes) {
        Ok((command, rest)) => Ok((Command::Health(command), rest)),
        Err(stop) => Err(stop),
    }
}

/// A change of a health check.
#[tactic(auto, unfolding(crate::specs::Reading::check_changed_at))]
fn check_changed_at(alloc: Global, version: u8, bytes: &[u8]) -> Result<(Command, &[u8]), Stop>
    ensures { GivesOrStops (λ x. (x.0, x.1.now)) result (check_changed_at version bytes.now) }
{
    match update_check_at(alloc, version, bytes) {
        Ok((command, rest)) => Ok((Command::Health(command), rest)),
        Err(stop) => Err(stop),
    }
}

/// The end of a health check.
#[tactic(auto, unfolding(crate::specs::Reading::check_deleted_at))]
fn check_deleted_at(bytes: &[u8]) -> Result<(Command, &[u8]), Fault>
    ensures { Gives (λ x. (x.0, x.1.now)) result (check_deleted_at bytes.now) }
{
    match delete_check_at(bytes) {
        Ok((command, rest)) => Ok((Command::Health(command), rest)),
        Err(fault) => Err(fault),
    }
}

/// A new collection.
#[tactic(auto, unfolding(crate::specs::Reading::collection_made_at))]
fn collection_made_at(bytes: &[u8]) -> Result<(Command, &[u8]), Stop>
    ensures { GivesOrStops (λ x. (x.0, x.1.now)) result (collection_made_at bytes.now) }
{
    match create_collection_at(bytes) {
        Ok((command, rest)) => Ok((Command::Cidr(command), rest)),
        Err(Fault(left)) => Err(Stop::Bad(left)),
    }
}

/// Changes of a collection.
#[tactic(auto, unfolding(crate::specs::Reading::collection_changed_at))]
fn collection_changed_at(alloc: Global, bytes: &[u8]) -> Result<(Command, &[u8]), Stop>
    ensures { GivesOrStops (λ x. (x.0, x.1.now)) result (collection_changed_at bytes.now) }
{
    match change_collection_at(alloc, bytes) {
        Ok((command, rest)) => Ok((Command::Cidr(command), rest)),
        Err(stop) => Err(stop),
    }
}

/// The end of a collection.
#[tactic(auto, unfolding(crate::specs::Reading::collection_deleted_at))]
fn collection_deleted_at(bytes: &[u8]) -> Result<(Command, &[u8]), Fault>
    ensures { Gives (λ x. (x.0, x.1.now)) result (collection_deleted_at bytes.now) }
{
    match delete_collection_at(bytes) {
        Ok((command, rest)) => Ok((Command::Cidr(command), rest)),
        Err(fault) => Err(fault),
    }
}

/// A change, as an item of a list.
struct OneChange;

impl Field for OneChange {
    type Value = Change;

    ghost use Rattle.command_codec.specs.Reading.{change_at};

    ghost reading = { λ _. change_at };

    fn read<'a>(&self, alloc: Global, bytes: &'a [u8]) -> Result<(Change, &'a [u8]), Stop> {
        change_at(alloc, bytes)
    }
}

/// A change to a set.
#[tactic(auto, unfolding(crate::specs::Reading::change_at))]
fn change_at(alloc: Global, bytes: &[u8]) -> Result<(Change, &[u8]), Stop>
    ensures { GivesOrStops (λ x. (x.0, x.1.now)) result (change_at bytes.now) }
{
    let (action, rest) = action_at(bytes)?;
    let (characters, rest) = four_at(rest)?;
    let (set, rest) = match set_at(alloc, rest) {
        Ok(read) => read,
        Err(stop) => return Err(stop),
    };
    let change = Change {
        action,
        characters,
        set,
    };
    Ok((change, rest))
}

/// An action, by its number.
#[tactic(auto, unfolding(crate::specs::Reading::action_at))]
fn action_at(bytes: &[u8]) -> Result<(Action, &[u8]), Fault>
    ensures { Gives (λ x. (x.0, x.1.now)) result (action_at bytes.now) }
{
    let (n, rest) = octet_at(bytes)?;
    let Some(action) = action_of(n) else {
        return Err(Fault(bytes.len()));
    };
    Ok((action, rest))
}

/// The action of a number.
fn action_of(n: u8) -> Option<Action>
    ensures { result ≡ action_of n }
{
    match n {
        1 => Some(Action::Create),
        2 => Some(Action::Delete),
        3 => Some(Action::Upsert),
        _ => None,
    }
}

/// A set.
#[tactic(auto, unfolding(crate::specs::Reading::set_at))]
fn set_at(alloc: Global, bytes: &[u8]) -> Result<(RecordSet, &[u8]), Stop>
    ensures { GivesOrStops (λ x. (x.0, x.1.now)) result (set_at bytes.now) }
{
    match read_set(alloc, bytes) {
        Ok((set, len)) => Ok((set, behind(bytes, len))),
        Err(ReadFault::Bad(place)) => Err(Stop::Bad(bytes.len() - place)),
        Err(ReadFault::OutOfMemory) => Err(Stop::OutOfMemory),
    }
}
