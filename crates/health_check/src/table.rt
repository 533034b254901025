//! The table of checks.

ghost use Rattle.std.specs.Prelude.{◌≡◌, ◌+◌, ◌-◌, ◌≤◌, [], length, None, OnOk, IsOk, vec_capacity};
ghost use Rattle.std.specs.Option.{option_copied};
ghost use Rattle.check_model.specs.Checks.{IsSound, NextIdOrNone, check_with};
ghost use Rattle.check_model.specs.Commands.{IsBoundedCommand, checks_after, number_of};
ghost use Rattle.check_model.specs.Commands.{refusal_of, unless};
ghost use Rattle.health_check.specs.Stored.{HasRoom};

use crate::finding::{id_after, place_of};
use crate::judging::refusal_of;
use crate::steps::{Changes, delete, update};
use check_model::{Check, CheckCommand, CheckRefusal, commands_keep_sound, no_checks_are_sound};
use octets::OutOfMemory;
use std::alloc::Global;
use std::marker::Model;

/// The health checks of a configuration by rising numbers, and the number that the next one gets.
/// Contracts see beside them how many more can come without memory.
#[derive(Drop)]
pub struct CheckTable {
    next: u32,
    list: Vec<(u32, Check)>,
}

impl Model for CheckTable {
    ghost use Rattle.std.specs.Prelude.{◌-◌, length, vec_capacity};
    ghost use Rattle.check_model.specs.Checks.{IsSound};
    ghost use Rattle.health_check.specs.Stored.{Kept};

    ghost Value = { Kept };

    ghost view = { λ t. record {
      checks = record { next = t.next; list = t.list.items };
      room = vec_capacity t.list - length t.list.items;
    } };

    ghost invariant = { λ t. IsSound (record { next = t.next; list = t.list.items }) };
}

impl CheckTable {
    /// No checks. The first one gets the number 1.
    pub fn new(alloc: Global) -> CheckTable
        ensures { result ≡ record { checks = record { next = 1; list = [] }; room = 0 } }
    {
        no_checks_are_sound();
        CheckTable {
            next: 1,
            list: Vec::new(alloc),
        }
    }

    /// These checks, of which the next one gets this number. It takes no memory.
    pub fn restore(next: u32, list: Vec<(u32, Check)>) -> CheckTable
        requires { IsSound (record { next = next; list = list.items }) }
        ensures { result ≡ record {
          checks = record { next = next; list = list.items };
          room = vec_capacity list - length list.items;
        } }
    {
        CheckTable { next, list }
    }

    /// The check of a number.
    pub fn get(&self, id: u32) -> Option<&Check>
        ensures check { option_copied result ≡ check_with self.now.checks.list id }
        ensures sound { IsSound self.now.checks }
    {
        match place_of(&self.list, id) {
            Some(place) => Some(&self.list[place].1),
            None => None,
        }
    }

    /// The checks by rising numbers, each with its own.
    pub fn as_slice(&self) -> &[(u32, Check)]
        ensures checks { result.now ≡ self.now.checks.list }
        ensures sound { IsSound self.now.checks }
    {
        &self.list
    }

    /// The least number above a given one.
    pub fn after(&self, id: u32) -> Option<u32>
        ensures next { NextIdOrNone self.now.checks.list id result }
        ensures sound { IsSound self.now.checks }
    {
        id_after(&self.list, id)
    }

    /// The number that the next check gets.
    pub fn next_number(&self) -> u32
        ensures number { result ≡ self.now.checks.next }
        ensures sound { IsSound self.now.checks }
    {
        self.next
    }

    /// The first refusal of a command, if there is one.
    ///
    /// A new check is refused by children that are repeated, aren't there, or are nested too deep,
    /// then by the bound of 200 checks, then by the last number. Changes of a check are refused
    /// where no check has the number, then by a threshold or children that are given for an
    /// endpoint, then by the children as those of a new check, where some are given. The end of a
    /// check is refused where no check has the number, then where a calculated check names it.
    pub fn judge(&self, command: &CheckCommand) -> Result<(), CheckRefusal>
        ensures judged { result ≡ unless (refusal_of self.now.checks command.now) tt }
        ensures sound { IsSound self.now.checks }
    {
        match refusal_of(self.next, &self.list, command) {
            Some(refusal) => Err(refusal),
            None => Ok(()),
        }
    }

    /// Makes room for one check more. The checks stay, and no room is taken away.
    pub fn reserve(&mut self) -> Result<(), OutOfMemory>
        ensures checks { self.new.checks ≡ self.old.checks }
        ensures room { OnOk result (HasRoom self.new 1) }
        ensures kept { self.old.room ≤ self.new.room }
        ensures succeeds { HasRoom self.old 1 → IsOk result }
    {
        match self.list.reserve(1) {
            Ok(()) => Ok(()),
            Err(_) => Err(OutOfMemory),
        }
    }

    /// Makes the command, and answers the number of the check that it makes, changes or deletes. It
    /// takes no memory.
    ///
    /// A threshold and the number of children are within their bounds (`is_bounded`).
    pub fn apply(&mut self, command: CheckCommand) -> u32
        requires judged { refusal_of self.old.checks command ≡ None }
        requires bounded { IsBoundedCommand command }
        requires room { HasRoom self.old 1 }
        ensures checks { self.new.checks ≡ checks_after self.old.checks command }
        ensures number { result ≡ number_of self.old.checks command }
        ensures room { length self.new.checks.list + self.new.room
            ≡ length self.old.checks.list + self.old.room }
        ensures sound { IsSound self.new.checks }
    {
        commands_keep_sound();
        match command {
            CheckCommand::Create(check) => {
                let id = self.next;
                self.list.push_reserved((id, check));
                self.next = id + 1;
                id
            }
            CheckCommand::Update {
                id,
                inverted,
                disabled,
                threshold,
                children,
            } => {
                let changes = Changes {
                    inverted,
                    disabled,
                    threshold,
                    children,
                };
                update(&mut self.list, id, changes);
                id
            }
            CheckCommand::Delete(id) => {
                delete(&mut self.list, id);
                id
            }
        }
    }
}
