//! Collections by their numbers, with a table of the blocks of each.

ghost use Rattle.std.specs.Prelude.{◌≡◌, [], IfOk, Ok};
ghost use Rattle.std.specs.List.{AllByRecursion};
ghost use Rattle.std.specs.Option.{option_copied};
ghost use Rattle.cidr_commands.specs.Places.{IsCollection};
ghost use Rattle.cidr_commands.specs.Refusals.{Gives};
ghost use Rattle.cidr_commands.specs.Commands.{GivesWhere, HasNames, MayWant, outcome};
ghost use Rattle.cidr_commands.specs.Stored.{AreRowsIn, IsSound, LocatesIn};
ghost use Rattle.cidr_commands.specs.Stored.{NextIdOrNone, Stored, collection_with};
ghost use Rattle.cidr_routing.specs.Tables.{tables_of};

use cidr_commands::{
    CidrCommand, CidrFault, Collection, Ident, IpAddress, IpTable, carry_out, commands_keep_sound,
    id_after, place_of, table_of,
};
use octets::OutOfMemory;
use std::alloc::Global;
use std::marker::Model;

/// The collections of a config, and the number that the next one gets.
pub struct Collections {
    next: u32,
    list: Vec<(u32, Collection)>,
    tables: Vec<IpTable<Ident>>,
}

/// Written out, so that what drops collections takes one step, and not one for each of their parts.
impl Drop for Collections {
    fn drop(self) {
        let Collections {
            next: _,
            list: _,
            tables: _,
        } = self;
    }
}

impl Model for Collections {
    ghost use Rattle.std.specs.Prelude.{◌≡◌};
    ghost use Rattle.cidr_commands.specs.Stored.{IsSound, Stored};
    ghost use Rattle.cidr_routing.specs.Tables.{tables_of};

    ghost Value = { Stored };

    ghost view = { λ c. record { next = c.next; list = c.list.items } };

    ghost invariant = { λ c. IsSound (record { next = c.next; list = c.list.items })
        × (c.tables.items ≡ tables_of c.list.items) };
}

impl Collections {
    /// No collections. The first one gets the number 1.
    pub fn new(alloc: Global) -> Collections
        ensures { result ≡ record { next = 1; list = [] } }
    {
        Collections {
            next: 1,
            list: Vec::new(alloc),
            tables: Vec::new(alloc),
        }
    }

    /// These collections, of which the next one gets this number.
    pub fn restore(
        alloc: Global,
        next: u32,
        list: Vec<(u32, Collection)>,
    ) -> Result<Collections, OutOfMemory>
        requires { IsSound (record { next = next; list = list.items }) }
        ensures { IfOk result (λ c. c ≡ record { next = next; list = list.items }) }
    {
        let tables = tables_of(alloc, &list)?;
        Ok(Collections { next, list, tables })
    }

    /// The collection of a number. Its locations rise by name, and the blocks of each rise.
    pub fn get(&self, id: u32) -> Option<&Collection>
        ensures collection { option_copied result ≡ collection_with id self.now.list }
        ensures sound { IsSound self.now }
    {
        match place_of(&self.list, id) {
            Some(place) => Some(&self.list[place].1),
            None => None,
        }
    }

    /// The least number above a given one.
    pub fn next_id(&self, id: u32) -> Option<u32>
        ensures next { NextIdOrNone self.now.list id result }
        ensures sound { IsSound self.now }
    {
        id_after(&self.list, id)
    }

    /// The collections by rising numbers, each with its own.
    pub fn as_slice(&self) -> &[(u32, Collection)]
        ensures collections { result.now ≡ self.now.list }
        ensures sound { IsSound self.now }
    {
        &self.list
    }

    /// The number that the next collection gets.
    pub fn next_number(&self) -> u32
        ensures number { result ≡ self.now.next }
        ensures sound { IsSound self.now }
    {
        self.next
    }

    /// The location of the longest block of a collection that contains the client, and the scope of
    /// that answer. None and 0 where the collection isn't there.
    pub fn location(&self, id: u32, client: IpAddress) -> (Option<&Ident>, u8)
        ensures located { LocatesIn (collection_with id self.now.list) client
            (option_copied result.0) result.1 }
        ensures rows { AreRowsIn (collection_with id self.now.list) }
        ensures sound { IsSound self.now }
    {
        let Some(place) = place_of(&self.list, id) else {
            return (None, 0);
        };
        self.tables[place].locate(client)
    }

    /// The collections after a command, or its first refusal. These here stay as they are.
    ///
    /// `used` is what the record sets name: collections by their numbers, and in each a location or
    /// `*`. A new collection is refused by its name, then by the bound of 100, then by the last
    /// number. Changes and the end of a collection are refused by its number first. Changes are
    /// refused one by one by the length of a block, then by a block that is put and stands under
    /// another location; after the last one by the bound of 1,000 blocks, then by a location in use
    /// that has no block left, of several the least by bytes.
    ///
    /// Memory is wanted only where it isn't refused, or changes a collection that is there.
    pub fn after(
        &self,
        alloc: Global,
        command: &CidrCommand,
        used: &[(u32, Ident)],
    ) -> Result<Collections, CidrFault>
        requires names { HasNames command.now }
        ensures { GivesWhere (MayWant self.now command.now used.now) result
            (outcome self.now command.now used.now) }
    {
        commands_keep_sound();
        match carry_out(alloc, self.next, &self.list, command, used) {
            Ok((next, list)) => stored(alloc, next, list),
            Err(fault) => Err(fault),
        }
    }
}

/// These collections, where there is memory for their tables.
fn stored(alloc: Global, next: u32, list: Vec<(u32, Collection)>) -> Result<Collections, CidrFault>
    requires { IsSound (record { next = next; list = list.items }) }
    ensures { Gives result (Ok (record { next = next; list = list.items })) }
{
    match Collections::restore(alloc, next, list) {
        Ok(collections) => Ok(collections),
        Err(_) => Err(CidrFault::OutOfMemory),
    }
}

/// The table of each collection.
fn tables_of(alloc: Global, list: &[(u32, Collection)]) -> Result<Vec<IpTable<Ident>>, OutOfMemory>
    requires { AllByRecursion (λ held. IsCollection held.1) list.now }
    ensures { IfOk result (λ tables. tables.items ≡ tables_of list.now) }
{
    let mut tables = Vec::new(alloc);
    for held in list {
        tables.push(table_of(alloc, held.1.locations.as_slice())?)?;
    }
    Ok(tables)
}
