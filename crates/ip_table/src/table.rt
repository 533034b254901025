//! A table of rows by prefixes, in a tree for each family.

ghost use Rattle.std.specs.Prelude.{◌≡◌, ◌<◌, [], IsTrue, ◌↔◌, vec_len, vec_capacity, length};
ghost use Rattle.std.specs.Option.{option_copied};
ghost use Rattle.ip_table.specs.Location.{Locates};
ghost use Rattle.ip_table.specs.Rows.{AreRows, HasRow, Inserts};

use crate::IpPrefix;
use crate::place::add_row;
use crate::tree::Fork;
use crate::walk::{is_there, sum_up};
use address_text::IpAddress;
use std::alloc::Global;
use std::marker::Model;

/// Why a row was not inserted, with its value.
#[derive(Debug, PartialEq, Eq, Drop)]
pub enum InsertFault<V> {
    /// A row with this prefix is there.
    Duplicate(V),
    /// There are 100,000 rows.
    Full(V),
    OutOfMemory(V),
}

/// Rows, each a prefix with its value, in the order in which they came.
#[derive(Drop)]
pub struct IpTable<V> {
    prefixes: Vec<IpPrefix>,
    values: Vec<V>,
    v4: Vec<Fork>,
    v6: Vec<Fork>,
}

/// The most rows of a table.
const MAX_ROWS: usize = 100_000;

impl<V> Model for IpTable<V> {
    ghost use Rattle.std.specs.Prelude.{List, length};
    ghost use Rattle.std.specs.List.{zip};
    ghost use Rattle.ip_table.specs.Prefixes.{Prefix};
    ghost use Rattle.ip_table.specs.Tables.{IsTable};

    ghost Value = { List (Prefix × V) };

    ghost view = { λ t. zip t.prefixes.items t.values.items };

    ghost invariant = { λ t. IsTable t.prefixes.items (length t.values.items) t.v4.items t.v6.items };
}

impl<V> IpTable<V> {
    /// A table without rows.
    pub fn new(alloc: Global) -> IpTable<V>
        ensures { result ≡ [] }
    {
        IpTable {
            prefixes: Vec::new(alloc),
            values: Vec::new(alloc),
            v4: Vec::new(alloc),
            v6: Vec::new(alloc),
        }
    }

    /// Adds a row at the end. Where it doesn't, the value comes back and the table is as it was.
    ///
    /// A prefix that is there is reported as such, even in a full table.
    pub fn insert(&mut self, prefix: IpPrefix, value: V) -> Result<(), InsertFault<V>>
        ensures { Inserts self.old prefix value result self.new }
    {
        if self.has_row(prefix) {
            return Err(InsertFault::Duplicate(value));
        }
        if self.prefixes.len() >= MAX_ROWS {
            return Err(InsertFault::Full(value));
        }
        match prefix.address() {
            IpAddress::V4(_) => {
                if !make_room(&mut self.prefixes, &mut self.values, &mut self.v4) {
                    return Err(InsertFault::OutOfMemory(value));
                }
                self.values.push_reserved(value);
                add_row(&mut self.prefixes, &mut self.v4, prefix);
                Ok(())
            }
            IpAddress::V6(_) => {
                if !make_room(&mut self.prefixes, &mut self.values, &mut self.v6) {
                    return Err(InsertFault::OutOfMemory(value));
                }
                self.values.push_reserved(value);
                add_row(&mut self.prefixes, &mut self.v6, prefix);
                Ok(())
            }
        }
    }

    /// Whether an insert of this prefix adds a row, where there is memory for it.
    pub fn takes(&self, prefix: IpPrefix) -> bool
        ensures { IsTrue result ↔ ((¬ HasRow self.now prefix) × (length self.now < 100000)) }
    {
        if self.has_row(prefix) {
            return false;
        }
        self.prefixes.len() < MAX_ROWS
    }

    /// Whether a row has this prefix.
    fn has_row(&self, prefix: IpPrefix) -> bool
        ensures { IsTrue result ↔ HasRow self.now prefix }
    {
        match prefix.address() {
            IpAddress::V4(_) => is_there(&self.prefixes, &self.v4, prefix),
            IpAddress::V6(_) => is_there(&self.prefixes, &self.v6, prefix),
        }
    }

    /// The value of the longest row that contains the address, and the scope of that answer.
    pub fn locate(&self, address: IpAddress) -> (Option<&V>, u8)
        ensures located { Locates self.now address (option_copied result.0) result.1 }
        ensures rows { AreRows self.now }
    {
        let forks = match address {
            IpAddress::V4(_) => self.v4.as_slice(),
            IpAddress::V6(_) => self.v6.as_slice(),
        };
        let walked = sum_up(&self.prefixes, forks, address);
        let past = walked.past as u8;
        match walked.found {
            None => (None, past),
            Some(row) => (Some(&self.values[row as usize]), past.max(walked.long)),
        }
    }
}

/// Makes room for one more row. What the lists hold stays, whether there is room or not.
fn make_room<V>(prefixes: &mut Vec<IpPrefix>, values: &mut Vec<V>, forks: &mut Vec<Fork>) -> bool
    ensures prefixes { prefixes.new.items ≡ prefixes.old.items }
    ensures values { values.new.items ≡ values.old.items }
    ensures forks { forks.new.items ≡ forks.old.items }
    ensures prefix_room { IsTrue result → vec_len prefixes.new < vec_capacity prefixes.new }
    ensures value_room { IsTrue result → vec_len values.new < vec_capacity values.new }
    ensures fork_room { IsTrue result → vec_len forks.new < vec_capacity forks.new }
{
    if prefixes.reserve(1).is_err() {
        return false;
    }
    if values.reserve(1).is_err() {
        return false;
    }
    forks.reserve(1).is_ok()
}
