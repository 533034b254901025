//! The blocks of a collection as rows of a table, in which an address is located.

ghost use Rattle.std.specs.Prelude.{◌≡◌, ◌<◌, ◌≤◌, ◌++◌, ◌∷◌, [], length, IfOk, OnOk};
ghost use Rattle.ip_table.specs.Rows.{HasRow};
ghost use Rattle.cidr_blocks.specs.Places.{StandOnce, rows_at, rows_of};

use crate::ident::Ident;
use crate::places::CidrLocation;
use ip_table::{InsertFault, IpPrefix, IpTable};
use octets::OutOfMemory;
use std::alloc::Global;

/// The table of the blocks of these locations, each with the name of its location.
pub fn table_of(alloc: Global, locations: &[CidrLocation]) -> Result<IpTable<Ident>, OutOfMemory>
    requires once { StandOnce (rows_of locations.now) }
    requires few { length (rows_of locations.now) ≤ 1000 }
    ensures { IfOk result (λ table. table ≡ rows_of locations.now) }
{
    let mut table = IpTable::new(alloc);
    for location in locations {
        add_location(&mut table, location)?;
    }
    Ok(table)
}

/// Adds the blocks of a location.
fn add_location(table: &mut IpTable<Ident>, location: &CidrLocation) -> Result<(), OutOfMemory>
    requires once { StandOnce (table.old ++ rows_at location.now.name location.now.blocks) }
    requires few { length (table.old ++ rows_at location.now.name location.now.blocks) ≤ 1000 }
    ensures { OnOk result
        (table.new ≡ table.old ++ rows_at location.now.name location.now.blocks) }
{
    for block in location.blocks.as_slice() {
        add_block(table, *block, location.name)?;
    }
    Ok(())
}

/// Adds a block that isn't there.
fn add_block(table: &mut IpTable<Ident>, block: IpPrefix, name: Ident) -> Result<(), OutOfMemory>
    requires fresh { HasRow table.old block → ⊥ }
    requires few { length table.old < 100000 }
    ensures { OnOk result (table.new ≡ table.old ++ (block, name) ∷ []) }
{
    match table.insert(block, name) {
        Ok(()) => Ok(()),
        Err(InsertFault::OutOfMemory(_)) => Err(OutOfMemory),
        Err(_) => unreachable!(),
    }
}
