//! Lists of blocks and of locations, each in its order.

ghost use Rattle.std.specs.Prelude.{◌≡◌, ◌++◌, ◌∷◌, [], IfOk, OnErr, OnOk};

use crate::places::CidrLocation;
use ip_table::IpPrefix;
use octets::OutOfMemory;
use std::alloc::Global;
use std::marker::Model;

/// A list of blocks.
#[derive(Drop)]
pub struct Blocks {
    list: Vec<IpPrefix>,
}

/// A list of locations.
#[derive(Drop)]
pub struct Locations {
    list: Vec<CidrLocation>,
}

impl Model for Blocks {
    ghost use Rattle.std.specs.Prelude.{List};
    ghost use Rattle.ip_table.specs.Prefixes.{Prefix};

    ghost Value = { List Prefix };

    ghost view = { λ b. b.list.items };
}

impl Model for Locations {
    ghost use Rattle.std.specs.Prelude.{List};
    ghost use Rattle.cidr_blocks.specs.declared.places.CidrLocation.{CidrLocation};

    ghost Value = { List CidrLocation };

    ghost view = { λ l. l.list.items };
}

impl Blocks {
    /// These blocks.
    pub fn from_vec(list: Vec<IpPrefix>) -> Blocks
        ensures { result ≡ list.items }
    {
        Blocks { list }
    }

    /// The blocks as a slice.
    pub fn as_slice(&self) -> &[IpPrefix]
        ensures { result.now ≡ self.now }
    {
        &self.list
    }

    /// Adds a block behind them. Where there is no memory for it they stay.
    pub fn push(&mut self, block: IpPrefix) -> Result<(), OutOfMemory>
        ensures added { OnOk result (self.new ≡ self.old ++ block ∷ []) }
        ensures kept { OnErr result (self.new ≡ self.old) }
    {
        self.list.push(block)?;
        Ok(())
    }

    /// A copy of them.
    pub fn copy(&self, alloc: Global) -> Result<Blocks, OutOfMemory>
        ensures { IfOk result (λ copy. copy ≡ self.now) }
    {
        let list = copy_blocks(alloc, &self.list)?;
        Ok(Blocks { list })
    }
}

impl Locations {
    /// These locations.
    pub fn from_vec(list: Vec<CidrLocation>) -> Locations
        ensures { result ≡ list.items }
    {
        Locations { list }
    }

    /// The locations as a slice.
    pub fn as_slice(&self) -> &[CidrLocation]
        ensures { result.now ≡ self.now }
    {
        &self.list
    }

    /// A copy of them.
    pub fn copy(&self, alloc: Global) -> Result<Locations, OutOfMemory>
        ensures { IfOk result (λ copy. copy ≡ self.now) }
    {
        let list = copy_locations(alloc, &self.list)?;
        Ok(Locations { list })
    }
}

/// A copy of each block.
fn copy_blocks(alloc: Global, blocks: &[IpPrefix]) -> Result<Vec<IpPrefix>, OutOfMemory>
    ensures { IfOk result (λ list. list.items ≡ blocks.now) }
{
    let mut list = Vec::new(alloc);
    for block in blocks {
        list.push(*block)?;
    }
    Ok(list)
}

/// A copy of each location.
fn copy_locations(
    alloc: Global,
    locations: &[CidrLocation],
) -> Result<Vec<CidrLocation>, OutOfMemory>
    ensures { IfOk result (λ list. list.items ≡ locations.now) }
{
    let mut list = Vec::new(alloc);
    for location in locations {
        list.push(location.copy(alloc)?)?;
    }
    Ok(list)
}
