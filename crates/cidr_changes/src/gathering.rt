//! Blocks that are gathered by the names of their locations.

ghost use Rattle.std.specs.Prelude.{◌≡◌, ◌++◌, ◌∷◌, [], IfOk, OnOk};
ghost use Rattle.cidr_changes.specs.Gathered.{IsSpot, grown, locations_of, of_block, with_row};

use cidr_blocks::{Block, Blocks, CidrLocation, Ident, IpPrefix, name_order};
use octets::OutOfMemory;
use std::alloc::Global;
use std::cmp::Ordering;
use std::collections::BTreeMap;

/// Where a location stands, or before which place it would.
#[derive(Clone, Copy)]
pub(crate) enum Spot {
    At(usize),
    Before(usize),
}

/// The locations of these blocks, by name.
pub(crate) fn locations_of(
    alloc: Global,
    rows: &BTreeMap<Block, Ident>,
) -> Result<Vec<CidrLocation>, OutOfMemory>
    ensures { IfOk result (λ list. list.items ≡ locations_of rows.now.entries) }
{
    let mut list = Vec::new(alloc);
    for (block, name) in rows {
        add_row(alloc, &mut list, *name, block.prefix)?;
    }
    Ok(list)
}

/// Adds a block behind the others of its location.
fn add_row(
    alloc: Global,
    list: &mut Vec<CidrLocation>,
    name: Ident,
    block: IpPrefix,
) -> Result<(), OutOfMemory>
    ensures { OnOk result (list.new.items ≡ with_row name block list.old.items) }
{
    match spot_of(list, &name) {
        Spot::At(i) => push_block(&mut list[i], block),
        Spot::Before(i) => {
            let location = of_block(alloc, name, block)?;
            match list.insert(i, location) {
                Ok(()) => Ok(()),
                Err(_) => Err(OutOfMemory),
            }
        }
    }
}

/// A location of one block.
fn of_block(alloc: Global, name: Ident, block: IpPrefix) -> Result<CidrLocation, OutOfMemory>
    ensures { IfOk result (λ location. location ≡ of_block name block) }
{
    let mut list = Vec::new(alloc);
    list.push(block)?;
    Ok(CidrLocation {
        name,
        blocks: Blocks::from_vec(list),
    })
}

/// Adds a block behind those of a location.
fn push_block(location: &mut CidrLocation, block: IpPrefix) -> Result<(), OutOfMemory>
    ensures { OnOk result (location.new ≡ grown location.old block) }
{
    location.blocks.push(block)
}

/// Where the location of this name stands.
fn spot_of(locations: &[CidrLocation], name: &Ident) -> Spot
    ensures { IsSpot locations.now name.now result }
{
    for i in 0..locations.len() {
        match name_order(name, &locations[i].name) {
            Ordering::Less => return Spot::Before(i),
            Ordering::Equal => return Spot::At(i),
            Ordering::Greater => {}
        }
    }
    Spot::Before(locations.len())
}
