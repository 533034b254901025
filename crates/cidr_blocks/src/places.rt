//! Collections of blocks, each block under the name of its location.

ghost use Rattle.std.specs.Prelude.{◌≡◌, IfOk};

use crate::ident::Ident;
use crate::lists::{Blocks, Locations};
use octets::OutOfMemory;
use std::alloc::Global;

/// A location: what its address blocks are called together.
#[derive(Drop)]
pub struct CidrLocation {
    pub name: Ident,
    pub blocks: Blocks,
}

/// A collection: locations by name.
#[derive(Drop)]
pub struct Collection {
    pub name: Ident,
    pub locations: Locations,
}

impl CidrLocation {
    /// A copy of it.
    pub fn copy(&self, alloc: Global) -> Result<CidrLocation, OutOfMemory>
        ensures { IfOk result (λ copy. copy ≡ self.now) }
    {
        let blocks = self.blocks.copy(alloc)?;
        Ok(CidrLocation {
            name: self.name,
            blocks,
        })
    }
}

impl Collection {
    /// A copy of it.
    pub fn copy(&self, alloc: Global) -> Result<Collection, OutOfMemory>
        ensures { IfOk result (λ copy. copy ≡ self.now) }
    {
        let locations = self.locations.copy(alloc)?;
        Ok(Collection {
            name: self.name,
            locations,
        })
    }
}
