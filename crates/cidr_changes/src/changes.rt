//! Changes of a collection: blocks that are put under a location, or taken from it.

ghost use Rattle.std.specs.Prelude.{◌≡◌};

use cidr_blocks::{Blocks, Ident};
use std::marker::Model;

/// A change of the blocks of one location.
#[derive(Drop)]
pub struct CidrChange {
    /// Whether the blocks are put there; else they are taken away.
    pub put: bool,
    pub location: Ident,
    pub blocks: Blocks,
}

/// A list of changes.
#[derive(Drop)]
pub struct Changes {
    list: Vec<CidrChange>,
}

impl Model for Changes {
    ghost use Rattle.std.specs.Prelude.{List};
    ghost use Rattle.cidr_changes.specs.declared.changes.CidrChange.{CidrChange};

    ghost Value = { List CidrChange };

    ghost view = { λ c. c.list.items };
}

impl Changes {
    /// These changes.
    pub fn from_vec(list: Vec<CidrChange>) -> Changes
        ensures { result ≡ list.items }
    {
        Changes { list }
    }

    /// The changes as a slice.
    pub fn as_slice(&self) -> &[CidrChange]
        ensures { result.now ≡ self.now }
    {
        &self.list
    }
}
