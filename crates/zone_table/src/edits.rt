//! Changes of the zones, as they are asked for and as they are once their memory is taken.

ghost use Rattle.std.specs.Prelude.{◌≡◌, length, IfOk};
ghost use Rattle.zone_table.specs.Needs.{IsPrepared};

use crate::needs::Need;
use cidr_routing::Collections;
use octets::{OutOfMemory, zeros};
use std::alloc::Global;
use std::marker::Model;
use zone_list::{Hints, Name, RecordSet, SetKey, SetRef};

/// Record sets, in any order.
pub struct Sets {
    list: Vec<RecordSet>,
}

/// Written out, so that what drops sets takes one step, and not one for each of their parts.
impl Drop for Sets {
    fn drop(self) {
        let Sets { list: _ } = self;
    }
}

impl Model for Sets {
    ghost use Rattle.std.specs.Prelude.{List};
    ghost use Rattle.zone_list.specs.RecordSetRecord.{RecordSet};

    ghost Value = { List RecordSet };

    ghost view = { λ sets. sets.list.items };
}

impl Sets {
    /// These sets.
    pub fn from_vec(list: Vec<RecordSet>) -> Sets
        ensures { result ≡ list.items }
    {
        Sets { list }
    }

    /// The sets as a slice.
    pub fn as_slice(&self) -> &[RecordSet]
        ensures { result.now ≡ self.now }
    {
        &self.list
    }

    /// The sets themselves.
    pub fn into_vec(self) -> Vec<RecordSet>
        ensures { result.items ≡ self }
    {
        let Sets { list } = self;
        list
    }

    /// How many they are.
    pub fn len(&self) -> usize
        ensures { result ≡ length self.now }
    {
        self.list.len()
    }
}

/// Keys of record sets, in any order.
#[derive(Drop)]
pub struct SetKeys {
    list: Vec<SetKey>,
}

impl Model for SetKeys {
    ghost use Rattle.std.specs.Prelude.{List};
    ghost use Rattle.zone_list.specs.SetKeyRecord.{SetKey};

    ghost Value = { List SetKey };

    ghost view = { λ keys. keys.list.items };
}

impl SetKeys {
    /// These keys.
    pub fn from_vec(list: Vec<SetKey>) -> SetKeys
        ensures { result ≡ list.items }
    {
        SetKeys { list }
    }

    /// The keys as a slice.
    pub fn as_slice(&self) -> &[SetKey]
        ensures { result.now ≡ self.now }
    {
        &self.list
    }

    /// How many they are.
    pub fn len(&self) -> usize
        ensures { result ≡ length self.now }
    {
        self.list.len()
    }
}

/// A change of the zones.
#[derive(Drop)]
pub enum ZoneEdit {
    /// A zone comes, with these sets.
    Begin {
        zone: u32,
        name: Name,
        sets: Sets,
    },
    /// The zone of this number goes, with all its sets.
    End(u32),
    /// These sets come into a zone, each in place of the one with its key, and the sets of these
    /// keys go, but of those for which one came.
    Change {
        zone: u32,
        remove: SetKeys,
        add: Sets,
    },
    /// These collections of address blocks take the place of those that are there.
    Collections(Collections),
}

/// An edit that is ready: all its memory is taken.
#[derive(Drop)]
pub struct Ready {
    pub(crate) made: ZoneEdit,
    pub(crate) edits: u64,
    pub(crate) removed: Vec<SetRef>,
    pub(crate) added: Vec<SetRef>,
    /// Places for the sets of a zone that begins.
    pub(crate) places: Vec<u32>,
    /// Hints for a zone that begins.
    pub(crate) hints: Hints,
    /// Where the octets of a set are written.
    pub(crate) buffer: Vec<u8>,
}

impl Model for Ready {
    ghost use Rattle.std.specs.Prelude.{◌≡◌, [], length, vec_capacity};
    ghost use Rattle.zone_table.specs.Edits.{Prepared};

    ghost Value = { Prepared };

    ghost view = { λ ready. record {
      made = ready.made;
      edits = ready.edits;
      removable = vec_capacity ready.removed;
      addable = vec_capacity ready.added;
      places = vec_capacity ready.places;
      buffer = length ready.buffer.items;
    } };

    ghost invariant = { λ ready. (ready.removed.items ≡ []) × (ready.added.items ≡ [])
        × (ready.places.items ≡ []) };
}

impl Ready {
    /// An edit with the memory that it needs, and the number of the edits before it.
    pub(crate) fn new(
        alloc: Global,
        made: ZoneEdit,
        edits: u64,
        need: Need,
    ) -> Result<Ready, OutOfMemory>
        ensures { IfOk result (λ ready. IsPrepared made edits need ready) }
    {
        let removed = Vec::with_capacity(alloc, need.removable)?;
        let added = Vec::with_capacity(alloc, need.addable)?;
        let places = Vec::with_capacity(alloc, need.places)?;
        let buffer = zeros(alloc, need.buffer)?;
        let mut hints = Hints::new(alloc);
        hints.grow(need.places);
        Ok(Ready {
            made,
            edits,
            removed,
            added,
            places,
            hints,
            buffer,
        })
    }
}
