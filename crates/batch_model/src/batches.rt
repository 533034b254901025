//! Batches: changes to one zone that are made together, in the order in which they are applied.

ghost use Rattle.std.specs.Prelude.{◌≡◌, length};

use std::marker::Model;
use zone_model::RecordSet;

/// What a change does.
#[derive(Clone, Copy, Debug, PartialEq, Eq)]
pub enum Action {
    /// Adds a set whose key isn't there.
    Create,
    /// Takes away a set that is there as it is given.
    Delete,
    /// Adds the set, or puts it in the place of the one with its key.
    Upsert,
}

/// A change to the sets of a zone.
#[derive(Drop)]
pub struct Change {
    pub action: Action,
    /// How many bytes the texts of its values have together, as they were given.
    pub characters: u32,
    pub set: RecordSet,
}

/// The changes of a batch, in the order in which they are applied.
#[derive(Drop)]
pub struct Changes {
    list: Vec<Change>,
}

impl Model for Changes {
    ghost use Rattle.std.specs.Prelude.{List};
    ghost use Rattle.batch_model.specs.declared.batches.Change.{Change};

    ghost Value = { List Change };

    ghost view = { λ c. c.list.items };
}

impl Changes {
    /// These changes.
    pub fn from_vec(list: Vec<Change>) -> Changes
        ensures { result ≡ list.items }
    {
        Changes { list }
    }

    /// The changes as they were given. It takes no memory.
    pub fn into_vec(self) -> Vec<Change>
        ensures { result.items ≡ self }
    {
        self.list
    }

    /// The changes as a slice.
    pub fn as_slice(&self) -> &[Change]
        ensures { result.now ≡ self.now }
    {
        &self.list
    }

    /// How many they are.
    pub fn len(&self) -> usize
        ensures { result ≡ length self.now }
    {
        self.list.len()
    }
}

/// Changes to one zone that are made all together or not at all (Route 53: change batch).
#[derive(Drop)]
pub struct Batch {
    /// The number of the zone.
    pub zone: u32,
    pub changes: Changes,
}
