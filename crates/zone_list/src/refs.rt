//! References: a zone and a slot, good as long as the set stays.

ghost use Rattle.std.specs.Prelude.{◌≡◌, length};

use std::marker::Model;

/// Names a set of a zone, as long as the set stays.
#[derive(Clone, Copy, Debug, PartialEq, Eq)]
pub struct SetRef {
    /// The number of the zone.
    pub zone: u32,
    /// The slot of the set in the store of all zones; no set of another zone has it.
    pub slot: u32,
}

/// References of sets.
#[derive(Drop)]
pub struct SetRefs {
    list: Vec<SetRef>,
}

impl Model for SetRefs {
    ghost use Rattle.std.specs.Prelude.{List};
    ghost use Rattle.zone_list.specs.declared.refs.SetRef.{SetRef};

    ghost Value = { List SetRef };

    ghost view = { λ refs. refs.list.items };
}

impl SetRefs {
    /// These references.
    pub fn from_vec(list: Vec<SetRef>) -> SetRefs
        ensures { result ≡ list.items }
    {
        SetRefs { list }
    }

    /// The references as a slice.
    pub fn as_slice(&self) -> &[SetRef]
        ensures { result.now ≡ self.now }
    {
        &self.list
    }

    /// How many they are.
    pub fn len(&self) -> usize
        ensures { result ≡ length self.now }
    {
        self.list.len()
    }
}
