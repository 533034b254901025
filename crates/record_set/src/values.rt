//! The values of a set.

ghost use Rattle.std.specs.Prelude.{◌≡◌, length, IfOk};

use rdata::{OutOfMemory, RData};
use std::alloc::Global;
use std::marker::Model;

/// The values of a set, in the order in which they are answered.
#[derive(Drop)]
pub struct Values {
    list: Vec<RData>,
}

impl Model for Values {
    ghost use Rattle.std.specs.Prelude.{List};
    ghost use Rattle.rdata.specs.Datum.{Datum};

    ghost Value = { List Datum };

    ghost view = { λ v. v.list.items };
}

impl Values {
    /// These values.
    pub fn from_vec(list: Vec<RData>) -> Values
        ensures { result ≡ list.items }
    {
        Values { list }
    }

    /// The values as they were given. It takes no memory.
    pub fn into_vec(self) -> Vec<RData>
        ensures { result.items ≡ self }
    {
        self.list
    }

    /// The values as a slice.
    pub fn as_slice(&self) -> &[RData]
        ensures { result.now ≡ self.now }
    {
        &self.list
    }

    /// How many they are.
    pub fn len(&self) -> usize
        ensures { result ≡ length self.now }
    {
        self.list.len()
    }

    /// A copy of them.
    pub fn copy(&self, alloc: Global) -> Result<Values, OutOfMemory>
        ensures { IfOk result (λ copy. copy ≡ self.now) }
    {
        let list = copy_values(alloc, &self.list)?;
        Ok(Values { list })
    }
}

/// A copy of each value.
fn copy_values(alloc: Global, values: &[RData]) -> Result<Vec<RData>, OutOfMemory>
    ensures { IfOk result (λ list. list.items ≡ values.now) }
{
    let mut list = Vec::with_capacity(alloc, values.len())?;
    for value in values {
        list.push(value.copy(alloc)?)?;
    }
    Ok(list)
}
