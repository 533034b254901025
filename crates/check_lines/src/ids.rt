//! The numbers of checks.

ghost use Rattle.std.specs.Prelude.{◌≡◌};

use std::marker::Model;

/// The numbers of checks, as a list.
#[derive(Drop)]
pub struct Ids {
    list: Vec<u32>,
}

impl Model for Ids {
    ghost use Rattle.std.specs.Prelude.{List, ℕ};

    ghost Value = { List ℕ };

    ghost view = { λ v. v.list.items };
}

impl Ids {
    /// These numbers.
    pub fn from_vec(list: Vec<u32>) -> Ids
        ensures { result ≡ list.items }
    {
        Ids { list }
    }

    /// The numbers as a slice.
    pub fn as_slice(&self) -> &[u32]
        ensures { result.now ≡ self.now }
    {
        &self.list
    }

    /// The numbers as they were given. It takes no memory.
    pub fn into_vec(self) -> Vec<u32>
        ensures { result.items ≡ self }
    {
        self.list
    }
}
