//! The names of octets that a region holds.

ghost use Rattle.std.specs.Prelude.{◌≡◌};

use std::marker::Model;

/// The name of octets that a region holds: a number below the region's count of cells.
#[derive(Clone, Copy, PartialEq, Eq, Debug)]
pub struct Handle {
    /// The first cell of the octets.
    pub(crate) first: u32,
}

impl Model for Handle {
    ghost use Rattle.std.specs.Prelude.{ℕ, refl};

    ghost Value = { ℕ };

    ghost view = { λ h. h.first };

    ghost invariant = { λ h. Unit };

    ghost inverse = { λ n. record { first = n } };

    ghost inverse_ok = { λ h i. refl };
}

impl Handle {
    /// The handle of a number, to be kept in a list of numbers.
    pub fn of(number: u32) -> Handle
        ensures { result ≡ number }
    {
        Handle { first: number }
    }

    /// The number of a handle.
    pub fn number(&self) -> u32
        ensures { result ≡ self.now }
    {
        self.first
    }
}
