//! Health checks, and the commands that make, change and delete them.

ghost use Rattle.std.specs.Prelude.{◌≡◌};

use std::marker::Model;

/// The children of a calculated check, by their numbers.
#[derive(Drop)]
pub struct Children {
    list: Vec<u32>,
}

impl Model for Children {
    ghost use Rattle.std.specs.Prelude.{List, ℕ};

    ghost Value = { List ℕ };

    ghost view = { λ c. c.list.items };
}

impl Children {
    /// These numbers.
    pub fn from_vec(list: Vec<u32>) -> Children
        ensures { result ≡ list.items }
    {
        Children { list }
    }

    /// The numbers as a slice.
    pub fn as_slice(&self) -> &[u32]
        ensures { result.now ≡ self.now }
    {
        &self.list
    }
}

/// A health check.
#[derive(Drop)]
pub enum Check {
    /// Of an endpoint, by what checkers see. Its threshold is the number of equal results in a row
    /// that turn a checker's view, 1 to 10 (Route 53: FailureThreshold).
    Endpoint {
        threshold: u8,
        inverted: bool,
        disabled: bool,
    },
    /// Of other checks, its children. Its threshold is how many of them have to be healthy, 0 to
    /// 256 (Route 53: HealthThreshold).
    Calculated {
        threshold: u16,
        inverted: bool,
        disabled: bool,
        children: Children,
    },
}

/// A command on health checks.
#[derive(Drop)]
pub enum CheckCommand {
    /// A new check.
    Create(Check),
    /// Changes what is given of a check, and leaves the rest. Threshold and children are those of a
    /// calculated check.
    Update {
        id: u32,
        inverted: Option<bool>,
        disabled: Option<bool>,
        threshold: Option<u16>,
        children: Option<Children>,
    },
    /// The end of a check.
    Delete(u32),
}
