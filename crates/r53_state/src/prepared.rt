//! A command that is ready to be installed.

ghost use Rattle.std.specs.Prelude.{◌≡◌};

use std::marker::Model;
use zone_commands::{Command, Delta, Ready};

/// A command that is accepted, and all the memory that it needs. Contracts see beside the command
/// the edit of the zones that is ready, which one on health checks doesn't have.
#[derive(Drop)]
pub struct Prepared {
    pub(crate) command: Command,
    pub(crate) ready: Option<Ready>,
    /// What is told of sets where none went or came.
    pub(crate) nothing: Delta,
}

impl Model for Prepared {
    ghost use Rattle.std.specs.Prelude.{◌≡◌};
    ghost use Rattle.r53_state.specs.States.{Prepared as Seen, nothing_told};

    ghost Value = { Seen };

    ghost view = { λ p. record { command = p.command; edit = p.ready } };

    ghost invariant = { λ p. p.nothing ≡ nothing_told };
}

impl Prepared {
    /// The command that was prepared.
    pub fn command(&self) -> &Command
        ensures { result.now ≡ self.now.command }
    {
        &self.command
    }
}
