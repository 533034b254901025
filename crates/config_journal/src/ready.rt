//! A command that is ready to be committed.

use gate_journal::Entry;
use r53_state::Prepared;
use std::marker::Model;

/// A command that is accepted, with the entry that keeps it, and all the memory that it needs.
#[derive(Drop)]
pub struct ReadyCommand {
    pub(crate) prepared: Prepared,
    pub(crate) entry: Entry,
}

impl Model for ReadyCommand {
    ghost use Rattle.config_journal.specs.States.{Ready};

    ghost Value = { Ready };

    ghost view = { λ r. record { prepared = r.prepared; entry = r.entry } };
}
