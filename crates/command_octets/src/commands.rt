//! Commands: what a client asks to be changed.

use batch_model::Batch;
use block_octets::CidrCommand;
use check_octets::{CheckCommand, Name};

/// What a client asks to be changed.
#[derive(Drop)]
pub enum Command {
    /// Creates a hosted zone of this name.
    CreateZone {
        name: Name,
        /// The name servers of its delegation set.
        servers: [Name; 4],
    },
    /// Deletes the hosted zone of this number.
    DeleteZone(u32),
    /// Changes the sets of a zone.
    Change(Batch),
    /// Makes, changes or deletes a health check.
    Health(CheckCommand),
    /// Makes, changes or deletes a collection of CIDR blocks.
    Cidr(CidrCommand),
}
