//! What control lines ask for.

use check_lines::Observation;
use command_octets::Command;
use query_lines::{Ports, QueryLine};
use zone_lines::ListOfSets;

/// What a control line asks for.
#[derive(Drop)]
pub enum Line {
    /// A command, which changes the configuration.
    Control(Command),
    /// A list of the sets of a zone.
    List(ListOfSets),
    /// The status of the health check of this number.
    Status(u32),
    /// What a checker saw of an endpoint.
    Observe(Observation),
    /// The reply to a packet.
    Query(QueryLine),
    /// Sockets at these ports.
    Bind(Ports),
    /// So many turns of datagrams.
    Serve(u32),
    /// So many pieces of a compaction.
    Compact(u32),
}
