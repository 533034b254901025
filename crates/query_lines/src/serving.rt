//! The lines that bind ports, serve and compact.

ghost use Rattle.std.specs.Prelude.{◌≡◌};
ghost use Rattle.serde_json.specs.View.{view};
ghost use Rattle.query_lines.specs.Queries.{bind, serve, compact};

use line_reading::{LineFault, Member, number_u16, number_u32, object, required};
use serde_json::Value;

/// The ports that are asked for; 0 leaves the choice to the system.
#[derive(Clone, Copy, Debug, PartialEq, Eq)]
pub struct Ports {
    /// Where queries come in.
    pub queries: u16,
    /// Where reports come in.
    pub reports: u16,
}

/// The line Bind.
#[tactic(auto, unfolding(crate::specs::Queries::bind))]
pub fn bind(value: &Value) -> Result<Ports, LineFault>
    ensures { result ≡ bind (view value.now) }
{
    object(
        value,
        Member::Bind,
        &[],
        &[Member::QueryPort, Member::ReportPort],
    )?;
    let queries = number_u16(
        0,
        65_535,
        Member::QueryPort,
        required(value, Member::QueryPort)?,
    )?;
    let reports = number_u16(
        0,
        65_535,
        Member::ReportPort,
        required(value, Member::ReportPort)?,
    )?;
    Ok(Ports { queries, reports })
}

/// The line Serve: how many turns, 1 to 1,000,000.
#[tactic(auto, unfolding(crate::specs::Queries::serve))]
pub fn serve(value: &Value) -> Result<u32, LineFault>
    ensures { result ≡ serve (view value.now) }
{
    object(value, Member::Serve, &[], &[Member::Turns])?;
    number_u32(1, 1_000_000, Member::Turns, required(value, Member::Turns)?)
}

/// The line Compact: how many pieces, 1 to 1,000,000.
#[tactic(auto, unfolding(crate::specs::Queries::compact))]
pub fn compact(value: &Value) -> Result<u32, LineFault>
    ensures { result ≡ compact (view value.now) }
{
    object(value, Member::Compact, &[], &[Member::Pieces])?;
    number_u32(
        1,
        1_000_000,
        Member::Pieces,
        required(value, Member::Pieces)?,
    )
}
