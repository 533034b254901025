//! The types of health checks, and the lists of their children.

ghost use Rattle.std.specs.Prelude.{◌≡◌, ◌<◌, length};
ghost use Rattle.serde_json.specs.View.{view, items_view};
ghost use Rattle.line_reading.specs.Reading.{Gives, each};
ghost use Rattle.line_reading.specs.Kinds.{check_id};
ghost use Rattle.check_lines.specs.Checks.{check_type, kind_of, children, is_endpoint_type};
ghost use Rattle.check_lines.specs.Checks.{is_unsupported_type};

use crate::ids::Ids;
use line_reading::{LineFault, LineReason, Member, check_id, each, list};
use serde_json::Value;
use std::alloc::Global;

/// What a check looks at.
#[derive(Clone, Copy, Debug, PartialEq, Eq)]
pub(crate) enum Kind {
    /// An endpoint.
    Endpoint,
    /// Other checks.
    Calculated,
}

/// The type of a check.
#[tactic(auto, unfolding(crate::specs::Checks::check_type))]
pub(crate) fn check_type(member: Member, value: &Value) -> Result<Kind, LineFault>
    ensures { result ≡ check_type member (view value.now) }
{
    match value.as_str() {
        Some(text) => kind_of(member, text),
        None => Err(LineFault::bad(LineReason::WrongKind, member)),
    }
}

/// The type of a check by its name.
fn kind_of(member: Member, text: &str) -> Result<Kind, LineFault>
    ensures { result ≡ kind_of member text.now }
{
    if is_endpoint_type(text) {
        return Ok(Kind::Endpoint);
    }
    if text == "CALCULATED" {
        return Ok(Kind::Calculated);
    }
    if is_unsupported_type(text) {
        return Err(LineFault::unsupported(member));
    }
    Err(LineFault::bad(LineReason::OutOfRange, member))
}

/// Whether checks of this type are of endpoints.
fn is_endpoint_type(text: &str) -> bool
    ensures { result ≡ is_endpoint_type text.now }
{
    text == "HTTP"
        || text == "HTTPS"
        || text == "HTTP_STR_MATCH"
        || text == "HTTPS_STR_MATCH"
        || text == "TCP"
}

/// Whether checks of this type are not offered.
fn is_unsupported_type(text: &str) -> bool
    ensures { result ≡ is_unsupported_type text.now }
{
    text == "CLOUDWATCH_METRIC" || text == "RECOVERY_CONTROL"
}

/// A list of checks.
#[tactic(auto, unfolding(crate::specs::Checks::children))]
pub(crate) fn children(alloc: Global, member: Member, value: &Value) -> Result<Ids, LineFault>
    ensures { Gives result (children member (view value.now)) }
{
    let items = list(0, 255, member, value)?;
    ids_of(alloc, member, items)
}

/// The ids of a list.
fn ids_of(alloc: Global, member: Member, items: &[Value]) -> Result<Ids, LineFault>
    requires { length items.now < 65536 }
    ensures { Gives result (each (λ _. check_id member) 0 (items_view items.now)) }
{
    match each(alloc, items, |_, item| check_id(member, item)) {
        Ok(ids) => Ok(Ids::from_vec(ids)),
        Err(fault) => Err(fault),
    }
}
