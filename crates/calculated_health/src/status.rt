//! A status from a count: enough of the fifty checkers, or enough of the children.

ghost use Rattle.std.specs.Prelude.{◌≡◌};
ghost use Rattle.calculated_health.specs.Status.{endpoint_status, calculated_status};

/// How many checkers look at an endpoint.
const CHECKERS: u32 = 50;

/// The per cent of the checkers that must be passed for an endpoint to be healthy.
const PER_CENT: u32 = 18;

/// Whether an endpoint is healthy of whose fifty checkers `passing` see a pass.
pub fn endpoint_status(passing: u8, inverted: bool) -> bool
    ensures { result ≡ endpoint_status passing inverted }
{
    let enough = 100 * u32::from(passing) > PER_CENT * CHECKERS;
    enough != inverted
}

/// Whether a calculated check is healthy of whose children `healthy` are.
pub fn calculated_status(healthy: u16, threshold: u16, inverted: bool) -> bool
    ensures { result ≡ calculated_status healthy threshold inverted }
{
    (healthy >= threshold) != inverted
}
