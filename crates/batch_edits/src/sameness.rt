//! Whether two sets are one: all fields are, and the values in their order.

ghost use Rattle.std.specs.Prelude.{◌≡◌, IsTrue, ◌↔◌};

use rdata::{RData, RType};
use record_set::{Body, RecordSet};

/// Whether two sets are one.
pub fn is_equal(set: &RecordSet, other: &RecordSet) -> bool
    ensures { IsTrue result ↔ (set.now ≡ other.now) }
{
    set.name.is_same(&other.name)
        && is_equal_type(set.rtype, other.rtype)
        && set.routing.is_same(&other.routing)
        && is_equal_body(&set.body, &other.body)
        && is_equal_check(set.check, other.check)
}

/// Whether two types are one.
fn is_equal_type(rtype: RType, other: RType) -> bool
    ensures { IsTrue result ↔ (rtype ≡ other) }
{
    rtype == other
}

/// Whether two sets name one check, or none.
fn is_equal_check(check: Option<u32>, other: Option<u32>) -> bool
    ensures { IsTrue result ↔ (check ≡ other) }
{
    check == other
}

/// Whether two sets answer the same, in the same order.
fn is_equal_body(body: &Body, other: &Body) -> bool
    ensures { IsTrue result ↔ (body.now ≡ other.now) }
{
    match (body, other) {
        (
            Body::Values { ttl, values },
            Body::Values {
                ttl: other_ttl,
                values: others,
            },
        ) => ttl == other_ttl && are_equal(values.as_slice(), others.as_slice()),
        (
            Body::Alias { target, evaluate },
            Body::Alias {
                target: other_target,
                evaluate: other_evaluate,
            },
        ) => target.is_same(other_target) && evaluate == other_evaluate,
        _ => false,
    }
}

/// Whether two lists have the same values, in the same order.
fn are_equal(values: &[RData], others: &[RData]) -> bool
    ensures { IsTrue result ↔ (values.now ≡ others.now) }
{
    if values.len() != others.len() {
        return false;
    }
    for i in 0..values.len() {
        if !values[i].is_same(&others[i]) {
            return false;
        }
    }
    true
}
