//! When two sets are equal.

ghost use Rattle.std.specs.Prelude.{◌≡◌, ℕ, ◌≤◌, length, slice_get, Some, IsTrue, ◌↔◌};
ghost use Rattle.rdata.specs.Datum.{Datum};
ghost use Rattle.record_set.specs.Sameness.{once, times, SameValues, SameBody, Same};

use crate::sets::{Body, RecordSet};
use rdata::{RData, RType};

/// Whether two sets are equal: all their fields are, the values in any order.
pub fn same(x: &RecordSet, y: &RecordSet) -> bool
    ensures { IsTrue result ↔ Same x.now y.now }
{
    x.name.is_same(&y.name)
        && same_rtype(x.rtype, y.rtype)
        && x.routing.is_same(&y.routing)
        && same_body(&x.body, &y.body)
        && same_check(x.check, y.check)
}

/// Whether two types are one.
fn same_rtype(x: RType, y: RType) -> bool
    ensures { IsTrue result ↔ (x ≡ y) }
{
    x == y
}

/// Whether two sets name one check, or none.
fn same_check(x: Option<u32>, y: Option<u32>) -> bool
    ensures { IsTrue result ↔ (x ≡ y) }
{
    x == y
}

/// Whether two sets answer the same.
fn same_body(x: &Body, y: &Body) -> bool
    ensures { IsTrue result ↔ SameBody x.now y.now }
{
    match (x, y) {
        (
            Body::Values { ttl, values },
            Body::Values {
                ttl: other_ttl,
                values: others,
            },
        ) => ttl == other_ttl && same_values(values.as_slice(), others.as_slice()),
        (
            Body::Alias { target, evaluate },
            Body::Alias {
                target: other_target,
                evaluate: other_evaluate,
            },
        ) => target.is_same(other_target) && evaluate == other_evaluate,
        _ => false,
    }
}

/// Whether each value stands as often in the one list as in the other.
fn same_values(values: &[RData], others: &[RData]) -> bool
    ensures { IsTrue result ↔ SameValues values.now others.now }
{
    if !are_as_often(values, others) {
        return false;
    }
    are_as_often(others, values)
}

/// Whether each of the first values stands as often in the second.
fn are_as_often(values: &[RData], others: &[RData]) -> bool
    ensures { IsTrue result ↔ ((i : ℕ) (datum : Datum) → slice_get values.now i ≡ Some datum
        → times datum values.now ≡ times datum others.now) }
{
    for value in values {
        if times(value, values) != times(value, others) {
            return false;
        }
    }
    true
}

/// How often a value stands in a list.
fn times(value: &RData, values: &[RData]) -> usize
    ensures { result ≡ times value.now values.now }
{
    let mut count = 0;
    for other in values {
        count += once(value, other);
    }
    count
}

/// 1 where the two are one value, else 0.
fn once(value: &RData, other: &RData) -> usize
    ensures exact { result ≡ once value.now other.now }
    ensures most { result ≤ 1 }
{
    usize::from(value.is_same(other))
}
