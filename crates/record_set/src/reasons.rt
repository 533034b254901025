//! The rules that one set meets by itself, and the first one that it breaks.

ghost use Rattle.std.specs.Prelude.{◌≡◌, ◌<◌, [], ◌∷◌, ℕ, List, length, IsTrue, ◌↔◌};
ghost use Rattle.rdata.specs.Wildcard.{wildcard};
ghost use Rattle.routing.specs.declared.policies.Routing.TheVariants as policy;
ghost use Rattle.record_set.specs.Reasons.{HasRepeated, WithValues, IsAlias, IsMultivalue};
ghost use Rattle.record_set.specs.Reasons.{HasOneValue, IsOfZone, RoutesZone, AnswersSeveral};
ghost use Rattle.record_set.specs.Reasons.{IsFirst};

use crate::sets::{Body, RecordSet};
use rdata::{Name, RData, RType};
use routing::Routing;

/// The most values of a set.
const MOST_VALUES: usize = 400;

/// Why a set is refused by itself. Of several reasons the first in this order is told.
#[derive(Clone, Copy, Debug, PartialEq, Eq)]
pub enum Reason {
    /// It has no values, and is no alias.
    NoValues,
    /// It has more than 400 values.
    TooManyValuesInSet,
    /// Two of its values are equal.
    RepeatedValue,
    /// It has two values or more, of type CNAME or SOA.
    OneValueOnly,
    /// It is of type SOA, and not at the zone's apex.
    SoaNotAtApex,
    /// It is of type NS or SOA and an alias or not simple; or multivalue, and of type CNAME, NS or
    /// SOA or an alias.
    PolicyNotAllowed,
    /// It is of type NS, and its first label is `*`.
    WildcardNs,
}

/// Why a set of the zone with this apex is refused, the first reason.
pub fn check_set(set: &RecordSet, apex: &Name) -> Option<Reason>
    ensures { IsFirst result set.now apex.now }
{
    if has_no_values(&set.body) {
        return Some(Reason::NoValues);
    }
    if has_more_values(&set.body, MOST_VALUES) {
        return Some(Reason::TooManyValuesInSet);
    }
    if has_repeated_value(&set.body) {
        return Some(Reason::RepeatedValue);
    }
    if has_one_value(set.rtype) && has_more_values(&set.body, 1) {
        return Some(Reason::OneValueOnly);
    }
    if set.rtype == RType::Soa && !set.name.is_same(apex) {
        return Some(Reason::SoaNotAtApex);
    }
    if routes_zone(set) || answers_several(set) {
        return Some(Reason::PolicyNotAllowed);
    }
    if set.rtype == RType::Ns && is_wildcard(&set.name) {
        return Some(Reason::WildcardNs);
    }
    None
}

/// Whether it has values, and none of them.
fn has_no_values(body: &Body) -> bool
    ensures { IsTrue result ↔ WithValues (λ values. values ≡ []) body.now }
{
    match body {
        Body::Values { values, .. } => values.as_slice().is_empty(),
        Body::Alias { .. } => false,
    }
}

/// Whether it has more values than so many.
fn has_more_values(body: &Body, most: usize) -> bool
    ensures { IsTrue result ↔ WithValues (λ values. most < length values) body.now }
{
    match body {
        Body::Values { values, .. } => values.len() > most,
        Body::Alias { .. } => false,
    }
}

/// Whether two of its values are equal.
fn has_repeated_value(body: &Body) -> bool
    ensures { IsTrue result ↔ WithValues HasRepeated body.now }
{
    match body {
        Body::Values { values, .. } => has_repeated(values.as_slice()),
        Body::Alias { .. } => false,
    }
}

/// Whether two of the values are equal.
fn has_repeated(values: &[RData]) -> bool
    ensures { IsTrue result ↔ HasRepeated values.now }
{
    for (i, value) in values.iter().enumerate() {
        for other in &values[..i] {
            if other.is_same(value) {
                return true;
            }
        }
    }
    false
}

/// Whether a set of the type has one value at most.
fn has_one_value(rtype: RType) -> bool
    ensures { IsTrue result ↔ HasOneValue rtype }
{
    rtype == RType::Cname || rtype == RType::Soa
}

/// Whether the type says how a zone is served.
fn is_of_zone(rtype: RType) -> bool
    ensures { IsTrue result ↔ IsOfZone rtype }
{
    rtype == RType::Ns || rtype == RType::Soa
}

/// Whether it is an alias.
fn is_alias(body: &Body) -> bool
    ensures { IsTrue result ↔ IsAlias body.now }
{
    matches!(body, Body::Alias { .. })
}

/// Whether it has no policy.
fn is_simple(routing: &Routing) -> bool
    ensures { IsTrue result ↔ (routing.now ≡ policy.Simple) }
{
    matches!(routing, Routing::Simple)
}

/// Whether it is one of several answers.
fn is_multivalue(routing: &Routing) -> bool
    ensures { IsTrue result ↔ IsMultivalue routing.now }
{
    matches!(routing, Routing::Multivalue(_))
}

/// Whether it gives a policy or an alias to what says how a zone is served.
fn routes_zone(set: &RecordSet) -> bool
    ensures { IsTrue result ↔ RoutesZone set.now }
{
    is_of_zone(set.rtype) && (!is_simple(&set.routing) || is_alias(&set.body))
}

/// Whether it gives several answers where one is wanted, or an alias among several.
fn answers_several(set: &RecordSet) -> bool
    ensures { IsTrue result ↔ AnswersSeveral set.now }
{
    is_multivalue(&set.routing)
        && (set.rtype == RType::Cname || is_of_zone(set.rtype) || is_alias(&set.body))
}

/// Whether its first label is the wildcard's.
fn is_wildcard(name: &Name) -> bool
    ensures { IsTrue result ↔ ((rest : List (List ℕ)) × (name.now ≡ wildcard ∷ rest)) }
{
    name.well_formed();
    let Some(parent) = name.parent() else {
        return false;
    };
    let Some(below) = parent.wildcard() else {
        return false;
    };
    below.is_same(name)
}
