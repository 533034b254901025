//! What every set is.

ghost use Rattle.std.specs.Prelude.{◌≡◌, length};
ghost use Rattle.std.specs.List.{AllByRecursion};
ghost use Rattle.set_fields.specs.Values.{IsInLayout};
ghost use Rattle.set_reading.specs.Sets.{IsBody, IsPlace, IsRouting, IsSet};

use set_fields::{Body, Place, RData, RecordSet, Routing};

/// What every set is, for the premises of laws; it does nothing.
pub fn well_formed(set: &RecordSet)
    ensures { IsSet set.now }
{
    set.name.well_formed();
    routing_parts(&set.routing);
    body_parts(&set.body);
}

/// The parts of a policy.
fn routing_parts(routing: &Routing)
    ensures { IsRouting routing.now }
{
    match routing {
        Routing::Simple => {}
        Routing::Weighted(ident, _) | Routing::Failover(ident, _) | Routing::Multivalue(ident) => {
            ident.bytes();
        }
        Routing::Geolocation(ident, place) => {
            ident.bytes();
            place_parts(place);
        }
        Routing::Latency(ident, region) => {
            ident.bytes();
            region.bytes();
        }
        Routing::Cidr(ident, _, location) => {
            ident.bytes();
            location.bytes();
        }
    }
}

/// The parts of a place.
fn place_parts(place: &Place)
    ensures { IsPlace place.now }
{
    match place {
        Place::Continent(_) | Place::Anywhere => {}
        Place::Country(letters) => two_letters(letters),
        Place::Subdivision(letters, part) => {
            two_letters(letters);
            part.bytes();
        }
    }
}

/// The letters of a country.
fn two_letters(letters: &[u8; 2])
    ensures { length letters.now ≡ 2 }
{
    let _ = letters;
}

/// The parts of what a set answers.
fn body_parts(body: &Body)
    ensures { IsBody body.now }
{
    match body {
        Body::Values { values, .. } => values_in_layout(values.as_slice()),
        Body::Alias { target, .. } => target.well_formed(),
    }
}

/// The layouts of values.
fn values_in_layout(values: &[RData])
    ensures { AllByRecursion IsInLayout values.now }
{
    for value in values {
        value.wire();
    }
}
