//! The sets of a geolocation group that may apply to a client. The others, which are for another
//! country, don't decide.

ghost use Rattle.std.specs.Prelude.{◌≡◌, ◌∷◌, [], false, true, IfSome, IsTrue, None};
ghost use Rattle.std.specs.Option.{option_copied};
ghost use Rattle.geo_latency.specs.Nearest.{code_number, wanted};
ghost use Rattle.policy_select.specs.Nearby.{NearbyDecide, Settles};
ghost use Rattle.routing.specs.declared.policies.Place.TheVariants.{Country};

use answer_model::Location;
use routing::{Place, Sub};

/// The choice among the sets of a group is that among those that may apply to the client; it does
/// nothing.
pub(crate) fn nearby_decide()
    ensures { NearbyDecide }
{}

/// The number of the client's country, and one that no country has where none is told.
#[inline(always)]
pub(crate) fn country_of(client: Option<&Location>) -> u32
    ensures { result ≡ wanted (option_copied client.entry) }
{
    let Some(client) = client else {
        return 65_536;
    };
    match &client.country {
        Some(code) => number_of(code),
        None => 65_536,
    }
}

/// The number of a country's code.
#[inline(always)]
fn number_of(code: &[u8; 2]) -> u32
    ensures { result ≡ code_number code.now }
{
    code_number(code[0], code[1])
}

/// The number of a country whose code has these letters.
#[inline(always)]
pub(crate) fn code_number(first: u8, second: u8) -> u32
    ensures { result ≡ code_number (first ∷ second ∷ []) }
{
    u32::from(first) + u32::from(second) * 256
}

/// Whether a set for this place is chosen whatever sets stand behind it: it is healthy and for the
/// client's country, of which no subdivision is told.
#[inline(always)]
pub(crate) fn settles(is_healthy: bool, client: Option<&Location>, place: &Place) -> bool
    ensures healthy { IsTrue result → is_healthy ≡ true }
    ensures settles { IsTrue result → Settles (option_copied client.entry) place.now }
{
    if !is_healthy {
        return false;
    }
    let Some(client) = client else {
        return false;
    };
    let Place::Country(code) = place else {
        return false;
    };
    if has_subdivision(&client.subdivision) {
        return false;
    }
    match &client.country {
        Some(told) => told == code,
        None => false,
    }
}

/// The code of the client's country where it is told without a subdivision: a healthy set for that
/// country is chosen then, whatever sets stand behind it.
#[inline(always)]
pub(crate) fn settling_code(client: Option<&Location>) -> Option<[u8; 2]>
    ensures { IfSome result (λ code. Settles (option_copied client.entry) (Country code)) }
{
    let Some(client) = client else {
        return None;
    };
    if has_subdivision(&client.subdivision) {
        return None;
    }
    client.country
}

/// Whether a subdivision is told.
#[inline(always)]
fn has_subdivision(subdivision: &Option<Sub>) -> bool
    ensures { result ≡ false → subdivision.now ≡ None }
{
    match subdivision {
        Some(_) => true,
        None => false,
    }
}
