//! The options of an OPT record, walked for the client subnet among them (RFC 6891, 6.1.2; RFC 7871, 6).

ghost use Rattle.std.specs.Prelude.{◌≡◌, ◌≤◌, ◌<◌, ◌-◌, ℕ, List, ◌∷◌, [], ◌++◌, length, take, drop, IfSome, IfNone};
ghost use Rattle.dns_message.specs.Edns.{EdnsOption, first_body, option_at, option_size};
ghost use Rattle.dns_message.specs.Walk.{HasFirst, HasOptions, IsOptionAt};

use crate::walked::Walked;
use octets::{behind, number_at};

/// The code of the client subnet (RFC 7871, 6).
const CLIENT_SUBNET: u16 = 8;

/// The octets of an option in front of its data.
const HEAD_LEN: usize = 4;

/// The first option of that code, or that the data aren't options.
pub(crate) fn subnet_among(body: &[u8]) -> Walked
    ensures { HasOptions body.now result }
{
    let mut at = 0;
    let mut found = Walked::Plain;
    while at < body.len() {
        let rest = behind(body, at);
        let Some(size) = option_len(rest) else {
            return Walked::Broken;
        };
        found = with_option(found, rest, at);
        at += size;
    }
    found
}

/// How many octets the option at the front has, if it is whole.
fn option_len(octets: &[u8]) -> Option<usize>
    ensures some { IfSome result (λ size. size ≡ option_size octets.now) }
    ensures within { IfSome result (λ size. size ≤ length octets.now) }
    ensures none { IfNone result (length octets.now < option_size octets.now) }
{
    if octets.len() < HEAD_LEN {
        return None;
    }
    let size = HEAD_LEN + number_at(octets, 2) as usize;
    if size > octets.len() {
        return None;
    }
    Some(size)
}

/// What is known when one more option was looked at, the one at the front, which stands at a place.
fn with_option(found: Walked, octets: &[u8], at: usize) -> Walked
    requires { option_size octets.now ≤ length octets.now }
    ensures { (all : List ℕ) (options : List EdnsOption) → at ≤ length all → octets.now ≡ drop at all
        → HasFirst all (first_body 8 options) found
        → HasFirst all (first_body 8 (options ++ option_at octets.now ∷ [])) result }
{
    let Walked::Plain = found else {
        return found;
    };
    if number_at(octets, 0) != CLIENT_SUBNET {
        return Walked::Plain;
    }
    Walked::At(at)
}

/// The data of the option at a place.
pub(crate) fn body_at(octets: &[u8], at: usize) -> &[u8]
    requires { IsOptionAt octets.now at }
    ensures { result.now ≡ (option_at (drop at octets.now)).body }
{
    let option = behind(octets, at);
    piece(option, HEAD_LEN, HEAD_LEN + number_at(option, 2) as usize)
}

/// What stands between two places.
pub(crate) fn piece(octets: &[u8], from: usize, to: usize) -> &[u8]
    requires order { from ≤ to }
    requires within { to ≤ length octets.now }
    ensures { result.now ≡ take (to - from) (drop from octets.now) }
{
    &octets[from..to]
}
