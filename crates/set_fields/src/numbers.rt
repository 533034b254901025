//! The fields of a set that are numbers.

ghost use Rattle.std.specs.Prelude.{◌≡◌};
ghost use Rattle.octet_reading.specs.Reading.{Gives};
ghost use Rattle.set_fields.specs.Numbers.{type_of_number, type_at, continent_of_number, continent_at, role_of_number};
ghost use Rattle.set_fields.specs.Numbers.{role_at, ttl_at};

use octet_reading::{Fault, RType, four_at, octet_at, two_at};
use set_octets::{Continent, Role};

/// A type, by its number, and what stands behind it.
#[tactic(auto, unfolding(crate::specs::Numbers::type_at))]
pub fn type_at(bytes: &[u8]) -> Result<(RType, &[u8]), Fault>
    ensures { Gives (λ x. (x.0, x.1.now)) result (type_at bytes.now) }
{
    let (n, rest) = two_at(bytes)?;
    let Some(rtype) = type_of_number(n) else {
        return Err(Fault(bytes.len()));
    };
    Ok((rtype, rest))
}

/// The type of a number.
fn type_of_number(n: u16) -> Option<RType>
    ensures { result ≡ type_of_number n }
{
    RType::from_number(n)
}

/// A continent, by its number, and what stands behind it.
#[tactic(auto, unfolding(crate::specs::Numbers::continent_at))]
pub fn continent_at(bytes: &[u8]) -> Result<(Continent, &[u8]), Fault>
    ensures { Gives (λ x. (x.0, x.1.now)) result (continent_at bytes.now) }
{
    let (n, rest) = octet_at(bytes)?;
    let Some(continent) = continent_of_number(n) else {
        return Err(Fault(bytes.len()));
    };
    Ok((continent, rest))
}

/// The continent of a number.
fn continent_of_number(n: u8) -> Option<Continent>
    ensures { result ≡ continent_of_number n }
{
    match n {
        1 => Some(Continent::Af),
        2 => Some(Continent::An),
        3 => Some(Continent::As),
        4 => Some(Continent::Eu),
        5 => Some(Continent::Na),
        6 => Some(Continent::Oc),
        7 => Some(Continent::Sa),
        _ => None,
    }
}

/// The part of a failover set, by its number, and what stands behind it.
#[tactic(auto, unfolding(crate::specs::Numbers::role_at))]
pub fn role_at(bytes: &[u8]) -> Result<(Role, &[u8]), Fault>
    ensures { Gives (λ x. (x.0, x.1.now)) result (role_at bytes.now) }
{
    let (n, rest) = octet_at(bytes)?;
    let Some(role) = role_of_number(n) else {
        return Err(Fault(bytes.len()));
    };
    Ok((role, rest))
}

/// The role of a number.
fn role_of_number(n: u8) -> Option<Role>
    ensures { result ≡ role_of_number n }
{
    match n {
        1 => Some(Role::Primary),
        2 => Some(Role::Secondary),
        _ => None,
    }
}

/// A time to live, seconds below 2^31, and what stands behind it.
#[tactic(auto, unfolding(crate::specs::Numbers::ttl_at))]
pub fn ttl_at(bytes: &[u8]) -> Result<(u32, &[u8]), Fault>
    ensures { Gives (λ x. (x.0, x.1.now)) result (ttl_at bytes.now) }
{
    let (ttl, rest) = four_at(bytes)?;
    if ttl >= 0x8000_0000 {
        return Err(Fault(bytes.len()));
    }
    Ok((ttl, rest))
}
