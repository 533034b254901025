//! The policies, and what tells the sets of one policy apart.

ghost use Rattle.std.specs.Prelude.{◌≡◌, ◌↔◌, IsTrue};

use crate::texts::{Ident, Region, Sub};

/// A continent, by its code.
#[derive(Clone, Copy, Debug, PartialEq, Eq)]
pub enum Continent {
    /// Africa.
    Af,
    /// Antarctica.
    An,
    /// Asia.
    As,
    /// Europe.
    Eu,
    /// North America.
    Na,
    /// Oceania.
    Oc,
    /// South America.
    Sa,
}

/// Where a geolocation set applies.
#[derive(Clone, Copy, Debug, PartialEq, Eq)]
pub enum Place {
    Continent(Continent),
    /// A country by its code of two capital letters (ISO 3166-1).
    Country([u8; 2]),
    /// A subdivision of a country.
    Subdivision([u8; 2], Sub),
    /// Each client, behind every smaller place.
    Anywhere,
}

/// The role of a failover set.
#[derive(Clone, Copy, Debug, PartialEq, Eq)]
pub enum Role {
    Primary,
    Secondary,
}

/// The routing policy of a set, with the set's identifier.
#[derive(Clone, Copy, Debug, PartialEq, Eq)]
pub enum Routing {
    Simple,
    /// A weight of 0 to 255.
    Weighted(Ident, u8),
    Failover(Ident, Role),
    Geolocation(Ident, Place),
    Latency(Ident, Region),
    Multivalue(Ident),
    /// IP-based: the number of a collection of address blocks, and one of its locations.
    Cidr(Ident, u32, Ident),
}

impl Place {
    /// Whether the two are one place, by the equality that contracts use.
    pub fn is_same(&self, other: &Place) -> bool
        ensures { IsTrue result ↔ (self.now ≡ other.now) }
    {
        match (self, other) {
            (Place::Continent(x), Place::Continent(y)) => x == y,
            (Place::Country(x), Place::Country(y)) => x == y,
            (Place::Subdivision(x, subdivision), Place::Subdivision(y, other_subdivision)) => {
                x == y && subdivision.is_same(other_subdivision)
            }
            (Place::Anywhere, Place::Anywhere) => true,
            _ => false,
        }
    }
}

impl Routing {
    /// Whether the two are one policy, by the equality that contracts use.
    pub fn is_same(&self, other: &Routing) -> bool
        ensures { IsTrue result ↔ (self.now ≡ other.now) }
    {
        match (self, other) {
            (Routing::Simple, Routing::Simple) => true,
            (Routing::Weighted(x, weight), Routing::Weighted(y, other_weight)) => {
                x.is_same(y) && weight == other_weight
            }
            (Routing::Failover(x, role), Routing::Failover(y, other_role)) => {
                x.is_same(y) && role == other_role
            }
            (Routing::Geolocation(x, place), Routing::Geolocation(y, other_place)) => {
                x.is_same(y) && place.is_same(other_place)
            }
            (Routing::Latency(x, region), Routing::Latency(y, other_region)) => {
                x.is_same(y) && region.is_same(other_region)
            }
            (Routing::Multivalue(x), Routing::Multivalue(y)) => x.is_same(y),
            (
                Routing::Cidr(x, collection, location),
                Routing::Cidr(y, other_collection, other_location),
            ) => {
                x.is_same(y) && collection == other_collection && location.is_same(other_location)
            }
            _ => false,
        }
    }
}
