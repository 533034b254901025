//! Where a client is, as a row of the table of places tells.

use routing::{Continent, Sub};

/// Where a client is.
#[derive(Clone, Copy, Debug, PartialEq, Eq)]
pub struct Location {
    pub continent: Continent,
    /// A country by its code of two capital letters (ISO 3166-1).
    pub country: Option<[u8; 2]>,
    /// The subdivision of that country.
    pub subdivision: Option<Sub>,
}
