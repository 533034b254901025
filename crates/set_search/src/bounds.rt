//! The gaps between sets in zone order that a search may ask for.

ghost use Rattle.std.specs.Prelude.{◌≡◌};
ghost use Rattle.set_search.specs.Stops.{bound_of};
ghost use Rattle.set_search.specs.declared.bounds.Bound.TheVariants.{From, Past};

use zone_model::{Ident, Name, RType, SetKey};

/// A place in zone order at which a search stops, as contracts tell it.
#[derive(Clone, Copy)]
pub enum Bound {
    /// In front of the set of this key.
    From(SetKey),
    /// Behind the set of this key.
    Past(SetKey),
    /// Behind all sets of this name and type.
    PastGroup(Name, RType),
}

/// A place in zone order at which a search stops, told by parts of a key that are borrowed.
#[derive(Clone, Copy)]
pub enum Stop<'a> {
    /// In front of the set of this name, type and identifier.
    From(&'a Name, RType, Option<&'a Ident>),
    /// Behind the set of this name, type and identifier.
    Past(&'a Name, RType, Option<&'a Ident>),
    /// Behind all sets of this name and type.
    PastGroup(&'a Name, RType),
}

/// The bound in front of the set of a key.
pub fn before_key(key: &SetKey) -> Stop
    ensures { bound_of result ≡ From key.now }
{
    Stop::From(&key.name, key.rtype, key.ident.as_ref())
}

/// The bound behind the set of a key.
pub fn behind_key(key: &SetKey) -> Stop
    ensures { bound_of result ≡ Past key.now }
{
    Stop::Past(&key.name, key.rtype, key.ident.as_ref())
}
