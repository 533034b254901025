//! A law over the definitions, the contract of a function that does nothing.

ghost use Rattle.cidr_routing.specs.Located.{OneLocationIn};

use crate::ident::Ident;
use cidr_commands::one_row_found;

/// A client has one location in a collection, and one scope.
pub fn one_location_in()
    ensures { OneLocationIn }
{
    one_row_found::<Ident>();
}
