//! The names that zones may have.

ghost use Rattle.std.specs.Prelude.{◌≡◌};
ghost use Rattle.config_model.specs.NewZones.{is_zone_name};

use dns_name::Name;

/// Whether a zone may have the name: it isn't the root, and its first label is not `*`.
pub fn is_zone_name(name: &Name) -> bool
    ensures { result ≡ is_zone_name name.now }
{
    name.well_formed();
    let Some(parent) = name.parent() else {
        return false;
    };
    let Some(below) = parent.wildcard() else {
        return true;
    };
    !below.is_same(name)
}
