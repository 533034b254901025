//! Collections, where they are told.

ghost use Rattle.std.specs.Prelude.{◌≡◌, ◌<◌, ◌^◌, ◌++◌, ℕ, length, OnOk};
ghost use Rattle.std.specs.List.{AllByRecursion, flat_map};
ghost use Rattle.octet_reading.specs.Rules.{list_octets};
ghost use Rattle.check_octets.specs.Octets.{where_spelled};
ghost use Rattle.cidr_blocks.specs.declared.places.Collection.{Collection};
ghost use Rattle.snapshot_octets.specs.Octets.{IsHeldCollection, IsSpelledCollection};
ghost use Rattle.snapshot_octets.specs.Octets.{IsSpelledLocation, collection_octets};
ghost use Rattle.snapshot_octets.specs.Octets.{held_collection_octets, location_octets};

use cidr_blocks::{CidrLocation, Collection};
use octets::{OutOfMemory, append, four_octets, two_octets};
use snapshot_octets::{write_blocks, write_name};

/// Appends the number of collections, and these, each behind its own number, where they are told.
pub fn append_told_collections(
    told: bool,
    collections: &[(u32, Collection)],
    into: &mut Vec<u8>,
) -> Result<(), OutOfMemory>
    requires few { length collections.now < 2 ^ 16 }
    requires spelled { AllByRecursion IsHeldCollection collections.now }
    ensures { OnOk result (into.new.items ≡ into.old.items
        ++ where_spelled told (list_octets held_collection_octets collections.now)) }
{
    if told {
        return append_collections(collections, into);
    }
    Ok(())
}

/// Appends the number of collections, and these.
fn append_collections(
    collections: &[(u32, Collection)],
    into: &mut Vec<u8>,
) -> Result<(), OutOfMemory>
    requires few { length collections.now < 2 ^ 16 }
    requires spelled { AllByRecursion IsHeldCollection collections.now }
    ensures { OnOk result (into.new.items
        ≡ into.old.items ++ list_octets held_collection_octets collections.now) }
{
    append(&two_octets(collections.len() as u16), into)?;
    append_held_collections(collections, into)
}

/// Appends collections one behind another.
fn append_held_collections(
    collections: &[(u32, Collection)],
    into: &mut Vec<u8>,
) -> Result<(), OutOfMemory>
    requires { AllByRecursion IsHeldCollection collections.now }
    ensures { OnOk result (into.new.items
        ≡ into.old.items ++ flat_map held_collection_octets collections.now) }
{
    for held in collections {
        if let Err(OutOfMemory) = append_held_collection(held, into) {
            return Err(OutOfMemory);
        }
    }
    Ok(())
}

/// Appends a collection behind its number.
fn append_held_collection(held: &(u32, Collection), into: &mut Vec<u8>) -> Result<(), OutOfMemory>
    requires { IsHeldCollection held.now }
    ensures { OnOk result (into.new.items ≡ into.old.items ++ held_collection_octets held.now) }
{
    append(&four_octets(held.0), into)?;
    append_collection(&held.1, into)
}

/// Appends a collection: its name, and its locations.
fn append_collection(collection: &Collection, into: &mut Vec<u8>) -> Result<(), OutOfMemory>
    requires { IsSpelledCollection collection.now }
    ensures { OnOk result (into.new.items ≡ into.old.items ++ collection_octets collection.now) }
{
    write_name(&collection.name, into)?;
    append_locations(collection.locations.as_slice(), into)
}

/// Appends the number of locations, and these.
fn append_locations(locations: &[CidrLocation], into: &mut Vec<u8>) -> Result<(), OutOfMemory>
    requires few { length locations.now < 2 ^ 16 }
    requires spelled { AllByRecursion IsSpelledLocation locations.now }
    ensures { OnOk result (into.new.items
        ≡ into.old.items ++ list_octets location_octets locations.now) }
{
    append(&two_octets(locations.len() as u16), into)?;
    append_each_location(locations, into)
}

/// Appends locations one behind another.
fn append_each_location(locations: &[CidrLocation], into: &mut Vec<u8>) -> Result<(), OutOfMemory>
    requires { AllByRecursion IsSpelledLocation locations.now }
    ensures { OnOk result (into.new.items
        ≡ into.old.items ++ flat_map location_octets locations.now) }
{
    for location in locations {
        if let Err(OutOfMemory) = append_location(location, into) {
            return Err(OutOfMemory);
        }
    }
    Ok(())
}

/// Appends a location: its name, and its blocks.
fn append_location(location: &CidrLocation, into: &mut Vec<u8>) -> Result<(), OutOfMemory>
    requires { IsSpelledLocation location.now }
    ensures { OnOk result (into.new.items ≡ into.old.items ++ location_octets location.now) }
{
    write_name(&location.name, into)?;
    write_blocks(location.blocks.as_slice(), into)
}
