//! What tables and collections tell of a client.

ghost use Rattle.std.specs.Prelude.{◌≡◌};
ghost use Rattle.std.specs.Option.{option_copied};
ghost use Rattle.answer_model.specs.Clients.{blocks_scope, location_in};
ghost use Rattle.answer_model.specs.Location.{scope_in, told_in};
ghost use Rattle.answer_model.specs.Stored.{collection_with};

use address_text::IpAddress;
use answer_model::{Latencies, Location, Tables, locates_as_told, told_in_collections};
use zone_table::{Collections, Ident};

/// The scopes of the client's answers in the tables, where it was looked up in them.
#[derive(Clone, Copy, Debug, PartialEq, Eq)]
pub struct Seen {
    /// That of the table of places.
    pub places: Option<u8>,
    /// That of the table of latencies.
    pub latencies: Option<u8>,
}

/// Where a client is, by the table of places, and the scope of that answer.
pub(crate) fn location_of(tables: &Tables, client: IpAddress) -> (Option<&Location>, u8)
    ensures told { option_copied result.0 ≡ told_in tables.now.places client }
    ensures scope { result.1 ≡ scope_in tables.now.places client }
{
    locates_as_told::<Location>();
    tables.places.locate(client)
}

/// The latencies of a client, by the table of latencies, and the scope of that answer.
pub(crate) fn latencies_of(tables: &Tables, client: IpAddress) -> (Option<&Latencies>, u8)
    ensures told { option_copied result.0 ≡ told_in tables.now.latencies client }
    ensures scope { result.1 ≡ scope_in tables.now.latencies client }
{
    locates_as_told::<Latencies>();
    tables.latencies.locate(client)
}

/// The location of a client in a collection, and the scope of that answer.
pub(crate) fn block_of(
    collections: &Collections,
    id: u32,
    client: IpAddress,
) -> (Option<&Ident>, u8)
    ensures location { option_copied result.0
        ≡ location_in (collection_with id collections.now.list) client }
    ensures scope { result.1 ≡ blocks_scope (collection_with id collections.now.list) client }
{
    told_in_collections();
    collections.location(id, client)
}
