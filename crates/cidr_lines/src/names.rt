//! The names of collections and of their locations.

ghost use Rattle.std.specs.Prelude.{◌≡◌, SomeIff};
ghost use Rattle.routing.specs.Texts.{IsText, is_location_byte};
ghost use Rattle.cidr_lines.specs.Collections.{collection_name, location_name, is_put};

use cidr_blocks::Ident;

/// The name of a collection.
pub(crate) fn collection_name(text: &[u8]) -> Option<Ident>
    ensures { result ≡ collection_name text.now }
{
    collection_ident(text)
}

/// The name of a location.
pub(crate) fn location_name(text: &[u8]) -> Option<Ident>
    ensures { result ≡ location_name text.now }
{
    location_ident(text)
}

/// The name of a collection of these bytes.
fn collection_ident(text: &[u8]) -> Option<Ident>
    ensures { SomeIff result (IsText is_location_byte 64 text.now) text.now }
{
    let Some(name) = Ident::new(text) else {
        return None;
    };
    if name.is_collection_name() {
        Some(name)
    } else {
        None
    }
}

/// The name of a location of these bytes.
fn location_ident(text: &[u8]) -> Option<Ident>
    ensures { SomeIff result (IsText is_location_byte 16 text.now) text.now }
{
    let Some(name) = Ident::new(text) else {
        return None;
    };
    if name.is_location_name() {
        Some(name)
    } else {
        None
    }
}

/// Whether a word says that blocks are put, or are taken away.
pub(crate) fn is_put(text: &str) -> Option<bool>
    ensures { result ≡ is_put text.now }
{
    match text {
        "PUT" => Some(true),
        "DELETE_IF_EXISTS" => Some(false),
        _ => None,
    }
}
