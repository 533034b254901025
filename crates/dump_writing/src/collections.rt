//! The line of a dump that tells a collection: its locations by name, each with its blocks.

ghost use Rattle.std.specs.Prelude.{◌≡◌, ◌+◌, ◌*◌, ◌≤◌, ◌++◌, ◌∷◌, codes, length, map, take};
ghost use Rattle.std.specs.Fmt.{decimal};
ghost use Rattle.std.specs.Prelude.{vec_capacity, vec_len};
ghost use Rattle.cidr_blocks.specs.Places.{IsCollection};
ghost use Rattle.reply_words.specs.Dump.{address_text, alone, block_text, collection_line};
ghost use Rattle.reply_words.specs.Dump.{collection_object, location_object};
ghost use Rattle.reply_words.specs.Json.{list_of};
ghost use Rattle.dump_writing.specs.Rooms.{room_of};
ghost use Rattle.serde_json.specs.Written.{comma_if, compact_text};

use address_text::{IpAddress, write_ipv4, write_ipv6};
use cidr_blocks::{CidrLocation, Collection};
use ip_table::IpPrefix;
use itoa::Buffer;
use json_text::{put, put_quoted};
use octets::{front, put_at};
use reply_words::{put_comma, put_id};

/// The room that the line of a collection takes, in octets.
pub const MOST_OF_COLLECTION: usize = 1_048_576;

/// Appends the line of a collection.
#[tactic(auto, unfolding(reply_model::specs::Dump::collection_line, reply_model::specs::Json::line_of))]
pub fn write_collection_line(id: u32, collection: &Collection, into: &mut Vec<u8>)
    requires bounded { IsCollection collection.now }
    requires room { vec_len into.old + MOST_OF_COLLECTION ≤ vec_capacity into.old }
    ensures text { into.new.items ≡ into.old.items ++ collection_line id collection.now }
    ensures len { vec_len into.new ≤ vec_len into.old + MOST_OF_COLLECTION }
    ensures room { vec_capacity into.old ≤ vec_capacity into.new }
{
    put_collection_alone(id, collection, into);
    put(b"\n", into);
}

/// Appends the object of a collection as the one member of another.
fn put_collection_alone(id: u32, collection: &Collection, into: &mut Vec<u8>)
    requires bounded { IsCollection collection.now }
    requires room { vec_len into.old + 820_000 ≤ vec_capacity into.old }
    ensures text { into.new.items ≡ into.old.items
        ++ compact_text (alone (codes "CidrCollection") (collection_object id collection.now)) }
    ensures len { vec_len into.new ≤ vec_len into.old + 820_000 }
    ensures room { vec_capacity into.old ≤ vec_capacity into.new }
{
    put(b"{\"CidrCollection\":", into);
    put_collection(id, collection, into);
    put(b"}", into);
}

/// Appends the object of a collection.
#[tactic(auto, using(crate::proofs::Locations::room_is))]
fn put_collection(id: u32, collection: &Collection, into: &mut Vec<u8>)
    requires bounded { IsCollection collection.now }
    requires room { vec_len into.old + 810_000 ≤ vec_capacity into.old }
    ensures text { into.new.items
        ≡ into.old.items ++ compact_text (collection_object id collection.now) }
    ensures len { vec_len into.new ≤ vec_len into.old + 810_000 }
    ensures room { vec_capacity into.old ≤ vec_capacity into.new }
{
    put(b"{\"Id\":", into);
    put_id(b'c', id, into);
    put(b",\"Locations\":", into);
    put_locations(collection.locations.as_slice(), into);
    put(b",\"Name\":", into);
    put_quoted(collection.name.bytes(), into);
    put(b"}", into);
}

/// Appends the list of locations.
#[tactic(auto, using(crate::proofs::Locations::location_more))]
fn put_locations(locations: &[CidrLocation], into: &mut Vec<u8>)
    requires { vec_len into.old + (room_of locations.now + 2) ≤ vec_capacity into.old }
    ensures text { into.new.items
        ≡ into.old.items ++ compact_text (list_of (map location_object locations.now)) }
    ensures len { vec_len into.new ≤ vec_len into.old + (room_of locations.now + 2) }
    ensures room { vec_capacity into.old ≤ vec_capacity into.new }
{
    put(b"[", into);
    for i in 0..locations.len() {
        put_location(i > 0, &locations[i], into);
    }
    put(b"]", into);
}

/// Appends the object of a location, and a comma before it, where one stands before.
fn put_location(later: bool, location: &CidrLocation, into: &mut Vec<u8>)
    requires { vec_len into.old + (500 + 300 * length location.now.blocks) ≤ vec_capacity into.old }
    ensures text { into.new.items
        ≡ into.old.items ++ (comma_if later ++ compact_text (location_object location.now)) }
    ensures len { vec_len into.new ≤ vec_len into.old + (500 + 300 * length location.now.blocks) }
    ensures room { vec_capacity into.old ≤ vec_capacity into.new }
{
    put_comma(later, into);
    put(b"{\"CidrList\":", into);
    put_blocks(location.blocks.as_slice(), into);
    put(b",\"LocationName\":", into);
    put_quoted(location.name.bytes(), into);
    put(b"}", into);
}

/// Appends the list of the texts of blocks.
#[tactic(auto, using(crate::proofs::Locations::block_more))]
fn put_blocks(blocks: &[IpPrefix], into: &mut Vec<u8>)
    requires { vec_len into.old + (300 * length blocks.now + 2) ≤ vec_capacity into.old }
    ensures text { into.new.items
        ≡ into.old.items ++ compact_text (list_of (map block_text blocks.now)) }
    ensures len { vec_len into.new ≤ vec_len into.old + (300 * length blocks.now + 2) }
    ensures room { vec_capacity into.old ≤ vec_capacity into.new }
{
    put(b"[", into);
    for i in 0..blocks.len() {
        put_block(i > 0, blocks[i], into);
    }
    put(b"]", into);
}

/// Appends the text of a block in quotes, and a comma before it, where one stands before.
fn put_block(later: bool, block: IpPrefix, into: &mut Vec<u8>)
    requires { vec_len into.old + 300 ≤ vec_capacity into.old }
    ensures text { into.new.items
        ≡ into.old.items ++ (comma_if later ++ compact_text (block_text block)) }
    ensures len { vec_len into.new ≤ vec_len into.old + 300 }
    ensures room { vec_capacity into.old ≤ vec_capacity into.new }
{
    let mut text = [0; 48];
    let end = write_block(block, &mut text);
    put_comma(later, into);
    put_quoted(front(&text, end), into);
}

/// Writes the text of a block to the front of a buffer, and says how long it is.
fn write_block(block: IpPrefix, text: &mut [u8]) -> usize
    requires { length text.old ≡ 48 }
    ensures short { result ≤ 43 }
    ensures len { length text.new ≡ 48 }
    ensures text { take result text.new
        ≡ address_text block.address ++ 0x2F ∷ decimal block.length }
{
    let end = write_address(block.address(), text);
    put_at(text, end, b"/");
    let mut buffer = Buffer::new();
    let digits = buffer.format(block.length()).as_bytes();
    put_at(text, end + 1, digits);
    end + 1 + digits.len()
}

/// Writes the text of an address to the front of a buffer, and says how long it is.
fn write_address(address: IpAddress, text: &mut [u8]) -> usize
    requires { length text.old ≡ 48 }
    ensures short { result ≤ 39 }
    ensures len { length text.new ≡ 48 }
    ensures text { take result text.new ≡ address_text address }
{
    match address {
        IpAddress::V4(octets) => write_ipv4(&octets, text, 0),
        IpAddress::V6(octets) => write_ipv6(&octets, text, 0),
    }
}
