//! Names, types, ids and members, as replies have them.

ghost use Rattle.std.specs.Prelude.{◌≡◌, ◌+◌, ◌≤◌, ◌++◌, ◌∷◌, length, vec_capacity, vec_len};
ghost use Rattle.std.specs.Fmt.{decimal};
ghost use Rattle.dns_name.specs.Written as names;
ghost use Rattle.json.specs.Print.{quoted};
ghost use Rattle.line_faults.specs.Texts as members;
ghost use Rattle.rdata_layout.specs.Types as types;
ghost use Rattle.reply_model.specs.Dump.{zone_object};
ghost use Rattle.reply_words.specs.Pieces.{id_object};
ghost use Rattle.serde_json.specs.Data.{string};
ghost use Rattle.serde_json.specs.Written.{comma_if, compact_text};

use dns_name::Name;
use itoa::Buffer;
use json_text::{put, put_quoted};
use line_faults::Member;
use octets::{front, put_at};
use rdata_layout::RType;

/// Appends a comma, where something stands before.
pub fn put_comma(later: bool, into: &mut Vec<u8>)
    requires { vec_len into.old + 1 ≤ vec_capacity into.old }
    ensures text { into.new.items ≡ into.old.items ++ comma_if later }
    ensures len { vec_len into.new ≤ vec_len into.old + 1 }
    ensures room { vec_capacity into.old ≤ vec_capacity into.new }
{
    if later {
        put(b",", into);
    }
}

/// Appends the text of a name in quotes.
pub fn put_name(name: &Name, into: &mut Vec<u8>)
    requires { vec_len into.old + 6146 ≤ vec_capacity into.old }
    ensures text { into.new.items ≡ into.old.items ++ quoted (names.text_of name.now) }
    ensures len { vec_len into.new ≤ vec_len into.old + 6146 }
    ensures room { vec_capacity into.old ≤ vec_capacity into.new }
{
    let mut text = [0; 1024];
    let len = name.write_text(&mut text);
    put_quoted(front(&text, len), into);
}

/// Appends the name of a type in quotes.
#[tactic(auto, using(crate::proofs::Lengths::type_is_short))]
pub fn put_type(rtype: RType, into: &mut Vec<u8>)
    requires { vec_len into.old + 32 ≤ vec_capacity into.old }
    ensures text { into.new.items ≡ into.old.items ++ quoted (types.text_of rtype) }
    ensures len { vec_len into.new ≤ vec_len into.old + 32 }
    ensures room { vec_capacity into.old ≤ vec_capacity into.new }
{
    put_quoted(rtype.text(), into);
}

/// Appends the name of a line or of a member in quotes.
#[tactic(auto, using(crate::proofs::Lengths::member_is_short))]
pub fn put_member(member: Member, into: &mut Vec<u8>)
    requires { vec_len into.old + 194 ≤ vec_capacity into.old }
    ensures text { into.new.items ≡ into.old.items ++ quoted (members.text_of member) }
    ensures len { vec_len into.new ≤ vec_len into.old + 194 }
    ensures room { vec_capacity into.old ≤ vec_capacity into.new }
{
    put_quoted(member.text().as_bytes(), into);
}

/// Appends an id in quotes: a letter, and a number.
pub fn put_id(letter: u8, id: u32, into: &mut Vec<u8>)
    requires { vec_len into.old + 80 ≤ vec_capacity into.old }
    ensures text { into.new.items ≡ into.old.items ++ quoted (letter ∷ decimal id) }
    ensures len { vec_len into.new ≤ vec_len into.old + 80 }
    ensures room { vec_capacity into.old ≤ vec_capacity into.new }
{
    let mut buffer = Buffer::new();
    let digits = buffer.format(id).as_bytes();
    let mut text = [letter; 12];
    put_at(&mut text, 1, digits);
    put_quoted(front(&text, digits.len() + 1), into);
}

/// Appends the object of an id alone.
pub fn put_id_object(letter: u8, id: u32, into: &mut Vec<u8>)
    requires { vec_len into.old + 100 ≤ vec_capacity into.old }
    ensures text { into.new.items
        ≡ into.old.items ++ compact_text (id_object (string (letter ∷ decimal id))) }
    ensures len { vec_len into.new ≤ vec_len into.old + 100 }
    ensures room { vec_capacity into.old ≤ vec_capacity into.new }
{
    put(b"{\"Id\":", into);
    put_id(letter, id, into);
    put(b"}", into);
}

/// Appends the object of a zone: its id and its name.
pub fn put_zone(id: u32, name: &Name, into: &mut Vec<u8>)
    requires { vec_len into.old + 6300 ≤ vec_capacity into.old }
    ensures text { into.new.items ≡ into.old.items ++ compact_text (zone_object id name.now) }
    ensures len { vec_len into.new ≤ vec_len into.old + 6300 }
    ensures room { vec_capacity into.old ≤ vec_capacity into.new }
{
    put(b"{\"Id\":", into);
    put_id(b'Z', id, into);
    put(b",\"Name\":", into);
    put_name(name, into);
    put(b"}", into);
}
