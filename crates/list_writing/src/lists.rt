//! What stands before the sets of a list, and behind them.

ghost use Rattle.std.specs.Prelude.{◌≡◌, ◌+◌, ◌≤◌, ◌++◌, Some, codes, length};
ghost use Rattle.std.specs.Prelude.{vec_capacity, vec_len};
ghost use Rattle.list_writing.specs.Pieces.{ident_data, led, list_front, list_rest};
ghost use Rattle.list_writing.specs.Pieces.{set_line_front, set_line_rest};
ghost use Rattle.serde_json.specs.Data.{string};

use json_text::{put, put_quoted};
use record_set::SetKey;
use reply_words::{put_name, put_type};
use routing::Ident;

/// Begins the reply to ListResourceRecordSets: it is cut where there is a next set, from which the
/// list would go on. The room is that of any reply.
pub fn begin_list(next: &Option<SetKey>, into: &mut Vec<u8>)
    requires { vec_len into.old + 8192 ≤ vec_capacity into.old }
    ensures text { into.new.items ≡ into.old.items ++ list_front next.now }
    ensures len { vec_len into.new ≤ vec_len into.old + 8192 }
    ensures room { vec_capacity into.old ≤ vec_capacity into.new }
{
    match next {
        Some(next) => put_next(next, into),
        None => put(
            b"{\"IsTruncated\":false,\"Ok\":\"ListResourceRecordSets\",\"ResourceRecordSets\":[",
            into,
        ),
    }
}

/// Ends the reply to ListResourceRecordSets.
pub fn end_list(into: &mut Vec<u8>)
    requires { vec_len into.old + 3 ≤ vec_capacity into.old }
    ensures text { into.new.items ≡ into.old.items ++ list_rest }
    ensures len { vec_len into.new ≡ vec_len into.old + 3 }
    ensures room { vec_capacity into.old ≤ vec_capacity into.new }
{
    put(b"]}\n", into);
}

/// Begins a list that was cut.
fn put_next(next: &SetKey, into: &mut Vec<u8>)
    requires { vec_len into.old + 8192 ≤ vec_capacity into.old }
    ensures text { into.new.items ≡ into.old.items ++ list_front (Some next.now) }
    ensures len { vec_len into.new ≤ vec_len into.old + 8192 }
    ensures room { vec_capacity into.old ≤ vec_capacity into.new }
{
    put(b"{\"IsTruncated\":true,", into);
    put_ident(&next.ident, into);
    put(b"\"NextRecordName\":", into);
    put_name(&next.name, into);
    put(b",\"NextRecordType\":", into);
    put_type(next.rtype, into);
    put(
        b",\"Ok\":\"ListResourceRecordSets\",\"ResourceRecordSets\":[",
        into,
    );
}

/// Appends NextRecordIdentifier, where the next set has one.
fn put_ident(ident: &Option<Ident>, into: &mut Vec<u8>)
    requires { vec_len into.old + 800 ≤ vec_capacity into.old }
    ensures text { into.new.items
        ≡ into.old.items ++ led (codes "NextRecordIdentifier") (ident_data ident.now) }
    ensures len { vec_len into.new ≤ vec_len into.old + 800 }
    ensures room { vec_capacity into.old ≤ vec_capacity into.new }
{
    match ident {
        Some(ident) => put_ident_text(ident.bytes(), into),
        None => {}
    }
}

/// Appends NextRecordIdentifier.
fn put_ident_text(ident: &[u8], into: &mut Vec<u8>)
    requires ident { length ident.now ≤ 128 }
    requires room { vec_len into.old + 800 ≤ vec_capacity into.old }
    ensures text { into.new.items
        ≡ into.old.items ++ led (codes "NextRecordIdentifier") (Some (string ident.now)) }
    ensures len { vec_len into.new ≤ vec_len into.old + 800 }
    ensures room { vec_capacity into.old ≤ vec_capacity into.new }
{
    put(b"\"NextRecordIdentifier\":", into);
    put_quoted(ident, into);
    put(b",", into);
}

/// Begins the line of a set, whose pieces come next.
pub fn begin_set_line(into: &mut Vec<u8>)
    requires { vec_len into.old + 32 ≤ vec_capacity into.old }
    ensures text { into.new.items ≡ into.old.items ++ set_line_front }
    ensures len { vec_len into.new ≤ vec_len into.old + 32 }
    ensures room { vec_capacity into.old ≤ vec_capacity into.new }
{
    put(b"{\"ResourceRecordSet\":", into);
}

/// Ends the line of a set.
pub fn end_set_line(into: &mut Vec<u8>)
    requires { vec_len into.old + 2 ≤ vec_capacity into.old }
    ensures text { into.new.items ≡ into.old.items ++ set_line_rest }
    ensures len { vec_len into.new ≤ vec_len into.old + 2 }
    ensures room { vec_capacity into.old ≤ vec_capacity into.new }
{
    put(b"}\n", into);
}
