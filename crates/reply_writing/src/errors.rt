//! Errors by what is told of them, each an object on its own.

ghost use Rattle.std.specs.Prelude.{◌≡◌, ◌+◌, ◌≤◌, ◌++◌, ◌∷◌, [], length, codes, Some};
ghost use Rattle.std.specs.Prelude.{vec_capacity, vec_len};
ghost use Rattle.line_faults.specs.Texts.{text_of};
ghost use Rattle.line_faults.specs.declared.member.Member.TheVariants as m;
ghost use Rattle.reply_words.specs.Errors.{error, if_in_change, in_change, told_check, told_key};
ghost use Rattle.reply_words.specs.Errors.{told_location, told_name, told_reason};
ghost use Rattle.reply_words.specs.Json.{collection_text, count, field};
ghost use Rattle.serde_json.specs.Data.{string};
ghost use Rattle.serde_json.specs.Written.{compact_text};

use dns_name::Name;
use json_text::{put, put_number, put_quoted};
use line_faults::Member;
use rdata_layout::RType;
use record_set::SetKey;
use reply_words::{put_id, put_member, put_name, put_type};

/// An error of which nothing else is told.
pub(crate) fn write_error(name: &[u8], number: u64, into: &mut Vec<u8>)
    requires name { length name.now ≤ 32 }
    requires room { vec_len into.old + 8000 ≤ vec_capacity into.old }
    ensures text { into.new.items ≡ into.old.items ++ compact_text (error name.now number []) }
    ensures len { vec_len into.new ≤ vec_len into.old + 8000 }
    ensures room { vec_capacity into.old ≤ vec_capacity into.new }
{
    put(b"{\"Error\":", into);
    put_quoted(name, into);
    put(b",\"Number\":", into);
    put_number(number, into);
    put(b"}", into);
}

/// An error in the change of this index.
pub(crate) fn write_error_in_change(name: &[u8], number: u64, i: usize, into: &mut Vec<u8>)
    requires name { length name.now ≤ 32 }
    requires room { vec_len into.old + 8000 ≤ vec_capacity into.old }
    ensures text { into.new.items
        ≡ into.old.items ++ compact_text (error name.now number (in_change i)) }
    ensures len { vec_len into.new ≤ vec_len into.old + 8000 }
    ensures room { vec_capacity into.old ≤ vec_capacity into.new }
{
    put(b"{\"Change\":", into);
    put_number(i as u64, into);
    put(b",\"Error\":", into);
    put_quoted(name, into);
    put(b",\"Number\":", into);
    put_number(number, into);
    put(b"}", into);
}

/// InvalidInput for a reason, outside of changes.
pub(crate) fn write_invalid(reason: &[u8], into: &mut Vec<u8>)
    requires reason { length reason.now ≤ 32 }
    requires room { vec_len into.old + 8000 ≤ vec_capacity into.old }
    ensures text { into.new.items ≡ into.old.items
        ++ compact_text (error (codes "InvalidInput") 2 (told_reason reason.now)) }
    ensures len { vec_len into.new ≤ vec_len into.old + 8000 }
    ensures room { vec_capacity into.old ≤ vec_capacity into.new }
{
    put(
        b"{\"Error\":\"InvalidInput\",\"Number\":2,\"Reason\":",
        into,
    );
    put_quoted(reason, into);
    put(b"}", into);
}

/// InvalidInput for a reason, in the change of this index.
pub(crate) fn write_invalid_in_change(reason: &[u8], i: usize, into: &mut Vec<u8>)
    requires reason { length reason.now ≤ 32 }
    requires room { vec_len into.old + 8000 ≤ vec_capacity into.old }
    ensures text { into.new.items ≡ into.old.items
        ++ compact_text (error (codes "InvalidInput") 2 (told_reason reason.now ++ in_change i)) }
    ensures len { vec_len into.new ≤ vec_len into.old + 8000 }
    ensures room { vec_capacity into.old ≤ vec_capacity into.new }
{
    put(b"{\"Change\":", into);
    put_number(i as u64, into);
    put(
        b",\"Error\":\"InvalidInput\",\"Number\":2,\"Reason\":",
        into,
    );
    put_quoted(reason, into);
    put(b"}", into);
}

/// An error at the set of this key.
pub(crate) fn write_error_of_key(name: &[u8], number: u64, key: &SetKey, into: &mut Vec<u8>)
    requires name { length name.now ≤ 32 }
    requires room { vec_len into.old + 8000 ≤ vec_capacity into.old }
    ensures text { into.new.items
        ≡ into.old.items ++ compact_text (error name.now number (told_key key.now)) }
    ensures len { vec_len into.new ≤ vec_len into.old + 8000 }
    ensures room { vec_capacity into.old ≤ vec_capacity into.new }
{
    match &key.ident {
        Some(ident) => write_error_of_set(name, number, &key.name, key.rtype, ident.bytes(), into),
        None => write_error_of_group(name, number, &key.name, key.rtype, into),
    }
}

/// An error at the set of this name, type and identifier.
fn write_error_of_set(
    name: &[u8],
    number: u64,
    owner: &Name,
    rtype: RType,
    ident: &[u8],
    into: &mut Vec<u8>,
)
    requires name { length name.now ≤ 32 }
    requires ident { length ident.now ≤ 128 }
    requires room { vec_len into.old + 8000 ≤ vec_capacity into.old }
    ensures text { into.new.items ≡ into.old.items ++ compact_text (error name.now number
        (told_key (record { name = owner.now; rtype = rtype; ident = Some ident.now }))) }
    ensures len { vec_len into.new ≤ vec_len into.old + 8000 }
    ensures room { vec_capacity into.old ≤ vec_capacity into.new }
{
    put(b"{\"Error\":", into);
    put_quoted(name, into);
    put(b",\"Name\":", into);
    put_name(owner, into);
    put(b",\"Number\":", into);
    put_number(number, into);
    put(b",\"SetIdentifier\":", into);
    put_quoted(ident, into);
    put(b",\"Type\":", into);
    put_type(rtype, into);
    put(b"}", into);
}

/// An error at the sets of this name and type.
pub(crate) fn write_error_of_group(
    name: &[u8],
    number: u64,
    owner: &Name,
    rtype: RType,
    into: &mut Vec<u8>,
)
    requires name { length name.now ≤ 32 }
    requires room { vec_len into.old + 8000 ≤ vec_capacity into.old }
    ensures text { into.new.items ≡ into.old.items ++ compact_text (error name.now number
        (told_key (record { name = owner.now; rtype = rtype; ident = None }))) }
    ensures len { vec_len into.new ≤ vec_len into.old + 8000 }
    ensures room { vec_capacity into.old ≤ vec_capacity into.new }
{
    put(b"{\"Error\":", into);
    put_quoted(name, into);
    put(b",\"Name\":", into);
    put_name(owner, into);
    put(b",\"Number\":", into);
    put_number(number, into);
    put(b",\"Type\":", into);
    put_type(rtype, into);
    put(b"}", into);
}

/// An error at the sets of this name.
pub(crate) fn write_error_of_name(name: &[u8], number: u64, owner: &Name, into: &mut Vec<u8>)
    requires name { length name.now ≤ 32 }
    requires room { vec_len into.old + 8000 ≤ vec_capacity into.old }
    ensures text { into.new.items
        ≡ into.old.items ++ compact_text (error name.now number (told_name owner.now)) }
    ensures len { vec_len into.new ≤ vec_len into.old + 8000 }
    ensures room { vec_capacity into.old ≤ vec_capacity into.new }
{
    put(b"{\"Error\":", into);
    put_quoted(name, into);
    put(b",\"Name\":", into);
    put_name(owner, into);
    put(b",\"Number\":", into);
    put_number(number, into);
    put(b"}", into);
}

/// An error at the health check of this number.
pub(crate) fn write_error_of_check(name: &[u8], number: u64, id: u32, into: &mut Vec<u8>)
    requires name { length name.now ≤ 32 }
    requires room { vec_len into.old + 8000 ≤ vec_capacity into.old }
    ensures text { into.new.items
        ≡ into.old.items ++ compact_text (error name.now number (told_check id)) }
    ensures len { vec_len into.new ≤ vec_len into.old + 8000 }
    ensures room { vec_capacity into.old ≤ vec_capacity into.new }
{
    put(b"{\"Error\":", into);
    put_quoted(name, into);
    put(b",\"HealthCheckId\":", into);
    put_id(b'h', id, into);
    put(b",\"Number\":", into);
    put_number(number, into);
    put(b"}", into);
}

/// JournalFull, from a length.
pub(crate) fn write_journal_full(length: u64, into: &mut Vec<u8>)
    requires room { vec_len into.old + 8000 ≤ vec_capacity into.old }
    ensures text { into.new.items ≡ into.old.items ++ compact_text
        (error (codes "JournalFull") 19 ((codes "Length", count length) ∷ [])) }
    ensures len { vec_len into.new ≤ vec_len into.old + 8000 }
    ensures room { vec_capacity into.old ≤ vec_capacity into.new }
{
    put(b"{\"Error\":\"JournalFull\",\"Length\":", into);
    put_number(length, into);
    put(b",\"Number\":19}", into);
}

/// NoSuchCidrCollection, of this number.
pub(crate) fn write_no_collection(id: u32, into: &mut Vec<u8>)
    requires room { vec_len into.old + 8000 ≤ vec_capacity into.old }
    ensures text { into.new.items ≡ into.old.items ++ compact_text
        (error (codes "NoSuchCidrCollection") 43 (field m.CollectionId (collection_text id) ∷ [])) }
    ensures len { vec_len into.new ≤ vec_len into.old + 8000 }
    ensures room { vec_capacity into.old ≤ vec_capacity into.new }
{
    put(b"{\"CollectionId\":", into);
    put_id(b'c', id, into);
    put(b",\"Error\":\"NoSuchCidrCollection\",\"Number\":43}", into);
}

/// An error at the location of this name.
pub(crate) fn write_error_of_location(name: &[u8], number: u64, location: &[u8], into: &mut Vec<u8>)
    requires name { length name.now ≤ 32 }
    requires location { length location.now ≤ 64 }
    requires room { vec_len into.old + 8000 ≤ vec_capacity into.old }
    ensures text { into.new.items
        ≡ into.old.items ++ compact_text (error name.now number (told_location location.now)) }
    ensures len { vec_len into.new ≤ vec_len into.old + 8000 }
    ensures room { vec_capacity into.old ≤ vec_capacity into.new }
{
    put(b"{\"Error\":", into);
    put_quoted(name, into);
    put(b",\"LocationName\":", into);
    put_quoted(location, into);
    put(b",\"Number\":", into);
    put_number(number, into);
    put(b"}", into);
}

/// BadLine at a member, for a reason.
pub(crate) fn write_bad_line(reason: &[u8], member: Member, change: Option<u16>, into: &mut Vec<u8>)
    requires reason { length reason.now ≤ 32 }
    requires room { vec_len into.old + 8000 ≤ vec_capacity into.old }
    ensures text { into.new.items ≡ into.old.items ++ compact_text (error (codes "BadLine") 30
        ((codes "Member", string (text_of member))
        ∷ (told_reason reason.now ++ if_in_change change))) }
    ensures len { vec_len into.new ≤ vec_len into.old + 8000 }
    ensures room { vec_capacity into.old ≤ vec_capacity into.new }
{
    match change {
        Some(i) => write_bad_change(reason, member, i, into),
        None => write_bad(reason, member, into),
    }
}

/// BadLine outside of changes.
fn write_bad(reason: &[u8], member: Member, into: &mut Vec<u8>)
    requires reason { length reason.now ≤ 32 }
    requires room { vec_len into.old + 8000 ≤ vec_capacity into.old }
    ensures text { into.new.items ≡ into.old.items ++ compact_text (error (codes "BadLine") 30
        ((codes "Member", string (text_of member)) ∷ told_reason reason.now)) }
    ensures len { vec_len into.new ≤ vec_len into.old + 8000 }
    ensures room { vec_capacity into.old ≤ vec_capacity into.new }
{
    put(b"{\"Error\":\"BadLine\",\"Member\":", into);
    put_member(member, into);
    put(b",\"Number\":30,\"Reason\":", into);
    put_quoted(reason, into);
    put(b"}", into);
}

/// BadLine inside a change.
fn write_bad_change(reason: &[u8], member: Member, i: u16, into: &mut Vec<u8>)
    requires reason { length reason.now ≤ 32 }
    requires room { vec_len into.old + 8000 ≤ vec_capacity into.old }
    ensures text { into.new.items ≡ into.old.items ++ compact_text (error (codes "BadLine") 30
        ((codes "Member", string (text_of member)) ∷ (told_reason reason.now ++ in_change i))) }
    ensures len { vec_len into.new ≤ vec_len into.old + 8000 }
    ensures room { vec_capacity into.old ≤ vec_capacity into.new }
{
    put(b"{\"Change\":", into);
    put_number(i as u64, into);
    put(b",\"Error\":\"BadLine\",\"Member\":", into);
    put_member(member, into);
    put(b",\"Number\":30,\"Reason\":", into);
    put_quoted(reason, into);
    put(b"}", into);
}

/// Unsupported at a member.
pub(crate) fn write_unsupported(member: Member, change: Option<u16>, into: &mut Vec<u8>)
    requires room { vec_len into.old + 8000 ≤ vec_capacity into.old }
    ensures text { into.new.items ≡ into.old.items ++ compact_text (error (codes "Unsupported") 31
        ((codes "Member", string (text_of member)) ∷ if_in_change change)) }
    ensures len { vec_len into.new ≤ vec_len into.old + 8000 }
    ensures room { vec_capacity into.old ≤ vec_capacity into.new }
{
    match change {
        Some(i) => write_unsupported_change(member, i, into),
        None => write_unsupported_member(member, into),
    }
}

/// Unsupported outside of changes.
fn write_unsupported_member(member: Member, into: &mut Vec<u8>)
    requires room { vec_len into.old + 8000 ≤ vec_capacity into.old }
    ensures text { into.new.items ≡ into.old.items ++ compact_text (error (codes "Unsupported") 31
        ((codes "Member", string (text_of member)) ∷ [])) }
    ensures len { vec_len into.new ≤ vec_len into.old + 8000 }
    ensures room { vec_capacity into.old ≤ vec_capacity into.new }
{
    put(b"{\"Error\":\"Unsupported\",\"Member\":", into);
    put_member(member, into);
    put(b",\"Number\":31}", into);
}

/// Unsupported inside a change.
fn write_unsupported_change(member: Member, i: u16, into: &mut Vec<u8>)
    requires room { vec_len into.old + 8000 ≤ vec_capacity into.old }
    ensures text { into.new.items ≡ into.old.items ++ compact_text (error (codes "Unsupported") 31
        ((codes "Member", string (text_of member)) ∷ in_change i)) }
    ensures len { vec_len into.new ≤ vec_len into.old + 8000 }
    ensures room { vec_capacity into.old ≤ vec_capacity into.new }
{
    put(b"{\"Change\":", into);
    put_number(i as u64, into);
    put(b",\"Error\":\"Unsupported\",\"Member\":", into);
    put_member(member, into);
    put(b",\"Number\":31}", into);
}
