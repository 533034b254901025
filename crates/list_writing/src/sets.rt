//! A set in pieces: what stands before its values, each value, and what stands behind them.

ghost use Rattle.std.specs.Prelude.{◌≡◌, ◌+◌, ◌≤◌, ◌++◌, IfSome, IsTrue, None, Some, nat_lt, slice_get};
ghost use Rattle.std.specs.Prelude.{vec_capacity, vec_len};
ghost use Rattle.json.specs.Print.{quoted};
ghost use Rattle.line_faults.specs.Texts.{text_of};
ghost use Rattle.line_faults.specs.declared.member.Member.TheVariants as m;
ghost use Rattle.rdata.specs.Written as value;
ghost use Rattle.rdata_layout.specs.Layout.{IsLayout};
ghost use Rattle.reply_words.specs.Json.{check_text, count};
ghost use Rattle.list_writing.specs.Pieces.{alias_data, alias_object, check_data, front_text};
ghost use Rattle.list_writing.specs.Pieces.{led, list_closing, list_opening, rest_text};
ghost use Rattle.list_writing.specs.Pieces.{set_front, set_rest, trailed, ttl_data, value_piece};
ghost use Rattle.serde_json.specs.Written.{compact_text};
ghost use Rattle.record_set.specs.declared.sets.RecordSet.{RecordSet};
ghost use Rattle.routing.specs.declared.policies.Routing.TheVariants as policy;
ghost use Rattle.set_scratch.specs.Bodies.{alias_of, wires_of};
ghost use Rattle.set_scratch.specs.Holding.{HasValue, IsHolding};
ghost use Rattle.set_scratch.specs.Spelling.{IsPart, from_policy};

use crate::policies::{put_early, put_ident_of, put_latency, put_multivalue, put_weighted};
use dns_name::Name;
use json_text::{put, put_flag, put_number, put_quoted};
use octets::front;
use rdata::{RType, write_text};
use reply_words::{put_comma, put_id, put_name, put_type};
use routing::Routing;
use set_scratch::Scratch;

/// The room that a set takes without its values, in octets: what stands before them, and as much
/// behind them.
pub const MOST_OF_SET: usize = 16_384;

/// The room that a value takes, in octets.
pub const MOST_OF_VALUE: usize = 98_368;

/// Room for the text of a value.
#[derive(Drop)]
pub struct ValueText {
    octets: [u8; 16384],
}

impl ValueText {
    /// Room that holds nothing.
    pub fn new() -> ValueText {
        ValueText { octets: [0; 16384] }
    }
}

/// Appends what stands before the values of the set that is held, of the zone of this number. A
/// later set of a list has a comma in front.
pub fn begin_set(later: bool, zone: u32, scratch: &Scratch, into: &mut Vec<u8>)
    requires held { IsHolding scratch.now }
    requires room { vec_len into.old + MOST_OF_SET ≤ vec_capacity into.old }
    ensures text { IfSome scratch.now (λ set.
        into.new.items ≡ into.old.items ++ set_front later zone set) }
    ensures len { vec_len into.new ≤ vec_len into.old + MOST_OF_SET }
    ensures room { vec_capacity into.old ≤ vec_capacity into.new }
{
    let check = scratch.check();
    let name = scratch.name();
    if is_plain(scratch.policy()) {
        put_front(later, zone, &None, &Routing::Simple, check, &name, into);
        return;
    }
    let alias = scratch.alias();
    let policy = scratch.routing();
    put_front(later, zone, &alias, &policy, check, &name, into);
}

/// Appends the value at this place of the set that is held. A value other than the first has a
/// comma in front.
pub fn write_value(scratch: &Scratch, i: usize, text: &mut ValueText, into: &mut Vec<u8>)
    requires held { HasValue scratch.now i }
    requires room { vec_len into.old + MOST_OF_VALUE ≤ vec_capacity into.old }
    ensures text { IfSome scratch.now (λ set. IfSome (slice_get (wires_of set.body) i) (λ wire.
        into.new.items ≡ into.old.items ++ value_piece (nat_lt 0 i) set.rtype wire)) }
    ensures len { vec_len into.new ≤ vec_len into.old + MOST_OF_VALUE }
    ensures room { vec_capacity into.old ≤ vec_capacity into.new }
{
    let rtype = scratch.rtype();
    put_value(i > 0, rtype, scratch.value(i), text, into);
}

/// Appends what stands behind the values of the set that is held.
pub fn end_set(scratch: &Scratch, into: &mut Vec<u8>)
    requires held { IsHolding scratch.now }
    requires room { vec_len into.old + MOST_OF_SET ≤ vec_capacity into.old }
    ensures text { IfSome scratch.now (λ set. into.new.items ≡ into.old.items ++ set_rest set) }
    ensures len { vec_len into.new ≤ vec_len into.old + MOST_OF_SET }
    ensures room { vec_capacity into.old ≤ vec_capacity into.new }
{
    let ttl = scratch.ttl();
    let rtype = scratch.rtype();
    if is_plain(scratch.policy()) {
        put_rest(&None, &Routing::Simple, ttl, rtype, into);
        return;
    }
    let alias = scratch.alias();
    let policy = scratch.routing();
    put_rest(&alias, &policy, ttl, rtype, into);
}

/// Whether a set has the simple policy and is no alias, by its octets from the policy on: of most
/// sets neither has to be copied then.
fn is_plain(octets: &[u8]) -> bool
    ensures { (set : RecordSet) → IsPart octets.now (from_policy set) set → IsTrue result
        → (set.routing ≡ policy.Simple) × (alias_of set.body ≡ None) }
{
    matches!(octets, [0, 0, ..])
}

/// Appends what stands before the values of a set.
fn put_front(
    later: bool,
    zone: u32,
    alias: &Option<(Name, bool)>,
    policy: &Routing,
    check: Option<u32>,
    name: &Name,
    into: &mut Vec<u8>,
)
    requires { vec_len into.old + MOST_OF_SET ≤ vec_capacity into.old }
    ensures text { into.new.items
        ≡ into.old.items ++ front_text later zone alias.now policy.now check name.now }
    ensures len { vec_len into.new ≤ vec_len into.old + MOST_OF_SET }
    ensures room { vec_capacity into.old ≤ vec_capacity into.new }
{
    put_comma(later, into);
    put(b"{", into);
    put_alias(zone, alias, into);
    put_early(policy, into);
    put_check(check, into);
    put_multivalue(policy, into);
    put(b"\"Name\":", into);
    put_name(name, into);
    put_latency(policy, into);
    put_opening(alias, into);
}

/// Appends what stands behind the values of a set.
fn put_rest(
    alias: &Option<(Name, bool)>,
    policy: &Routing,
    ttl: u32,
    rtype: RType,
    into: &mut Vec<u8>,
)
    requires { vec_len into.old + MOST_OF_SET ≤ vec_capacity into.old }
    ensures text { into.new.items
        ≡ into.old.items ++ rest_text alias.now policy.now ttl rtype }
    ensures len { vec_len into.new ≤ vec_len into.old + MOST_OF_SET }
    ensures room { vec_capacity into.old ≤ vec_capacity into.new }
{
    put_closing(alias, into);
    put_ident_of(policy, into);
    put_ttl(alias, ttl, into);
    put(b",\"Type\":", into);
    put_type(rtype, into);
    put_weighted(policy, into);
    put(b"}", into);
}

/// Appends AliasTarget, where the set is an alias.
fn put_alias(zone: u32, alias: &Option<(Name, bool)>, into: &mut Vec<u8>)
    requires { vec_len into.old + 6400 ≤ vec_capacity into.old }
    ensures text { into.new.items
        ≡ into.old.items ++ led (text_of m.AliasTarget) (alias_data zone alias.now) }
    ensures len { vec_len into.new ≤ vec_len into.old + 6400 }
    ensures room { vec_capacity into.old ≤ vec_capacity into.new }
{
    match alias {
        Some(alias) => put_target(zone, &alias.0, alias.1, into),
        None => {}
    }
}

/// Appends AliasTarget.
fn put_target(zone: u32, target: &Name, evaluate: bool, into: &mut Vec<u8>)
    requires { vec_len into.old + 6400 ≤ vec_capacity into.old }
    ensures text { into.new.items ≡ into.old.items
        ++ led (text_of m.AliasTarget) (Some (alias_object zone target.now evaluate)) }
    ensures len { vec_len into.new ≤ vec_len into.old + 6400 }
    ensures room { vec_capacity into.old ≤ vec_capacity into.new }
{
    put(b"\"AliasTarget\":", into);
    put_target_object(zone, target, evaluate, into);
    put(b",", into);
}

/// Appends the object of a target in the zone of this number.
fn put_target_object(zone: u32, target: &Name, evaluate: bool, into: &mut Vec<u8>)
    requires { vec_len into.old + 6320 ≤ vec_capacity into.old }
    ensures text { into.new.items
        ≡ into.old.items ++ compact_text (alias_object zone target.now evaluate) }
    ensures len { vec_len into.new ≤ vec_len into.old + 6320 }
    ensures room { vec_capacity into.old ≤ vec_capacity into.new }
{
    put(b"{\"DNSName\":", into);
    put_name(target, into);
    put(b",\"EvaluateTargetHealth\":", into);
    put_flag(evaluate, into);
    put(b",\"HostedZoneId\":", into);
    put_id(b'Z', zone, into);
    put(b"}", into);
}

/// Appends HealthCheckId, where the set names a check.
fn put_check(check: Option<u32>, into: &mut Vec<u8>)
    requires { vec_len into.old + 128 ≤ vec_capacity into.old }
    ensures text { into.new.items
        ≡ into.old.items ++ led (text_of m.HealthCheckId) (check_data check) }
    ensures len { vec_len into.new ≤ vec_len into.old + 128 }
    ensures room { vec_capacity into.old ≤ vec_capacity into.new }
{
    match check {
        Some(check) => put_check_id(check, into),
        None => {}
    }
}

/// Appends HealthCheckId.
fn put_check_id(check: u32, into: &mut Vec<u8>)
    requires { vec_len into.old + 128 ≤ vec_capacity into.old }
    ensures text { into.new.items
        ≡ into.old.items ++ led (text_of m.HealthCheckId) (Some (check_text check)) }
    ensures len { vec_len into.new ≤ vec_len into.old + 128 }
    ensures room { vec_capacity into.old ≤ vec_capacity into.new }
{
    put(b"\"HealthCheckId\":", into);
    put_id(b'h', check, into);
    put(b",", into);
}

/// Begins the list of values; an alias has none.
fn put_opening(alias: &Option<(Name, bool)>, into: &mut Vec<u8>)
    requires { vec_len into.old + 32 ≤ vec_capacity into.old }
    ensures text { into.new.items ≡ into.old.items ++ list_opening alias.now }
    ensures len { vec_len into.new ≤ vec_len into.old + 32 }
    ensures room { vec_capacity into.old ≤ vec_capacity into.new }
{
    match alias {
        Some(_) => {}
        None => put(b",\"ResourceRecords\":[", into),
    }
}

/// Ends the list of values; an alias has none.
fn put_closing(alias: &Option<(Name, bool)>, into: &mut Vec<u8>)
    requires { vec_len into.old + 32 ≤ vec_capacity into.old }
    ensures text { into.new.items ≡ into.old.items ++ list_closing alias.now }
    ensures len { vec_len into.new ≤ vec_len into.old + 32 }
    ensures room { vec_capacity into.old ≤ vec_capacity into.new }
{
    match alias {
        Some(_) => {}
        None => put(b"]", into),
    }
}

/// Appends TTL; an alias has none.
fn put_ttl(alias: &Option<(Name, bool)>, ttl: u32, into: &mut Vec<u8>)
    requires { vec_len into.old + 32 ≤ vec_capacity into.old }
    ensures text { into.new.items
        ≡ into.old.items ++ trailed (text_of m.Ttl) (ttl_data alias.now ttl) }
    ensures len { vec_len into.new ≤ vec_len into.old + 32 }
    ensures room { vec_capacity into.old ≤ vec_capacity into.new }
{
    match alias {
        Some(_) => {}
        None => put_seconds(ttl, into),
    }
}

/// Appends TTL.
fn put_seconds(ttl: u32, into: &mut Vec<u8>)
    requires { vec_len into.old + 32 ≤ vec_capacity into.old }
    ensures text { into.new.items
        ≡ into.old.items ++ trailed (text_of m.Ttl) (Some (count ttl)) }
    ensures len { vec_len into.new ≤ vec_len into.old + 32 }
    ensures room { vec_capacity into.old ≤ vec_capacity into.new }
{
    put(b",\"TTL\":", into);
    put_number(ttl as u64, into);
}

/// Appends the object of a value's text, and a comma before it, where a value stands before.
fn put_value(later: bool, rtype: RType, wire: &[u8], text: &mut ValueText, into: &mut Vec<u8>)
    requires layout { IsLayout rtype wire.now }
    requires room { vec_len into.old + MOST_OF_VALUE ≤ vec_capacity into.old }
    ensures text { into.new.items ≡ into.old.items ++ value_piece later rtype wire.now }
    ensures len { vec_len into.new ≤ vec_len into.old + MOST_OF_VALUE }
    ensures room { vec_capacity into.old ≤ vec_capacity into.new }
{
    put_comma(later, into);
    put(b"{\"Value\":", into);
    put_value_text(rtype, wire, text, into);
    put(b"}", into);
}

/// Appends the text of a value in quotes.
fn put_value_text(rtype: RType, wire: &[u8], text: &mut ValueText, into: &mut Vec<u8>)
    requires layout { IsLayout rtype wire.now }
    requires room { vec_len into.old + 98_306 ≤ vec_capacity into.old }
    ensures text { into.new.items ≡ into.old.items ++ quoted (value.text_of rtype wire.now) }
    ensures len { vec_len into.new ≤ vec_len into.old + 98_306 }
    ensures room { vec_capacity into.old ≤ vec_capacity into.new }
{
    let len = write_text(rtype, wire, &mut text.octets);
    put_quoted(front(&text.octets, len), into);
}
