//! The lines of a dump that tell a health check and a zone.

ghost use Rattle.std.specs.Prelude.{◌≡◌, ◌+◌, ◌≤◌, ◌++◌, codes, length, map, vec_capacity, vec_len};
ghost use Rattle.check_model.specs.Checks.{IsBounded};
ghost use Rattle.check_model.specs.declared.checks.Check.TheVariants as check;
ghost use Rattle.reply_words.specs.Dump.{alone, check_line, check_object, zone_line, zone_object};
ghost use Rattle.reply_words.specs.Json.{check_text, list_of};
ghost use Rattle.serde_json.specs.Written.{comma_if, compact_text};

use check_model::Check;
use dns_name::Name;
use json_text::{put, put_flag, put_number};
use reply_words::{put_comma, put_id, put_zone};

/// The room that the line of a health check takes, in octets.
pub const MOST_OF_CHECK: usize = 32_768;

/// Appends the line of a zone. The room is that of any reply.
#[tactic(auto, unfolding(reply_model::specs::Dump::zone_line, reply_model::specs::Json::line_of))]
pub fn write_zone_line(id: u32, name: &Name, into: &mut Vec<u8>)
    requires { vec_len into.old + 8192 ≤ vec_capacity into.old }
    ensures text { into.new.items ≡ into.old.items ++ zone_line id name.now }
    ensures len { vec_len into.new ≤ vec_len into.old + 8192 }
    ensures room { vec_capacity into.old ≤ vec_capacity into.new }
{
    put_zone_alone(id, name, into);
    put(b"\n", into);
}

/// Appends the line of a health check.
#[tactic(auto, unfolding(reply_model::specs::Dump::check_line, reply_model::specs::Json::line_of))]
pub fn write_check_line(id: u32, check: &Check, into: &mut Vec<u8>)
    requires bounded { IsBounded check.now }
    requires room { vec_len into.old + MOST_OF_CHECK ≤ vec_capacity into.old }
    ensures text { into.new.items ≡ into.old.items ++ check_line id check.now }
    ensures len { vec_len into.new ≤ vec_len into.old + MOST_OF_CHECK }
    ensures room { vec_capacity into.old ≤ vec_capacity into.new }
{
    put_check_alone(id, check, into);
    put(b"\n", into);
}

/// Appends the object of a zone as the one member of another.
fn put_zone_alone(id: u32, name: &Name, into: &mut Vec<u8>)
    requires { vec_len into.old + 8000 ≤ vec_capacity into.old }
    ensures text { into.new.items
        ≡ into.old.items ++ compact_text (alone (codes "HostedZone") (zone_object id name.now)) }
    ensures len { vec_len into.new ≤ vec_len into.old + 8000 }
    ensures room { vec_capacity into.old ≤ vec_capacity into.new }
{
    put(b"{\"HostedZone\":", into);
    put_zone(id, name, into);
    put(b"}", into);
}

/// Appends the object of a health check as the one member of another.
fn put_check_alone(id: u32, check: &Check, into: &mut Vec<u8>)
    requires bounded { IsBounded check.now }
    requires room { vec_len into.old + 32_000 ≤ vec_capacity into.old }
    ensures text { into.new.items
        ≡ into.old.items ++ compact_text (alone (codes "HealthCheck") (check_object id check.now)) }
    ensures len { vec_len into.new ≤ vec_len into.old + 32_000 }
    ensures room { vec_capacity into.old ≤ vec_capacity into.new }
{
    put(b"{\"HealthCheck\":", into);
    put_check(id, check, into);
    put(b"}", into);
}

/// Appends the object of a health check.
fn put_check(id: u32, check: &Check, into: &mut Vec<u8>)
    requires bounded { IsBounded check.now }
    requires room { vec_len into.old + 31_000 ≤ vec_capacity into.old }
    ensures text { into.new.items ≡ into.old.items ++ compact_text (check_object id check.now) }
    ensures len { vec_len into.new ≤ vec_len into.old + 31_000 }
    ensures room { vec_capacity into.old ≤ vec_capacity into.new }
{
    match check {
        Check::Endpoint {
            threshold,
            inverted,
            disabled,
        } => put_endpoint(id, *threshold, *inverted, *disabled, into),
        Check::Calculated {
            threshold,
            inverted,
            disabled,
            children,
        } => put_calculated(
            id,
            *threshold,
            *inverted,
            *disabled,
            children.as_slice(),
            into,
        ),
    }
}

/// Appends the object of a check of an endpoint.
fn put_endpoint(id: u32, threshold: u8, inverted: bool, disabled: bool, into: &mut Vec<u8>)
    requires { vec_len into.old + 31_000 ≤ vec_capacity into.old }
    ensures text { into.new.items ≡ into.old.items
        ++ compact_text (check_object id (check.Endpoint threshold inverted disabled)) }
    ensures len { vec_len into.new ≤ vec_len into.old + 31_000 }
    ensures room { vec_capacity into.old ≤ vec_capacity into.new }
{
    put(b"{\"Disabled\":", into);
    put_flag(disabled, into);
    put(b",\"FailureThreshold\":", into);
    put_number(threshold as u64, into);
    put(b",\"Id\":", into);
    put_id(b'h', id, into);
    put(b",\"Inverted\":", into);
    put_flag(inverted, into);
    put(b",\"Type\":\"ENDPOINT\"}", into);
}

/// Appends the object of a calculated check.
fn put_calculated(
    id: u32,
    threshold: u16,
    inverted: bool,
    disabled: bool,
    children: &[u32],
    into: &mut Vec<u8>,
)
    requires children { length children.now ≤ 255 }
    requires room { vec_len into.old + 31_000 ≤ vec_capacity into.old }
    ensures text { into.new.items ≡ into.old.items
        ++ compact_text (check_object id
        (check.Calculated threshold inverted disabled children.now)) }
    ensures len { vec_len into.new ≤ vec_len into.old + 31_000 }
    ensures room { vec_capacity into.old ≤ vec_capacity into.new }
{
    put(b"{\"ChildHealthChecks\":", into);
    put_children(children, into);
    put(b",\"Disabled\":", into);
    put_flag(disabled, into);
    put(b",\"HealthThreshold\":", into);
    put_number(threshold as u64, into);
    put(b",\"Id\":", into);
    put_id(b'h', id, into);
    put(b",\"Inverted\":", into);
    put_flag(inverted, into);
    put(b",\"Type\":\"CALCULATED\"}", into);
}

/// Appends the list of the ids of children.
#[tactic(auto, using(crate::proofs::Children::child_more))]
fn put_children(children: &[u32], into: &mut Vec<u8>)
    requires children { length children.now ≤ 255 }
    requires room { vec_len into.old + 30_000 ≤ vec_capacity into.old }
    ensures text { into.new.items
        ≡ into.old.items ++ compact_text (list_of (map check_text children.now)) }
    ensures len { vec_len into.new ≤ vec_len into.old + 30_000 }
    ensures room { vec_capacity into.old ≤ vec_capacity into.new }
{
    put(b"[", into);
    for i in 0..children.len() {
        put_child(i > 0, children[i], into);
    }
    put(b"]", into);
}

/// Appends the id of a child, and a comma before it, where one stands before.
fn put_child(later: bool, child: u32, into: &mut Vec<u8>)
    requires { vec_len into.old + 100 ≤ vec_capacity into.old }
    ensures text { into.new.items
        ≡ into.old.items ++ (comma_if later ++ compact_text (check_text child)) }
    ensures len { vec_len into.new ≤ vec_len into.old + 100 }
    ensures room { vec_capacity into.old ≤ vec_capacity into.new }
{
    put_comma(later, into);
    put_id(b'h', child, into);
}
