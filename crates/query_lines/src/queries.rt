//! The line that asks as a packet would.

ghost use Rattle.std.specs.Prelude.{◌≡◌, ◌-◌, ◌^◌, length};
ghost use Rattle.serde_json.specs.Data.{item, no_items};
ghost use Rattle.serde_json.specs.View.{view, items_view};
ghost use Rattle.line_reading.specs.Reading.{Gives, each};
ghost use Rattle.line_reading.specs.Kinds.{number};
ghost use Rattle.query_lines.specs.Queries.{query, address, words};

use crate::packets::{Packet, read_packet};
use line_reading::{LineFault, LineReason, Member, list, number, object, optional, required};
use prefix_text::{IpAddress, read_address};
use serde_json::Value;
use std::alloc::Global;

/// A query that is asked by a line.
#[derive(Drop)]
pub struct QueryLine {
    pub packet: Packet,
    /// Whose packet it is.
    pub address: IpAddress,
    /// The random words that choices take.
    pub words: [u64; 8],
}

/// The line Query.
#[tactic(auto, unfolding(crate::specs::Queries::query))]
pub fn query(alloc: Global, value: &Value) -> Result<QueryLine, LineFault>
    ensures { Gives result (query (view value.now)) }
{
    object(
        value,
        Member::Query,
        &[],
        &[Member::Packet, Member::Address, Member::Words],
    )?;
    let packet = read_packet(alloc, Member::Packet, required(value, Member::Packet)?)?;
    let address = address(Member::Address, required(value, Member::Address)?)?;
    let words = optional(value, Member::Words, words)?.unwrap_or([0; 8]);
    Ok(QueryLine {
        packet,
        address,
        words,
    })
}

/// An address of either version.
#[tactic(auto, unfolding(crate::specs::Queries::address))]
fn address(member: Member, value: &Value) -> Result<IpAddress, LineFault>
    ensures { result ≡ address member (view value.now) }
{
    let Some(text) = value.as_str() else {
        return Err(LineFault::bad(LineReason::WrongKind, member));
    };
    match read_address(text.as_bytes()) {
        Some(address) => Ok(address),
        None => Err(LineFault::bad(LineReason::BadAddress, member)),
    }
}

/// A list of eight numbers.
#[tactic(auto, unfolding(crate::specs::Queries::words))]
fn words(member: Member, value: &Value) -> Result<[u64; 8], LineFault>
    ensures { result ≡ words member (view value.now) }
{
    let items = list(8, 8, member, value)?;
    words_of(member, items)
}

/// Eight numbers.
fn words_of(member: Member, items: &[Value]) -> Result<[u64; 8], LineFault>
    requires { length items.now ≡ 8 }
    ensures { result ≡ each (λ _. number 0 (2 ^ 64 - 1) member) 0 (items_view items.now) }
{
    let (a, b, c, d, e, f, g, h) = eight(items);
    let a = word(member, a)?;
    let b = word(member, b)?;
    let c = word(member, c)?;
    let d = word(member, d)?;
    let e = word(member, e)?;
    let f = word(member, f)?;
    let g = word(member, g)?;
    let h = word(member, h)?;
    Ok([a, b, c, d, e, f, g, h])
}

/// A number below 2^64.
fn word(member: Member, value: &Value) -> Result<u64, LineFault>
    ensures { result ≡ number 0 (2 ^ 64 - 1) member (view value.now) }
{
    number(0, u64::MAX, member, value)
}

/// The items of a list of eight.
fn eight(
    items: &[Value],
) -> (
    &Value,
    &Value,
    &Value,
    &Value,
    &Value,
    &Value,
    &Value,
    &Value,
)
    requires { length items.now ≡ 8 }
    ensures { items_view items.now
        ≡ item (view result.0.now) (item (view result.1.now) (item (view result.2.now)
        (item (view result.3.now) (item (view result.4.now) (item (view result.5.now)
        (item (view result.6.now) (item (view result.7.now) no_items))))))) }
{
    (
        &items[0], &items[1], &items[2], &items[3], &items[4], &items[5], &items[6], &items[7],
    )
}
