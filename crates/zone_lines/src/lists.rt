//! The line that asks for the sets of a zone.

ghost use Rattle.std.specs.Prelude.{◌≡◌};
ghost use Rattle.serde_json.specs.View.{view};
ghost use Rattle.zone_lines.specs.Zones.{list_sets, max_items, items_of, number_of_text};

use dns_name::Name;
use line_reading::{
    LineFault, LineReason, Member, name, number_u16, object, one_of_texts, optional, optional_word,
    required, zone_id,
};
use line_words::{ident_of_text, record_type};
use rdata_layout::RType;
use routing::Ident;
use serde_json::Value;

/// Which sets of a zone are asked for.
#[derive(Clone, Copy)]
pub struct ListOfSets {
    /// The number of the zone.
    pub zone: u32,
    /// Where the list starts.
    pub name: Option<Name>,
    pub rtype: Option<RType>,
    pub ident: Option<Ident>,
    /// How many sets at most: 1 to 300.
    pub items: u16,
}

/// The line ListResourceRecordSets.
#[tactic(auto, unfolding(crate::specs::Zones::list_sets))]
pub fn list_sets(value: &Value) -> Result<ListOfSets, LineFault>
    ensures { result ≡ list_sets (view value.now) }
{
    object(
        value,
        Member::ListResourceRecordSets,
        &[],
        &[
            Member::HostedZoneId,
            Member::StartRecordName,
            Member::StartRecordType,
            Member::StartRecordIdentifier,
            Member::MaxItems,
        ],
    )?;
    let zone = zone_id(Member::HostedZoneId, required(value, Member::HostedZoneId)?)?;
    let name = optional(value, Member::StartRecordName, |m, v| name(m, v))?;
    let rtype = optional(value, Member::StartRecordType, |m, v| record_type(m, v))?;
    let ident = optional_word(
        value,
        Member::StartRecordIdentifier,
        |text| ident_of_text(text),
    )?;
    let items = optional(value, Member::MaxItems, max_items)?;
    if rtype.is_some() && name.is_none() {
        return Err(LineFault::bad(LineReason::Missing, Member::StartRecordName));
    }
    if ident.is_some() && rtype.is_none() {
        return Err(LineFault::bad(LineReason::Missing, Member::StartRecordType));
    }
    Ok(ListOfSets {
        zone,
        name,
        rtype,
        ident,
        items: items.unwrap_or(300),
    })
}

/// How many sets at most: a number, or a text of digits.
#[tactic(auto, unfolding(crate::specs::Zones::max_items))]
fn max_items(member: Member, value: &Value) -> Result<u16, LineFault>
    ensures { result ≡ max_items member (view value.now) }
{
    match value.as_str() {
        Some(_) => one_of_texts(member, value, |text| items_of(text)),
        None => number_u16(1, 300, member, value),
    }
}

/// The number of a text of digits, 1 to 300.
fn items_of(text: &str) -> Option<u16>
    ensures { result ≡ items_of text.now }
{
    let n = number_of_text(text.as_bytes())?;
    if n == 0 {
        return None;
    }
    Some(n)
}

/// The number of a text of digits, at most 300.
fn number_of_text(digits: &[u8]) -> Option<u16>
    ensures { result ≡ number_of_text 0 digits.now }
{
    let mut number: u16 = 0;
    for digit in digits {
        if *digit < b'0' || *digit > b'9' {
            return None;
        }
        number = number * 10 + u16::from(*digit - b'0');
        if number > 300 {
            return None;
        }
    }
    Some(number)
}
