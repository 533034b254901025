//! The additional records, walked for the OPT record among them (RFC 1035, 4.1.3; RFC 6891, 6.1.1).

ghost use Rattle.std.specs.Prelude.{◌≡◌, ◌≤◌, ℕ, List, ◌∷◌, [], ◌++◌, length, drop, IfSome, IfNone};
ghost use Rattle.dns_message.specs.Edns.{opts_of};
ghost use Rattle.dns_message.specs.Records.{AnyRecord, record_of};
ghost use Rattle.dns_message.specs.Walk.{BeginsWithoutRecord, HasPlace, HasFound, WalksTo};

use crate::owner::owner_len;
use crate::walked::Walked;
use octets::{behind, number_at};

/// The type of the record (RFC 6891, 6.1.1).
const OPT: u16 = 41;

/// The octets of a record between its owner and its data.
const FIXED_LEN: usize = 10;

/// A record at the front of octets.
#[derive(Clone, Copy)]
struct Place {
    /// How many octets its owner has.
    owner_len: usize,
    /// How many octets it has in all.
    size: usize,
}

/// The OPT record among so many records at the front.
pub(crate) fn opt_among(octets: &[u8], count: u16) -> Walked
    ensures { WalksTo octets.now count result }
{
    let mut at = 0;
    let mut found = Walked::Plain;
    for _ in 0..count {
        let rest = behind(octets, at);
        let Some(place) = place_of(rest) else {
            return Walked::Broken;
        };
        found = with_record(found, rest, at, place);
        at += place.size;
    }
    found
}

/// The record at the front, where a whole one stands there.
fn place_of(octets: &[u8]) -> Option<Place>
    ensures some { IfSome result (HasPlace octets.now) }
    ensures none { IfNone result (BeginsWithoutRecord octets.now) }
{
    let Some(owner_len) = owner_len(octets) else {
        return None;
    };
    if octets.len() - owner_len < FIXED_LEN {
        return None;
    }
    let size = owner_len + FIXED_LEN + number_at(octets, owner_len + 8) as usize;
    if size > octets.len() {
        return None;
    }
    Some(Place { owner_len, size })
}

/// What is known when one more record was looked at, the one at the front, which stands at a place.
fn with_record(found: Walked, octets: &[u8], at: usize, place: Place) -> Walked
    requires { HasPlace octets.now place }
    ensures { (all : List ℕ) (opts : List AnyRecord) → at ≤ length all → octets.now ≡ drop at all
        → HasFound all opts found
        → HasFound all (opts ++ opts_of (record_of octets.now place.owner_len ∷ [])) result }
{
    if number_at(octets, place.owner_len) != OPT {
        return found;
    }
    let Walked::Plain = found else {
        return Walked::Broken;
    };
    if octets[0] != 0 {
        return Walked::Broken;
    }
    Walked::At(at)
}
