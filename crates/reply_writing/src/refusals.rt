//! Why a command was refused, and why a line was not read.

ghost use Rattle.std.specs.Prelude.{◌≡◌, ◌+◌, ◌≤◌, ◌++◌, length, vec_capacity, vec_len};
ghost use Rattle.line_faults.specs.Texts.{reason_text};
ghost use Rattle.reply_words.specs.Errors.{input_reason, line_error, refusal_error, set_reason};
ghost use Rattle.serde_json.specs.Written.{compact_text};

use crate::errors::{
    write_bad_line, write_error, write_error_in_change, write_error_of_check, write_error_of_group,
    write_error_of_key, write_error_of_location, write_error_of_name, write_invalid,
    write_invalid_in_change, write_journal_full, write_no_collection, write_unsupported,
};
use line_faults::{LineFault, LineReason};
use record_set::Reason;
use reply_words::{InputReason, Refusal};

/// Why the set of a change is refused by itself, as it stands in replies.
fn set_reason(why: Reason) -> &'static [u8]
    ensures text { result.now ≡ set_reason why }
    ensures short { length result.now ≤ 32 }
{
    match why {
        Reason::NoValues => b"NoValues",
        Reason::TooManyValuesInSet => b"TooManyValuesInSet",
        Reason::RepeatedValue => b"RepeatedValue",
        Reason::OneValueOnly => b"OneValueOnly",
        Reason::SoaNotAtApex => b"SoaNotAtApex",
        Reason::PolicyNotAllowed => b"PolicyNotAllowed",
        Reason::WildcardNs => b"WildcardNs",
    }
}

/// What is wrong with a command, as it stands in replies.
fn input_reason(why: InputReason) -> &'static [u8]
    ensures text { result.now ≡ input_reason why }
    ensures short { length result.now ≤ 32 }
{
    match why {
        InputReason::EmptyBatch => b"EmptyBatch",
        InputReason::Set(why) => set_reason(why),
        InputReason::BadZoneName => b"BadZoneName",
        InputReason::RepeatedValue => b"RepeatedValue",
        InputReason::ZoneExists => b"ZoneExists",
        InputReason::ChildRepeated => b"ChildRepeated",
        InputReason::ChildTooDeep => b"ChildTooDeep",
        InputReason::WrongMember => b"WrongMember",
        InputReason::CollectionExists => b"CollectionExists",
        InputReason::BlockLength => b"BlockLength",
    }
}

/// The error of a refusal.
pub(crate) fn write_refusal(why: &Refusal, into: &mut Vec<u8>)
    requires room { vec_len into.old + 8000 ≤ vec_capacity into.old }
    ensures text { into.new.items ≡ into.old.items ++ compact_text (refusal_error why.now) }
    ensures len { vec_len into.new ≤ vec_len into.old + 8000 }
    ensures room { vec_capacity into.old ≤ vec_capacity into.new }
{
    match why {
        Refusal::NoSuchHostedZone => write_error(b"NoSuchHostedZone", 1, into),
        Refusal::InvalidInput {
            change: Some(i),
            reason,
        } => write_invalid_in_change(input_reason(*reason), *i, into),
        Refusal::InvalidInput {
            change: None,
            reason,
        } => write_invalid(input_reason(*reason), into),
        Refusal::TooManyValues => write_error(b"TooManyValues", 3, into),
        Refusal::TooManyCharacters => write_error(b"TooManyCharacters", 4, into),
        Refusal::NotInZone(i) => write_error_in_change(b"NotInZone", 5, *i, into),
        Refusal::AlreadyExists(i) => write_error_in_change(b"AlreadyExists", 6, *i, into),
        Refusal::NotFound(i) => write_error_in_change(b"NotFound", 7, *i, into),
        Refusal::ValuesDiffer(i) => write_error_in_change(b"ValuesDiffer", 8, *i, into),
        Refusal::ApexProtected(i) => write_error_in_change(b"ApexProtected", 9, *i, into),
        Refusal::MixedPolicies(key) => write_error_of_key(b"MixedPolicies", 10, key, into),
        Refusal::CnameConflict(name) => write_error_of_name(b"CnameConflict", 11, name, into),
        Refusal::SamePlace(key) => write_error_of_key(b"SamePlace", 12, key, into),
        Refusal::GroupFull(name, rtype) => {
            write_error_of_group(b"GroupFull", 13, name, *rtype, into)
        }
        Refusal::NoSuchHealthCheck(id) => write_error_of_check(b"NoSuchHealthCheck", 14, *id, into),
        Refusal::AliasTargetMissing(key) => {
            write_error_of_key(b"AliasTargetMissing", 15, key, into)
        }
        Refusal::AliasTooDeep(key) => write_error_of_key(b"AliasTooDeep", 16, key, into),
        Refusal::ZoneFull => write_error(b"ZoneFull", 17, into),
        Refusal::StoreFull => write_error(b"StoreFull", 18, into),
        Refusal::JournalFull(length) => write_journal_full(*length, into),
        Refusal::OutOfMemory => write_error(b"OutOfMemory", 20, into),
        Refusal::DiskFault => write_error(b"DiskFault", 21, into),
        Refusal::HostedZoneNotEmpty => write_error(b"HostedZoneNotEmpty", 22, into),
        Refusal::HealthCheckInUse(id) => write_error_of_check(b"HealthCheckInUse", 23, *id, into),
        Refusal::TooManyHealthChecks => write_error(b"TooManyHealthChecks", 24, into),
        Refusal::TooManyHostedZones => write_error(b"TooManyHostedZones", 25, into),
        Refusal::IdsEnded => write_error(b"IdsEnded", 26, into),
        Refusal::TooManyCidrCollections => write_error(b"TooManyCidrCollections", 42, into),
        Refusal::NoSuchCidrCollection(id) => write_no_collection(*id, into),
        Refusal::CidrBlockInUse => write_error(b"CidrBlockInUse", 44, into),
        Refusal::TooManyCidrBlocks => write_error(b"TooManyCidrBlocks", 45, into),
        Refusal::CidrCollectionInUse => write_error(b"CidrCollectionInUse", 46, into),
        Refusal::CidrLocationInUse(location) => {
            write_error_of_location(b"CidrLocationInUse", 47, location.bytes(), into)
        }
        Refusal::NoSuchCidrLocation(location) => {
            write_error_of_location(b"NoSuchCidrLocation", 48, location.bytes(), into)
        }
    }
}

/// The error of a line that was not read.
pub(crate) fn write_fault(why: &LineFault, into: &mut Vec<u8>)
    requires room { vec_len into.old + 8000 ≤ vec_capacity into.old }
    ensures text { into.new.items ≡ into.old.items ++ compact_text (line_error why.now) }
    ensures len { vec_len into.new ≤ vec_len into.old + 8000 }
    ensures room { vec_capacity into.old ≤ vec_capacity into.new }
{
    match why {
        LineFault::BadLine {
            reason,
            member,
            change,
        } => write_bad_line(reason_text(*reason), *member, *change, into),
        LineFault::Unsupported { member, change } => write_unsupported(*member, *change, into),
        LineFault::OutOfMemory => write_error(b"OutOfMemory", 20, into),
    }
}

/// The name of a reason.
#[tactic(auto, using(crate::proofs::Lengths::reason_is_short))]
fn reason_text(reason: LineReason) -> &'static [u8]
    ensures text { result.now ≡ reason_text reason }
    ensures short { length result.now ≤ 32 }
{
    reason.text().as_bytes()
}
