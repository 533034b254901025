//! A line, read once as JSON, and then by its name.

ghost use Rattle.std.specs.Prelude.{◌≡◌, IfOk, IfErr, IfSome, IfNone};
ghost use Rattle.serde_json.specs.Data.{Data};
ghost use Rattle.serde_json.specs.Find.{as_object};
ghost use Rattle.serde_json.specs.View.{view};
ghost use Rattle.line_reading.specs.Reading.{Gives, bad};
ghost use Rattle.line_faults.specs.declared.member.Member.TheVariants as m;
ghost use Rattle.line_faults.specs.declared.fault.LineReason.TheVariants as reason;
ghost use Rattle.line_faults.specs.declared.fault.LineFault.TheVariants.{OutOfMemory};
ghost use Rattle.batch_json.specs.Lines.{IsJson, check_line, collection_line, line_named, line_of};
ghost use Rattle.batch_json.specs.Lines.{one_member, serving_line, zone_line};

use crate::asking::Line;
use crate::commands::{check_command, update_command, zone_command};
use check_lines::{
    create_health_check, delete_health_check, get_health_check_status, observe, update_health_check,
};
use check_model::CheckCommand;
use cidr_lines::{change_collection, create_collection, delete_collection};
use command_octets::Command;
use line_reading::{LineFault, LineReason, Member};
use query_lines::{bind, compact, query, serve};
use serde_json::Value;
use serde_json::error::Category;
use set_lines::change_sets;
use std::alloc::Global;
use zone_lines::{create_hosted_zone, delete_hosted_zone, list_sets};

/// What a line asks for, or its first fault.
///
/// A line that is no JSON value is NotJson. Another one is UnknownLine, unless it is an object of
/// one member whose name is that of a line; of equal names the last counts. Then the faults are
/// those of the member's value, in the order of its members.
pub fn read_line(alloc: Global, line: &[u8]) -> Result<Line, LineFault>
    ensures json { (value : Data) → IsJson line.now value → Gives result (line_of value) }
    ensures not_json { ((value : Data) → IsJson line.now value → ⊥)
        → Gives result (bad reason.NotJson m.Line) }
{
    match json_of(alloc, line)? {
        Some(value) => line_of(alloc, &value),
        None => Err(LineFault::bad(LineReason::NotJson, Member::Line)),
    }
}

/// The JSON value of a line, if it is one.
fn json_of(alloc: Global, line: &[u8]) -> Result<Option<Value>, LineFault>
    ensures some { IfOk result (λ o. IfSome o (λ v. IsJson line.now (view v))) }
    ensures none { IfOk result (λ o. IfNone o ((d : Data) → IsJson line.now d → ⊥)) }
    ensures err { IfErr result (λ fault. fault ≡ OutOfMemory) }
{
    match std::str::from_utf8(line) {
        Err(_) => Ok(None),
        Ok(text) => match Value::from_str(alloc, text) {
            Ok(value) => Ok(Some(value)),
            Err(e) => match e.classify() {
                Category::Memory => Err(LineFault::OutOfMemory),
                _ => Ok(None),
            },
        },
    }
}

/// What a JSON value asks for.
#[tactic(auto, unfolding(crate::specs::Lines::line_of))]
fn line_of(alloc: Global, value: &Value) -> Result<Line, LineFault>
    ensures { Gives result (line_of (view value.now)) }
{
    one_member(value)?;
    line_named(alloc, value)
}

/// That a value is an object of one member.
#[tactic(auto, using(crate::proofs::One::counted))]
fn one_member(value: &Value) -> Result<(), LineFault>
    ensures { Gives result (one_member (as_object (view value.now))) }
{
    let Some(map) = value.as_object() else {
        return Err(LineFault::bad(LineReason::UnknownLine, Member::Line));
    };
    if map.len() != 1 {
        return Err(LineFault::bad(LineReason::UnknownLine, Member::Line));
    }
    Ok(())
}

/// What the line of this name asks for.
#[tactic(auto, unfolding(crate::specs::Lines::line_named))]
fn line_named(alloc: Global, value: &Value) -> Result<Line, LineFault>
    ensures { Gives result (line_named (view value.now)) }
{
    if let Some(line) = zone_line(alloc, value)? {
        return Ok(line);
    }
    if let Some(line) = check_line(alloc, value)? {
        return Ok(line);
    }
    if let Some(line) = collection_line(alloc, value)? {
        return Ok(line);
    }
    if let Some(line) = serving_line(alloc, value)? {
        return Ok(line);
    }
    Err(LineFault::bad(LineReason::UnknownLine, Member::Line))
}

/// A line on hosted zones and their sets.
#[tactic(auto, unfolding(crate::specs::Lines::zone_line))]
fn zone_line(alloc: Global, value: &Value) -> Result<Option<Line>, LineFault>
    ensures { Gives result (zone_line (view value.now)) }
{
    if let Some(line) = value.get(Member::CreateHostedZone.text()) {
        let zone = create_hosted_zone(line)?;
        return Ok(Some(Line::Control(zone_command(zone))));
    }
    if let Some(line) = value.get(Member::DeleteHostedZone.text()) {
        let zone = delete_hosted_zone(line)?;
        return Ok(Some(Line::Control(Command::DeleteZone(zone))));
    }
    if let Some(line) = value.get(Member::ChangeResourceRecordSets.text()) {
        let batch = change_sets(alloc, line)?;
        return Ok(Some(Line::Control(Command::Change(batch))));
    }
    if let Some(line) = value.get(Member::ListResourceRecordSets.text()) {
        let list = list_sets(line)?;
        return Ok(Some(Line::List(list)));
    }
    Ok(None)
}

/// A line on health checks.
#[tactic(auto, unfolding(crate::specs::Lines::check_line))]
fn check_line(alloc: Global, value: &Value) -> Result<Option<Line>, LineFault>
    ensures { Gives result (check_line (view value.now)) }
{
    if let Some(line) = value.get(Member::CreateHealthCheck.text()) {
        let check = create_health_check(alloc, line)?;
        return Ok(Some(Line::Control(Command::Health(check_command(check)))));
    }
    if let Some(line) = value.get(Member::UpdateHealthCheck.text()) {
        let update = update_health_check(alloc, line)?;
        return Ok(Some(Line::Control(Command::Health(update_command(update)))));
    }
    if let Some(line) = value.get(Member::DeleteHealthCheck.text()) {
        let id = delete_health_check(line)?;
        return Ok(Some(Line::Control(Command::Health(CheckCommand::Delete(id)))));
    }
    if let Some(line) = value.get(Member::GetHealthCheckStatus.text()) {
        let id = get_health_check_status(line)?;
        return Ok(Some(Line::Status(id)));
    }
    if let Some(line) = value.get(Member::Observe.text()) {
        let seen = observe(line)?;
        return Ok(Some(Line::Observe(seen)));
    }
    Ok(None)
}

/// A line on collections of address blocks.
#[tactic(auto, unfolding(crate::specs::Lines::collection_line))]
fn collection_line(alloc: Global, value: &Value) -> Result<Option<Line>, LineFault>
    ensures { Gives result (collection_line (view value.now)) }
{
    if let Some(line) = value.get(Member::CreateCidrCollection.text()) {
        let command = create_collection(line)?;
        return Ok(Some(Line::Control(Command::Cidr(command))));
    }
    if let Some(line) = value.get(Member::ChangeCidrCollection.text()) {
        let command = change_collection(alloc, line)?;
        return Ok(Some(Line::Control(Command::Cidr(command))));
    }
    if let Some(line) = value.get(Member::DeleteCidrCollection.text()) {
        let command = delete_collection(line)?;
        return Ok(Some(Line::Control(Command::Cidr(command))));
    }
    Ok(None)
}

/// A line that asks, serves or compacts.
#[tactic(auto, unfolding(crate::specs::Lines::serving_line))]
fn serving_line(alloc: Global, value: &Value) -> Result<Option<Line>, LineFault>
    ensures { Gives result (serving_line (view value.now)) }
{
    if let Some(line) = value.get(Member::Query.text()) {
        let asked = query(alloc, line)?;
        return Ok(Some(Line::Query(asked)));
    }
    if let Some(line) = value.get(Member::Bind.text()) {
        let ports = bind(line)?;
        return Ok(Some(Line::Bind(ports)));
    }
    if let Some(line) = value.get(Member::Serve.text()) {
        let turns = serve(line)?;
        return Ok(Some(Line::Serve(turns)));
    }
    if let Some(line) = value.get(Member::Compact.text()) {
        let pieces = compact(line)?;
        return Ok(Some(Line::Compact(pieces)));
    }
    Ok(None)
}
