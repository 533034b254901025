//! A scenario, played run by run until what comes isn't what it says.
//!
//! By its first octet a line is a comment (`#`) or blank; a row of the tables (`@`); what surrounds the
//! run (`:`); a control line (`>`), or so many of them (`* 40 {..}`); a query in words (`?`); what comes
//! from the network (`~`), for the next line that serves; or what has to come next: a reply (`<`), a
//! line of a reply to a query (`=`), or so many of them (`=* 29 ..`), and the end of the run (`!`). What
//! stands behind the end is another run, on the files that the one before left.

ghost use Rattle.std.specs.Prelude.{◌≤◌, length};

use crate::comparing::{Difference, Stage, begin, compare_end, compare_line};
use crate::running::{Files, files_of, new_files, run};
use crate::script::{Script, take_line};
use crate::stop::Stop;
use scenario_words::{Fault, line_feeds, whole_len};
use std::alloc::Global;
use std::mem::replace;

/// What playing a scenario came to: how many lines were met, and where it first differs.
#[derive(Drop)]
pub struct Outcome {
    pub met: u64,
    pub differs: Option<(u64, Difference)>,
}

/// Plays a scenario.
pub fn played(alloc: Global, text: &[u8]) -> Result<Outcome, Stop> {
    let mut files = new_files(alloc)?;
    let outcome = played_on(alloc, text, &mut files);
    drop(files);
    outcome
}

/// The same on these files.
fn played_on(alloc: Global, text: &[u8], files: &mut Files) -> Result<Outcome, Stop> {
    let mut rest = text;
    let mut number: u64 = 1;
    let mut met: u64 = 0;
    for _turn in 0..text.len() {
        if rest.is_empty() {
            break;
        }
        let (part, behind) = rest.split_at(run_len(rest));
        let outcome = run_played(alloc, part, number, files)?;
        met = met.saturating_add(outcome.met);
        match outcome.differs {
            Some(found) => {
                return Ok(Outcome {
                    met,
                    differs: Some(found),
                });
            }
            None => {}
        }
        number = number.saturating_add(line_feeds(part));
        rest = behind;
    }
    Ok(Outcome { met, differs: None })
}

/// Plays a run that begins at the line of a number, on what the run before left of the files.
fn run_played(alloc: Global, part: &[u8], number: u64, files: &mut Files) -> Result<Outcome, Stop> {
    let mut script = script_of(alloc, part, number)?;
    let outcome = script_played(alloc, part, number, &mut script, files);
    drop(script);
    outcome
}

/// The same with what it is over.
fn script_played(
    alloc: Global,
    part: &[u8],
    number: u64,
    script: &mut Script,
    files: &mut Files,
) -> Result<Outcome, Stop> {
    let begun = files_of(alloc, files, script)?;
    drop(replace(files, begun));
    let came = run(alloc, script, files)?;
    let mut stage = begin(alloc, came);
    let outcome = compared(alloc, part, number, files, &mut stage);
    drop(stage);
    outcome
}

/// What comparing a run with its scenario comes to.
fn compared(
    alloc: Global,
    part: &[u8],
    number: u64,
    files: &Files,
    stage: &mut Stage,
) -> Result<Outcome, Stop> {
    let differs = compare(alloc, part, number, files, stage)?;
    Ok(Outcome {
        met: stage.met,
        differs,
    })
}

/// How many octets the first run has: up to its end, and what is said of the end.
fn run_len(text: &[u8]) -> usize
    ensures { result ≤ length text.now }
{
    let mut at = 0;
    let mut ended = false;
    for _turn in 0..text.len() {
        let rest = &text[at..];
        match rest {
            [] => return at,
            [b'!', ..] => ended = true,
            [b'#' | b'\n', ..] => {}
            _ => {
                if ended {
                    return at;
                }
            }
        }
        at += whole_len(rest);
    }
    at
}

/// What a run of a scenario is over.
fn script_of(alloc: Global, part: &[u8], first: u64) -> Result<Script, Stop> {
    let mut script = Script::new(alloc);
    let mut rest = part;
    let mut number = first;
    for _turn in 0..part.len() {
        if rest.is_empty() {
            break;
        }
        let (line, behind) = rest.split_at(whole_len(rest));
        match take_line(alloc, line, &mut script) {
            Ok(()) => {}
            Err(fault) => return Err(Stop::Line(number, fault)),
        }
        number = number.saturating_add(line_feeds(line));
        rest = behind;
    }
    Ok(script)
}

/// Compares a run with its scenario, line by line.
fn compare(
    alloc: Global,
    part: &[u8],
    first: u64,
    files: &Files,
    stage: &mut Stage,
) -> Result<Option<(u64, Difference)>, Stop> {
    let mut rest = part;
    let mut number = first;
    for _turn in 0..part.len() {
        if rest.is_empty() {
            break;
        }
        let (line, behind) = rest.split_at(whole_len(rest));
        match told(number, compare_line(alloc, line, files, stage))? {
            Some(difference) => return Ok(Some((number, difference))),
            None => {}
        }
        number = number.saturating_add(line_feeds(line));
        rest = behind;
    }
    match told(number, compare_end(alloc, stage))? {
        Some(difference) => Ok(Some((number, difference))),
        None => Ok(None),
    }
}

/// A fault of the line of a number.
fn told(
    number: u64,
    compared: Result<Option<Difference>, Fault>,
) -> Result<Option<Difference>, Stop> {
    match compared {
        Ok(differs) => Ok(differs),
        Err(fault) => Err(Stop::Line(number, fault)),
    }
}
