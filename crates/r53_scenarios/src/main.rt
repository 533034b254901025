//! Plays each scenario of its folder by a session of the server, over objects in memory.
//!
//! A scenario is a text of lines that a server takes and of what has to come of them. A line is printed
//! for each scenario: how many lines came as it says, or where it first differs, with what was wanted
//! and what came.
#![tactic(auto)]

mod comparing;
mod ending;
mod playing;
mod running;
mod script;
mod setting;
mod stop;
mod words;

use comparing::Difference;
use playing::played;
use std::process::ExitCode;
use std::{fs, io};
use stop::Stop;

fn main(rt: HostRuntime) -> ExitCode {
    match all_played(&rt) {
        Ok(0) => ExitCode::SUCCESS,
        _ => ExitCode::FAILURE,
    }
}

/// Plays the scenarios that the file `scenarios` names, and tells how many differ.
fn all_played(rt: &HostRuntime) -> io::Result<u64> {
    let names = fs::read_to_string(rt, "scenarios")?;
    let mut differ: u64 = 0;
    for name in names.as_str().lines() {
        if differs(rt, name)? {
            differ = differ.saturating_add(1);
        }
    }
    Ok(differ)
}

/// Plays the scenario of a name, prints what it came to, and tells whether it differs.
fn differs(rt: &HostRuntime, name: &str) -> io::Result<bool> {
    let text = fs::read(rt, name)?;
    match played(rt.alloc(), &text) {
        Ok(played) => match played.differs {
            Some((line, difference)) => print_difference(rt, name, line, &difference),
            None => {
                println!(rt; "{name}: {} lines as it says", played.met)?;
                Ok(false)
            }
        },
        Err(stop) => print_stop(rt, name, stop),
    }
}

/// Prints where a scenario differs.
fn print_difference(
    rt: &HostRuntime,
    name: &str,
    line: u64,
    difference: &Difference,
) -> io::Result<bool> {
    let wanted = String::from_utf8_lossy(rt.alloc(), &difference.wanted)?;
    let came = String::from_utf8_lossy(rt.alloc(), &difference.came)?;
    println!(rt; "{name}, line {line}: wanted {wanted}; came {came}")?;
    Ok(true)
}

/// Prints why a scenario can't be played.
fn print_stop(rt: &HostRuntime, name: &str, stop: Stop) -> io::Result<bool> {
    match stop {
        Stop::OutOfMemory => println!(rt; "{name}: out of memory")?,
        Stop::NoStore => println!(rt; "{name}: no store can be made")?,
        Stop::TooMuch => println!(rt; "{name}: more than objects in memory take")?,
        Stop::Line(line, fault) => {
            let text = String::from_utf8_lossy(rt.alloc(), fault.text())?;
            println!(rt; "{name}, line {line}: {text}")?
        }
    }
    Ok(true)
}
