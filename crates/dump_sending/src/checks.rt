//! The lines of health checks.

ghost use Rattle.std.specs.Prelude.{◌≡◌, ◌≤◌, ℕ, vec_capacity};
ghost use Rattle.std.specs.List.{AllByRecursion};
ghost use Rattle.check_model.specs.Checks.{IsBounded};
ghost use Rattle.check_model.specs.declared.checks.Check.{Check};
ghost use Rattle.octets.specs.Counts.{Rose};
ghost use Rattle.dump_writing.specs.DumpOfReplyModel.{check_line};
ghost use Rattle.dump_sending.specs.Dumps.{checks_text};
ghost use Rattle.set_sending.specs.Passing.{PassesOn};

use crate::buffer::ROOM;
use check_model::Check;
use dump_writing::{MOST_OF_CHECK, write_check_line};
use r53_io::Sink;
use set_sending::{Output, make_room};

/// Passes on the lines of health checks, each with its number.
pub(crate) fn send_checks<K: Sink>(
    checks: &[(u32, Check)],
    text: &mut Vec<u8>,
    out: &mut K,
) -> Output
    requires bounded { AllByRecursion (λ (held : ℕ × Check). IsBounded held.1) checks.now }
    requires room { ROOM ≤ vec_capacity text.old }
    ensures passes { PassesOn (K.held out.old) text.old.items (K.held out.new) text.new.items result
        (checks_text checks.now) }
    ensures capacity { vec_capacity text.old ≤ vec_capacity text.new }
    ensures counts { K.faults out.old ≤ K.faults out.new }
    ensures failed { result ≡ Output.Failed → Rose (K.faults out.old) (K.faults out.new) }
{
    for held in checks {
        match send_check(held, text, out) {
            Output::Whole => {}
            Output::Failed => return Output::Failed,
        }
    }
    Output::Whole
}

/// Passes on the line of a health check.
fn send_check<K: Sink>(held: &(u32, Check), text: &mut Vec<u8>, out: &mut K) -> Output
    requires bounded { IsBounded held.now.1 }
    requires room { ROOM ≤ vec_capacity text.old }
    ensures passes { PassesOn (K.held out.old) text.old.items (K.held out.new) text.new.items result
        (check_line held.now.0 held.now.1) }
    ensures capacity { vec_capacity text.old ≤ vec_capacity text.new }
    ensures counts { K.faults out.old ≤ K.faults out.new }
    ensures failed { result ≡ Output.Failed → Rose (K.faults out.old) (K.faults out.new) }
{
    match make_room(MOST_OF_CHECK, text, out) {
        Output::Whole => {
            write_check_line(held.0, &held.1, text);
            Output::Whole
        }
        Output::Failed => Output::Failed,
    }
}
