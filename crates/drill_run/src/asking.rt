//! What a line asks for, within the bounds of lines.

ghost use Rattle.std.specs.Prelude.{◌≢◌, Err, IfOk};
ghost use Rattle.line_faults.specs.declared.fault.LineFault.TheVariants.{OutOfMemory};
ghost use Rattle.session_model.specs.Asking.{Asks};
ghost use Rattle.session_server.specs.Taking.{IsWithin};

use batch_json::{Line, read_line};
use line_bounds::{read_counts_are_some, read_lines_are_bounded, read_lists_are_asked};
use line_faults::LineFault;
use session_server::read_lines_ask;
use std::alloc::Global;

/// What a line asks for, or its first fault.
pub(crate) fn ask(alloc: Global, line: &[u8]) -> Result<Line, LineFault>
    ensures asks { result ≢ Err OutOfMemory → Asks line.now result }
    ensures within { IfOk result IsWithin }
{
    read_lines_ask();
    read_lines_are_bounded();
    read_lists_are_asked();
    read_counts_are_some();
    read_line(alloc, line)
}
