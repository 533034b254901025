//! A law over the definitions, the contract of a function that does nothing.

ghost use Rattle.session_server.specs.Laws.{ReadLinesAsk};

/// What was read of a line is what the line asks for, or its first fault, but for want of memory.
pub fn read_lines_ask()
    ensures { ReadLinesAsk }
{}
