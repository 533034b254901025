//! Laws over what is written, each the contract of a function that does nothing.

ghost use Rattle.whole_writing.specs.Output.{FirstPieceFails, PiecesJoin};

/// A piece that is written behind a whole one is the end of the two as one.
pub fn pieces_join()
    ensures { PiecesJoin }
{}

/// A part of the first piece is a part of the two as one.
pub fn first_piece_fails()
    ensures { FirstPieceFails }
{}
