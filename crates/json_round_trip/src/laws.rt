//! The laws.

ghost use Rattle.json_round_trip.specs.Laws.{OneText, TextsReadBack};

/// A text is read back as the value that it was written of.
pub fn texts_read_back()
    ensures { TextsReadBack }
{}

/// No two values have one text.
pub fn one_text()
    ensures { OneText }
{}
