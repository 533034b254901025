//! The laws.

ghost use Rattle.reply_reading.specs.Laws.{OneReply, RepliesReadBack};

use json_round_trip::{one_text, texts_read_back};

/// The object of a reply is read back from its text.
pub fn replies_read_back()
    ensures { RepliesReadBack }
{
    texts_read_back();
}

/// Two outcomes of one text tell the same.
pub fn one_reply()
    ensures { OneReply }
{
    one_text();
}
