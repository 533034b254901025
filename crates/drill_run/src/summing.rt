//! The summary of a drill.

ghost use Rattle.std.specs.Prelude.{◌≡◌, ◌+◌, ◌≤◌, ◌++◌, length, vec_capacity, vec_len};
ghost use Rattle.std.specs.Fmt.{decimal};
ghost use Rattle.drill_run.specs.Drills.{summary_of};

use crate::counting::Tally;
use json_text::{put, put_number};

/// The room that a summary takes, of which the longest has 234 octets.
pub(crate) const ROOM: usize = 256;

/// Writes the summary of a drill into a buffer.
pub(crate) fn write_summary(events: u32, healthy: u64, tally: &Tally, text: &mut Vec<u8>)
    requires { ROOM ≤ vec_capacity text.old }
    ensures { text.new.items ≡ summary_of events healthy tally.now }
{
    text.clear();
    put_count(b"{\"Batches\":", tally.batches, text);
    put_count(b",\"Drill\":", u64::from(events), text);
    put_count(b",\"Healthy\":", healthy, text);
    put_count(b",\"NxDomain\":", tally.missing, text);
    put_count(b",\"Ok\":\"drill\",\"Records\":", tally.records, text);
    put_count(b",\"ReplyBytes\":", tally.octets, text);
    put_count(b",\"Reports\":", tally.reports, text);
    put(b"}\n", text);
}

/// Appends a name and a count.
fn put_count(name: &[u8], count: u64, text: &mut Vec<u8>)
    requires { vec_len text.old + (length name.now + 20) ≤ vec_capacity text.old }
    ensures text { text.new.items ≡ text.old.items ++ (name.now ++ decimal count) }
    ensures len { vec_len text.new ≤ vec_len text.old + (length name.now + 20) }
    ensures room { vec_capacity text.old ≤ vec_capacity text.new }
{
    put(name, text);
    put_number(count, text);
}
