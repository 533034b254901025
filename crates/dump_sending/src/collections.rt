//! The lines of collections of address blocks.

ghost use Rattle.std.specs.Prelude.{◌≡◌, ◌≤◌, ℕ, vec_capacity};
ghost use Rattle.std.specs.List.{AllByRecursion};
ghost use Rattle.cidr_blocks.specs.Places.{IsCollection};
ghost use Rattle.cidr_blocks.specs.declared.places.Collection.{Collection};
ghost use Rattle.octets.specs.Counts.{Rose};
ghost use Rattle.dump_writing.specs.DumpOfReplyModel.{collection_line};
ghost use Rattle.dump_sending.specs.Dumps.{collections_text};
ghost use Rattle.set_sending.specs.Passing.{PassesOn};

use crate::buffer::ROOM;
use cidr_blocks::Collection;
use dump_writing::{MOST_OF_COLLECTION, write_collection_line};
use r53_io::Sink;
use set_sending::{Output, make_room};

/// Passes on the lines of collections, each with its number.
pub(crate) fn send_collections<K: Sink>(
    collections: &[(u32, Collection)],
    text: &mut Vec<u8>,
    out: &mut K,
) -> Output
    requires each { AllByRecursion (λ (held : ℕ × Collection). IsCollection held.1)
        collections.now }
    requires room { ROOM ≤ vec_capacity text.old }
    ensures passes { PassesOn (K.held out.old) text.old.items (K.held out.new) text.new.items result
        (collections_text collections.now) }
    ensures capacity { vec_capacity text.old ≤ vec_capacity text.new }
    ensures counts { K.faults out.old ≤ K.faults out.new }
    ensures failed { result ≡ Output.Failed → Rose (K.faults out.old) (K.faults out.new) }
{
    for held in collections {
        match send_collection(held, text, out) {
            Output::Whole => {}
            Output::Failed => return Output::Failed,
        }
    }
    Output::Whole
}

/// Passes on the line of a collection.
fn send_collection<K: Sink>(held: &(u32, Collection), text: &mut Vec<u8>, out: &mut K) -> Output
    requires bounded { IsCollection held.now.1 }
    requires room { ROOM ≤ vec_capacity text.old }
    ensures passes { PassesOn (K.held out.old) text.old.items (K.held out.new) text.new.items result
        (collection_line held.now.0 held.now.1) }
    ensures capacity { vec_capacity text.old ≤ vec_capacity text.new }
    ensures counts { K.faults out.old ≤ K.faults out.new }
    ensures failed { result ≡ Output.Failed → Rose (K.faults out.old) (K.faults out.new) }
{
    match make_room(MOST_OF_COLLECTION, text, out) {
        Output::Whole => {
            write_collection_line(held.0, &held.1, text);
            Output::Whole
        }
        Output::Failed => Output::Failed,
    }
}
