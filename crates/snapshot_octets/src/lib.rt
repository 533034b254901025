//! The octets of a whole configuration: a snapshot, with which a journal file begins.
//!
//! There are three versions. The first is that of an earlier server, whose checks couldn't be
//! disabled; the second is written as long as there never was a collection, and else the third.
#![tactic(auto)]

mod laws;

pub use config_model::{
    ReadFault, RecordSet, read_set, sets_are_told, write_blocks, write_name, written_reads_back,
};
pub use laws::{
    one_configuration, snapshots_are_told, snapshots_read_back, sound_are_short,
    sound_have_snapshots,
};
