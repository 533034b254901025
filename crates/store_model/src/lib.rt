//! What two files open to as a configuration: the snapshot of the one that decides, with the
//! commands of its entries made one after another.
//!
//! The definitions are over lists of octets. That octets are a journal is told by `zone_journal`;
//! what of them is a configuration is told here.
#![tactic(auto)]

mod keeping;
mod laws;

pub use command_bounds::{accepted_are_short, accepted_have_spelling, spelled_are_bounded};
pub use command_codec::read;
pub use config_model::ReadFault;
pub use keeping::{
    appends_keep_store, images_make_store, init_keeps_store, opening_keeps_store, pieces_keep_store,
};
pub use laws::{
    accepted_are_taken, appends_may_open, appends_open, baseless_is_no_store, broken_is_no_store,
    compacted_opens, deciding_opens, empty_is_written, empty_opens, faulty_is_no_store, init_opens,
    last_is_taken, last_was_taken, no_store_or_config, none_or_empty_opens, one_fault,
    one_more_makes, one_more_opens, one_shape, opened_are_sound, pair_opens_to_one_config,
    pieces_follow, pieces_may_open, pieces_open, plan_begins, plan_goes_on, plan_makes,
    refused_are_refused, snapshot_is_read, sound_are_bases, standing_opens, standing_place,
    standing_shapes, store_is_told, taken_are_sound, unread_are_baseless, unread_are_refused,
    unsound_are_baseless,
};
