//! A store over two files: every pair of images that a crash may leave opens, and each call of the
//! journal keeps it so.
//!
//! These are a definition and its laws, for contracts to cite; nothing runs here.
#![tactic(auto)]

mod laws;

pub use laws::{
    append_keeps_store, images_make_store, init_keeps_store, init_makes_store, open_keeps_store,
    piece_keeps_store, stands_has_shape, stands_is_store,
};
