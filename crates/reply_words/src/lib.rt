//! Words and small objects of reply lines, written into a buffer that has room for them: names,
//! types, ids and members.
#![tactic(auto)]

mod words;

pub use reply_model::{Command, InputReason, Made, Outcome, Refusal, Turns, one_outcome};
pub use words::{put_comma, put_id, put_id_object, put_member, put_name, put_type, put_zone};
