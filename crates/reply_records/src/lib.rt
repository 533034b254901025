//! Records of sets, written into a reply.
//!
//! One set at a time is loaded, and no memory is taken. Records that don't fit make it a reply that
//! is cut, as `dns_wire` says.
#![tactic(auto)]

mod chosen;
mod delegation;
mod held;
mod joint;
mod negative;
mod seen;

pub use chosen::{first_record, write_chosen, write_first};
pub use delegation::{name_in, write_delegation};
pub use held::{write_one, write_values};
pub use negative::write_soa;
pub use policy_select::{
    HealthView, Selected, descend, descend_held, descend_named, descend_seen, find_group,
    first_answers, views_agree,
};
