//! Domain names: lists of labels, equal up to ASCII case (RFC 1035, 2.3.3 and 3.1).
//!
//! A name is kept in lower case, so a reply that has to repeat the case of a question copies the
//! question's bytes.
#![tactic(auto)]

mod fault;
mod laws;
mod name;
mod order;
mod scan;
mod spelling;
mod text;
mod walk;
mod writing;

pub use fault::NameFault;
pub use laws::{
    one_name_at_the_front, one_name_of_a_wire, parents_come_first, texts_read_as_names,
    written_text_reads_back,
};
pub use name::Name;
pub use order::octets_cmp;
pub use scan::lower_name_len;
