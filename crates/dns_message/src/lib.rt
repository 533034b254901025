//! Queries as they come in packets (RFC 1035, 4.1), with what their OPT record tells (RFC 6891).
//!
//! A packet that is no query has an answer too, unless it is shorter than a header or a response itself.
#![tactic(auto)]

mod edns;
mod laws;
mod options;
mod owner;
mod query;
pub mod rcode;
mod read;
mod records;
mod verdict;
mod walked;

pub use ecs_option::ClientSubnet;
pub use laws::{one_judgement, one_list_of_options, one_record, one_split};
pub use query::{Edns, Query, QueryRead};
pub use read::{blank_query, read_over, read_query};
pub use verdict::Verdict;
