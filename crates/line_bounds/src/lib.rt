//! What is known of what lines ask for: each command is within the bounds of commands, each list of
//! a command on collections is as short as a line may have it, and so are lists of sets and counts.
//!
//! A line bounds what stands in it alone. Which zones, checks and collections are there, it can't
//! know.
#![tactic(auto)]

mod laws;

pub use batch_json::{Line, read_line};
pub use command_bounds::Command;
pub use laws::{
    lines_are_bounded, read_counts_are_some, read_lines_are_bounded, read_lists_are_asked,
    texts_are_prefixes, texts_are_values,
};
pub use page_laws::Outcome;
pub use query_lines::{Ports, QueryLine};
pub use zone_lines::ListOfSets;
