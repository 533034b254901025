//! Health of checks, sets and groups as it follows from all reports, by a recursion that keeps
//! nothing.
//!
//! Everything here is a definition or a law, for contracts to cite. What is kept from report to
//! report stands above.
#![tactic(auto)]

mod laws;

pub use laws::{
    few_equations_change, healthy_are_listed, new_check_has_none, one_health, one_more_report,
    one_node, one_pass, paths_end, recursion_meets_equations,
};
