//! Report datagrams: what a health checker saw of an endpoint, in one line of text.
//!
//! `OBS h1 0 1` says that checker 0 saw the endpoint of check h1 pass. A datagram of another form is
//! no report; whether there is such a check is asked elsewhere. Nothing here takes memory.
#![tactic(auto)]

mod reading;

pub use check_lines::Observation;
pub use reading::read_report;
