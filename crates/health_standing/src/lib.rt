//! What an index of health is, when it stands for a configuration and reports, and by which commands on sets it
//! goes on standing where it stands: no valve changes but by what is counted at it, or that nothing feeds it.
//!
//! Sets give way to others by which no valve changes, or sets come and go beside all valves of sets and groups
//! (`valve_leaving`, `fed_alike`); or one set that nothing decides comes into a group with a valve, or goes
//! from one (`regrouping`); or an evaluated alias goes while another one leads to its target group (`unleading`),
//! or comes while another one does (`alias_coming`); or the first one comes that leads to a group in which nothing
//! decides a set (`founding`), or the last one goes that leads to a group (`unfounding`).
//! Each is told by the seats, the valves and the zones that a command left: what decided a set that went can't
//! be read any more. `health_index` keeps the index and takes the commands.
#![tactic(auto)]

mod alias_coming;
mod coming;
mod fed_alike;
mod finding;
mod founding;
mod regrouping;
mod unfounding;
mod unleading;
mod valve_leaving;

pub use alias_coming::{AliasFeeders, alias_come, own_in, push_alias};
pub use finding::{tells_of_check, valve_of};
pub use founding::{FirstAlias, first_come, note_those, own_valves_in, push_first, seat_first};
pub use regrouping::{group_joined, group_left, one_come, one_gone, put_seat, seat_in};
pub use unfounding::{LastAlias, last_left, note_told, seat_without};
pub use unleading::valve_left;
pub use valve_leaving::{gone_by, leaves_valves, spares_valves};
