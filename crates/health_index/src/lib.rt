//! The health of every check, set and group of a configuration, kept up to date report by report.
//!
//! A set that nothing decides has no valve: it is healthy, and nothing but its seat is written for it. A set
//! that a check alone decides is as healthy as the check, whose valve its seat tells, but in a target group
//! whose health counts, or did since all was laid out. Room for a valve is kept all the same, so that no command
//! wants memory.
//!
//! The valves are planned (`health_planning`), and then laid out. After a command this is done anew, in room that was
//! made before (`reserving`), but not where little changes (`index` asks, `in_place` does it). So it is where no valve
//! changes by the sets that went and came (`valve_leaving`): then all stays as it is, or their seats alone change; and
//! where one set that nothing decides came or went (`regrouping`): then how many such sets its group counts does; or one
//! evaluated alias, beside another with its target group: then its valve comes behind all (`alias_coming`), or goes on
//! without a node (`unleading`); or the first one that leads to a group in which nothing decides a set (`founding`): then
//! that group gets a valve too; or the last one that leads to a group (`unfounding`): then that group's valve goes on
//! without a node too. These are of `health_standing`. And where checks keep their numbers, or one of an endpoint comes or
//! goes, and no calculated check gets other children (`kin`, `following`): then the valves of checks change in place. Each
//! other check keeps its valve (`valve_numbers`), also where all is laid out anew.
#![tactic(auto)]

mod following;
mod in_place;
mod index;
mod kin;
mod laws;
mod reserving;
mod taking;
mod valve_numbers;

pub use following::Way;
pub use health_valves::Steps;
pub use index::HealthIndex;
pub use laws::{
    aliases_can_come, aliases_can_leave, aliases_have_room, checks_are_later, checks_can_follow,
    first_can_come, first_owned_can_come, index_tells_health, last_can_leave, nodes_are_numbered,
    nodes_have_values, sets_can_regroup,
};
