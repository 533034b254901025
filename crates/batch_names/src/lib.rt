//! A batch is decided by the sets of the names that it names: the rules that sets meet together
//! look at one name at a time, so that all other sets of a zone may be left out.
//!
//! It holds of a zone that meets these rules before the batch. What a batch is refused for behind
//! them, as a zone that is full or an alias that leads nowhere, wants the whole zone.
#![tactic(auto)]

mod finding;
mod held;
mod keyed;
mod laws;
mod starts;

pub use finding::named_sets;
pub use keyed::keyed_set;
pub use laws::names_decide;
pub use zone_table::{Scratch, SetKeys, Sets, Zones, one_apex, sets_of_one};
