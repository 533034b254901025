//! What an edit tells: references that went and came.

use zone_list::SetRefs;

/// What an edit took away from a zone and put into it. A set that was replaced stands in both
/// lists.
#[derive(Drop)]
pub struct Delta {
    /// The number of the zone.
    pub zone: u32,
    /// The references of the sets that went. They may name other sets from now on.
    pub removed: SetRefs,
    /// The references of the sets that came.
    pub added: SetRefs,
}
