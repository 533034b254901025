//! Laws over the definitions, each the contract of a function that does nothing.

ghost use Rattle.cidr_commands.specs.Kept.{KeepsSound, KeepsUsed, OnlyMembersCount};

use cidr_changes::{changes_keep_collections, changes_keep_placed, one_listing, only_named_count};

/// What a command makes of sound collections is sound, where it has names.
pub fn commands_keep_sound()
    ensures { KeepsSound }
{
    changes_keep_collections();
}

/// A command that is carried out leaves the collections and locations that sets name.
pub fn commands_keep_used()
    ensures { KeepsUsed }
{
    changes_keep_placed();
}

/// The answer to a command hangs on what collections hold and what sets name, and not on the way in
/// which either is listed.
pub fn only_members_count()
    ensures { OnlyMembersCount }
{
    one_listing();
    only_named_count();
}
