//! The laws, each the contract of a function that does nothing.

ghost use Rattle.sound_configs.specs.Laws.{IndexServes, SameAreLater, SoundIsServed, SoundIsWatched};

/// Queries can be answered from the zones of a sound configuration.
pub fn sound_is_served()
    ensures { SoundIsServed }
{}

/// What the checks and the sets of a sound configuration name is there, and no walk of checks or of
/// aliases is too long for a recursion on health.
pub fn sound_is_watched()
    ensures { SoundIsWatched }
{}

/// Where an index stands for the zones, the checks and reports, it tells which sets are healthy.
pub fn index_serves()
    ensures { IndexServes }
{
    health_index::index_tells_health();
}

/// Checks that stay as they are follow of themselves.
pub fn same_are_later()
    ensures { SameAreLater }
{}
