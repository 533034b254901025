//! Laws over the definitions, each the contract of a function that does nothing.

ghost use Rattle.first_version.specs.Laws.{EmptyIsFormer, FormerStoresOpen, FormerVersionStays};

/// Commands that the rules of the first version accept one after another, from any configuration of
/// it on, are accepted, and lead to the same configuration, which is one of it.
pub fn former_version_stays()
    ensures { FormerVersionStays }
{
    check_model::walks_are_told();
}

/// The empty configuration is one of the first version.
pub fn empty_is_former()
    ensures { EmptyIsFormer }
{}

/// A configuration to which commands of the first version lead is sound, and has a snapshot in that
/// version.
pub fn former_stores_open()
    ensures { FormerStoresOpen }
{
    former_version_stays();
    empty_is_former();
    config_model::commands_keep_sound();
    config_model::empty_is_sound();
    snapshot_octets::sound_have_snapshots();
}
