//! Laws of what two files open to, and of where a compaction begins.

ghost use Rattle.std.specs.Prelude.{◌≡◌, ◌≤◌, List, ℕ, None, length};
ghost use Rattle.zone_journal.specs.Pairs.{PairOpensToOne};
ghost use Rattle.zone_journal.specs.Standing.{State, StandsOn};
ghost use Rattle.zone_journal.specs.Compacting.{Begins};
ghost use Rattle.zone_journal.specs.declared.answers.Begun.TheVariants as begun;

use file_building::Disk;

/// Two files open to one generation, one snapshot and one list of entries.
pub fn pair_opens_to_one()
    ensures { PairOpensToOne }
{}

/// A journal in which a compaction has begun stands where it stood.
pub fn begins_in_place<D: Disk>()
    ensures { (old new : State) (snapshot : List ℕ) (a b : D)
        → StandsOn D.reading D.images old a b → old.plan ≡ None → length snapshot ≤ 268435435
        → Begins begun.Begun snapshot old new → StandsOn D.reading D.images new a b }
{}
