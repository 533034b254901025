//! Laws of a store, each the contract of a function that does nothing.

ghost use Rattle.std.specs.Prelude.{◌≡◌, List, ℕ, [], Some};
ghost use Rattle.r53_disk.specs.Memory.{History, IsImage};
ghost use Rattle.gate_journal.specs.declared.answers.Appended.{Appended};
ghost use Rattle.zone_journal.specs.Pairs.{EachPair, Unwritten};
ghost use Rattle.file_building.specs.Building.{Plan};
ghost use Rattle.zone_journal.specs.Standing.{State, StandsOn};
ghost use Rattle.zone_journal.specs.Appending.{MayLeave};
ghost use Rattle.zone_journal.specs.Compacting.{IsOldOrNew};
ghost use Rattle.zone_journal.specs.Making.{InitGives, InitLeaves};
ghost use Rattle.zone_journal.specs.declared.answers.Init.{Init};
ghost use Rattle.zone_journal.specs.declared.answers.Init.TheVariants as init;
ghost use Rattle.journal_store.specs.Store.{IsStore, HasShape};

use r53_disk::Disk;

/// Where a journal stands, every image pair opens by its side, to its generation, with the closed
/// gate at its place.
pub fn stands_has_shape<D: Disk>()
    ensures { (v : State) (a b : D) (x y : List ℕ)
        → StandsOn D.reading D.images v a b → D.reading a ≡ Some x → D.reading b ≡ Some y
        → HasShape D.images v a b }
{}

/// Two disks on which a journal stands are a store.
pub fn stands_is_store<D: Disk>()
    ensures { (v : State) (a b : D) (x y : List ℕ)
        → StandsOn D.reading D.images v a b → D.reading a ≡ Some x → D.reading b ≡ Some y
        → IsStore D.images a b }
{}

/// A store that was made is one.
pub fn init_makes_store<D: Disk>()
    ensures { (x y : List ℕ) (a b : D)
        → InitGives D.reading D.images init.Done x y a b → IsStore D.images a b }
{}

/// Where two disks are a store, the making of one leaves them so, whatever it answers.
pub fn init_keeps_store<D: Disk>()
    ensures { (result : Init) (x y : List ℕ) (a_old a_new b_old b_new : D)
        → D.reading a_old ≡ Some x → D.reading b_old ≡ Some y
        → InitGives D.reading D.images result x y a_new b_new
        → InitLeaves D.reading D.images D.moment D.images_since result x y a_old a_new b_old b_new
        → Unwritten D.reading D.images D.moment D.images_since b_old b_new
        → IsStore D.images a_old b_old → IsStore D.images a_new b_new }
{}

/// Opening a store leaves it one, whatever it answers.
pub fn open_keeps_store<D: Disk>()
    ensures { (a_old a_new b_old b_new : D)
        → Unwritten D.reading D.images D.moment D.images_since a_old a_new
        → Unwritten D.reading D.images D.moment D.images_since b_old b_new
        → IsStore D.images a_old b_old → IsStore D.images a_new b_new }
{}

/// An append leaves a store, whatever it answers.
pub fn append_keeps_store<D: Disk>()
    ensures { (result : Appended) (g : ℕ) (s : List ℕ) (es : List (List ℕ)) (entry : List ℕ)
        (a_old a_new b_old b_new : D)
        → EachPair D.moment D.images_since a_old a_new b_old b_new (MayLeave result g s es entry)
        → IsStore D.images a_new b_new }
{}

/// A piece of a compaction leaves a store, whatever it answers.
pub fn piece_keeps_store<D: Disk>()
    ensures { (v : State) (p : Plan) (g : ℕ) (s : List ℕ) (es since : List (List ℕ))
        (a_old a_new b_old b_new : D)
        → EachPair D.moment D.images_since a_old a_new b_old b_new (IsOldOrNew v p g s es since)
        → IsStore D.images a_new b_new }
{}

/// Two disks in memory that are made with images of a store are a store: so crashes of several runs chain.
pub fn images_make_store()
    ensures { (a b c d : History) → IsStore IsImage a b
        → IsImage a c.first → c.steps ≡ [] → IsImage b d.first → d.steps ≡ []
        → IsStore IsImage c d }
{}
