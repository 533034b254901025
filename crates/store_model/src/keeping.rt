//! Laws of a store whose images open to configurations, each the contract of a function that does
//! nothing.

ghost use Rattle.store_model.specs.Kept.{AppendsKeepStore, ImagesMakeStore, InitKeepsStore};
ghost use Rattle.store_model.specs.Kept.{OpeningKeepsStore, PiecesKeepStore};

use crate::laws::init_opens;
use r53_disk::Disk;

/// The opening of a store leaves it one, whatever it answers.
pub fn opening_keeps_store<D: Disk>()
    ensures { OpeningKeepsStore D.reading D.images D.moment D.images_since }
{}

/// So does the making of one.
pub fn init_keeps_store<D: Disk>()
    ensures { InitKeepsStore D.reading D.images D.moment D.images_since }
{
    init_opens::<D>();
}

/// The append of a command leaves a store, whatever it answers.
pub fn appends_keep_store<D: Disk>()
    ensures { AppendsKeepStore D.images D.moment D.images_since }
{}

/// So does a piece of a compaction.
pub fn pieces_keep_store<D: Disk>()
    ensures { PiecesKeepStore D.images D.moment D.images_since }
{}

/// Two disks in memory that are made with images of a store are one: so crashes of several runs
/// follow one another.
pub fn images_make_store()
    ensures { ImagesMakeStore }
{}
