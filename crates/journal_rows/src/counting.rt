//! A disk as large as one likes, since it keeps no byte.

ghost use Rattle.std.specs.Prelude.{◌≡◌, ℕ, List, None};

use r53_disk::{Disk, Done, Size};

/// A disk that counts its bytes and keeps none of them, and tells nothing.
#[derive(Drop)]
pub struct CountingDisk {
    pub size: u64,
}

impl Disk for CountingDisk {
    ghost use Rattle.std.specs.Prelude.{None};

    ghost reading = { λ _. None };

    ghost images = { λ _ _. ⊥ };

    ghost moment = { λ _. 0 };

    ghost images_since = { λ _ _ _. ⊥ };

    ghost faults = { λ _. 0 };

    ghost alike = { λ disk other bytes told. Prim.cc };

    ghost is_image = { λ disk bytes told. Prim.cc };

    ghost counts_now = { λ disk t c le now. now };

    ghost only_now = { λ disk c left. left };

    fn size(&mut self) -> Size {
        Size::Bytes(self.size)
    }

    fn read_at(&mut self, _at: u64, into: &mut [u8]) -> Done {
        into.fill(0);
        Done::Whole
    }

    fn write_at(&mut self, at: u64, from: &[u8]) -> Done {
        self.size = self.size.max(at.saturating_add(from.len() as u64));
        Done::Whole
    }

    fn sync(&mut self) -> Done {
        Done::Whole
    }
}
