//! By how much the places of a table of hints are off, part by part of a zone.

ghost use Rattle.std.specs.Prelude.{◌<◌};

/// How many parts a zone has.
const PARTS: usize = 64;

/// How many sets came in front of each part of a zone since its table of hints was made, whose places
/// are those of then.
#[derive(Clone, Copy)]
pub struct Shifts {
    /// A part has two to the power of so many places.
    bits: u32,
    /// How many sets came in front of each part.
    ahead: [u32; 64],
}

impl Shifts {
    /// None came into a zone of so many sets.
    pub fn new(sets: usize) -> Shifts {
        Shifts {
            bits: bits_for(sets),
            ahead: [0; 64],
        }
    }

    /// Where the set stands now that stood at a place then.
    pub fn now(&self, then: usize) -> usize {
        then.saturating_add(self.ahead_of(then))
    }

    /// Where the set stood then that stands at a place now, or would have stood: nearly.
    pub fn then(&self, now: usize) -> usize {
        let near = now.saturating_sub(self.ahead_of(now));
        now.saturating_sub(self.ahead_of(near))
    }

    /// A set came to where another stood then.
    pub fn came(&mut self, then: usize) {
        for part in part_of(then, self.bits) + 1..PARTS {
            self.ahead[part] = self.ahead[part].wrapping_add(1);
        }
    }

    /// How many sets came in front of the part of a place.
    fn ahead_of(&self, then: usize) -> usize {
        self.ahead[part_of(then, self.bits)] as usize
    }
}

/// The part in which a place is.
fn part_of(place: usize, bits: u32) -> usize
    ensures { result < 64 }
{
    place.wrapping_shr(bits).min(PARTS - 1)
}

/// How large parts are of so many places, as a power of two: from 32 places on half of all parts or
/// more are used.
fn bits_for(places: usize) -> u32 {
    for bits in 0..31u32 {
        if places >> bits < PARTS {
            return bits;
        }
    }
    31
}
