//! The random words of a scenario: those that it gives, and then zeros.

use rand_core::Rng;
use rand_core::utils::{NextWord, fill_bytes_via_u64};
use std::marker::Model;

/// The random words of a scenario.
#[derive(Drop)]
pub struct ScriptWords {
    words: Vec<u64>,
    at: usize,
}

impl Model for ScriptWords {
    ghost use Rattle.std.specs.Prelude.{ℕ, List, drop};

    ghost Value = { List ℕ };

    ghost view = { λ s. drop s.at s.words.items };
}

impl ScriptWords {
    /// A generator that gives these words, and then zeros.
    pub fn new(words: Vec<u64>) -> ScriptWords {
        ScriptWords { words, at: 0 }
    }
}

impl NextWord<u64> for ScriptWords {
    ghost use Rattle.r53_scenarios.specs.Words.{next_of};

    ghost step = { next_of };

    fn next_word(&mut self) -> u64 {
        match self.words.get(self.at) {
            Some(word) => {
                self.at += 1;
                *word
            }
            None => 0,
        }
    }
}

impl Rng for ScriptWords {
    ghost use Rattle.rand_core.specs.Steps.{steps_u64_low, stream_of};
    ghost use Rattle.r53_scenarios.specs.Words.{next_of};

    ghost stream = { stream_of (steps_u64_low next_of) };

    fn next_u32(&mut self) -> u32 {
        (self.next_word() % 0x1_0000_0000) as u32
    }

    fn next_u64(&mut self) -> u64 {
        self.next_word()
    }

    fn fill_bytes(&mut self, dst: &mut [u8]) {
        fill_bytes_via_u64(self, dst)
    }
}
