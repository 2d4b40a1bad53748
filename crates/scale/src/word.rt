// Sixty-four flags side by side.
ghost use Rattle.std.specs.Prelude.{◌≡◌, ◌^◌, ◌<◌};

use crate::{Answers, Scale};

/// Sixty-four flags side by side, flag k in bit k.
// In a law a number has no bound of its own, so the struct says that it is below 2^64: the laws hold of each of its values.
#[derive(Clone, Copy, PartialEq, Eq, Debug)]
pub struct Word {
    pub bits: u64,
    ghost small: { bits < 2 ^ 64 },
}

impl Word {
    ghost use Rattle.scale.specs.Words.{bit_in};

    /// The word with these bits.
    pub fn new(bits: u64) -> Word
        ensures { result.bits ≡ bits }
    {
        Word { bits }
    }

    /// Bit k, counted from the lowest; there is none past 63.
    pub fn bit(self, k: u8) -> bool
        ensures { result ≡ bit_in k self }
    {
        k < 64 && (self.bits >> k) & 1 == 1
    }
}

#[tactic(auto, using(crate::specs::WordsLemmas::word_path))]
impl Answers for Word {
    ghost use Rattle.logic.proofs.Boolean;
    ghost use Rattle.scale.specs.Words.{word_algebra};
    ghost use Rattle.scale.specs.WordsLemmas.{word_laws};

    ghost algebra = { word_algebra };

    ghost judgeable = { Boolean.judgeable word_laws };

    fn top() -> Word {
        Word { bits: u64::MAX }
    }

    fn bottom() -> Word {
        Word { bits: 0 }
    }

    fn and(self, other: Word) -> Word {
        Word {
            bits: self.bits & other.bits,
        }
    }

    fn or(self, other: Word) -> Word {
        Word {
            bits: self.bits | other.bits,
        }
    }

    fn not(self) -> Word {
        Word { bits: !self.bits }
    }

    fn is_top(self) -> bool {
        self.bits == u64::MAX
    }
}

impl Scale for Word {
    ghost use Rattle.scale.specs.WordsLemmas.{word_laws};

    ghost laws = { word_laws };
}
