// A sheet of sentences, taken byte by byte.
ghost use Rattle.std.specs.Prelude.{◌≡◌, []};
ghost use Rattle.sentences.specs.Held.{Holds};
ghost use Rattle.sentences.specs.Counted.{none_counted};

use crate::counts::Counts;
use std::alloc::{AllocError, Global};

/// The most bytes of a sentence that are held. The text of a formula within the limits is far shorter, so what is wrong with a
/// longer sentence shows in these.
pub const HELD: usize = 32768;

/// The sentence that is being taken, its first bytes as far as they are held, and the counts of those before it.
#[derive(Drop)]
pub struct Sheet {
    pub sentence: Vec<u8>,
    pub counts: Counts,
}

impl Sheet {
    /// A sheet of which nothing was taken.
    pub fn new(heap: Global) -> Sheet
        ensures { (result.sentence.items ≡ []) × (result.counts ≡ none_counted) }
    {
        Sheet {
            sentence: Vec::new(heap),
            counts: Counts::default(),
        }
    }

    /// Adds a byte to the sentence.
    pub fn hold(&mut self, byte: u8) -> Result<(), AllocError>
        ensures bytes { Holds self.old.sentence.items byte result self.new.sentence.items }
        ensures counts { self.new.counts ≡ self.old.counts }
    {
        if self.sentence.len() < HELD {
            self.sentence.push(byte)?;
        }
        Ok(())
    }

    /// Begins the next sentence.
    pub fn next(&mut self)
        ensures bytes { self.new.sentence.items ≡ [] }
        ensures counts { self.new.counts ≡ self.old.counts }
    {
        self.sentence.clear();
    }
}
