// How many sentences there were, and of which kind.
ghost use Rattle.std.specs.Prelude.{Some};
ghost use Rattle.sentences.specs.Counted.{Counted};
ghost use Rattle.sentences.specs.Shown.{counts_text};

use crate::judgement::Judgement;
use std::fmt;

/// How many sentences were judged, how many of them are formulas, and how many were refused.
#[derive(Clone, Copy, Default)]
pub struct Counts {
    pub sentences: u64,
    pub formulas: u64,
    pub refused: u64,
}

impl Counts {
    /// Counts a judgement.
    pub fn add(&mut self, judgement: Judgement)
        ensures { Counted self.old judgement self.new }
    {
        self.sentences = self.sentences.saturating_add(1);
        match judgement {
            Ok(_) => self.formulas = self.formulas.saturating_add(1),
            Err(_) => self.refused = self.refused.saturating_add(1),
        }
    }
}

impl fmt::Display for Counts {
    ghost output = { λ c. Some (counts_text c) };

    fn fmt<W: fmt::Write>(&self, f: &mut fmt::Formatter<W>) -> fmt::Result {
        let Counts {
            sentences,
            formulas,
            refused,
        } = *self;
        write!(
            f,
            "{sentences} sentences, {formulas} formulas, {refused} refused"
        )
    }
}
