// A row of mileposts, computed.
ghost use Rattle.std.specs.Prelude.{◌≡◌, ◌≤◌, Some, IfOk, IfErr};
ghost use Rattle.run.specs.Inside.{most_elements};

use crate::checks::sized;
use crate::{MOST_ELEMENTS, Run};
use fault::Fault;
use scale::{Answers, Flag};

/// A row of mileposts: c0 is the first, f0 goes to the next or stays at the last, r0 says which comes before which.
#[derive(Clone, Copy)]
pub struct MilepostRun {
    size: u8,
    ghost some: { 1 ≤ size },
    ghost few: { size ≤ most_elements },
}

impl MilepostRun {
    ghost use Rattle.run.specs.Mileposts.{milepost_fault, MilepostMade};

    /// The row of so many mileposts, at most `MOST_ELEMENTS`.
    pub fn new(size: u8) -> Result<MilepostRun, Fault>
        ensures made { IfOk result (λ run. MilepostMade size (⟦<MilepostRun as Run>⟧.meaning run)) }
        ensures refused { IfErr result (λ e. milepost_fault size ≡ Some e) }
    {
        Ok(MilepostRun {
            size: sized(size, MOST_ELEMENTS)?,
        })
    }
}

impl Run for MilepostRun {
    ghost use Rattle.run.specs.Mileposts.{milepost_view};

    type Scale = Flag;

    ghost meaning = { milepost_view };

    ghost few = { λ r. r.few };

    fn size(&self) -> u8 {
        self.size
    }

    fn constant(&self, _digit: u8) -> u8 {
        0 // each constant is the first milepost
    }

    fn apply1(&self, digit: u8, a: u8) -> u8 {
        if digit == 0 && a < self.size {
            (a + 1).min(self.size - 1)
        } else {
            0
        }
    }

    fn apply2(&self, _digit: u8, _a: u8, _b: u8) -> u8 {
        0 // each g leads to the first milepost
    }

    fn predicate0(&self, _digit: u8) -> Flag {
        Flag::bottom() // no p holds
    }

    fn predicate1(&self, _digit: u8, _a: u8) -> Flag {
        Flag::bottom() // no q holds
    }

    fn predicate2(&self, digit: u8, a: u8, b: u8) -> Flag {
        Flag {
            value: digit == 0 && a < b && b < self.size,
        }
    }
}
