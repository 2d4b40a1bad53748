// Sixty-four runs that share their elements, over bytes and words, lent.
ghost use Rattle.std.specs.Prelude.{◌≡◌, Some, IfOk, IfErr};
ghost use Rattle.run.specs.Fleets.{word_of, fleet_fault, FleetMade};

use crate::Run;
use crate::checks::{all_below, sized};
use crate::layout::entries;
use crate::listed::{Elements, Listed, Truth};
use fault::Fault;
use scale::Word;

/// How many elements a fleet has at most.
pub const MOST_IN_FLEET: u8 = 16;

/// Sixty-four runs that share size, constants and functions: bit k of each value belongs to run k. A caller with fewer runs
/// looks at their bits only.
pub type FleetRun<'a> = Listed<'a, u64>;

/// A word says what each of its bits does.
impl Truth for u64 {
    type Scale = Word;

    ghost says = { word_of };

    fn value(self) -> Word {
        Word::new(self)
    }
}

impl<'a> Listed<'a, u64> {
    /// The fleet that a table's bytes before its predicates and the words of the predicates give.
    pub fn new(bytes: &'a [u8], words: &'a [u64]) -> Result<FleetRun<'a>, Fault>
        ensures made { IfOk result (λ run. FleetMade bytes.now words.now (⟦<FleetRun<'a> as Run>⟧.meaning run)) }
        ensures refused { IfErr result (λ e. fleet_fault bytes.now words.now ≡ Some e) }
    {
        let (size, list) = bytes.split_first().ok_or(Fault::WrongCount)?;
        let size = sized(*size, MOST_IN_FLEET)?;
        let count = entries(size);
        if list.len() != count || words.len() != count {
            return Err(Fault::WrongCount);
        }
        if !all_below(list, size) {
            return Err(Fault::ElementOutOfRange);
        }
        Ok(Listed {
            elements: Elements { size, list },
            truths: words,
        })
    }
}
