// A run over the bytes of a table, lent.
ghost use Rattle.std.specs.Prelude.{◌≡◌, Some, IfOk, IfErr};
ghost use Rattle.run.specs.Tables.{truth_of, table_fault, TableMade};

use crate::Run;
use crate::checks::{all_below, sized};
use crate::layout::entries;
use crate::listed::{Elements, Listed, Truth};
use fault::Fault;
use scale::Flag;

/// How many elements a table has at most.
pub const MOST_IN_TABLE: u8 = 32;

/// A run over the bytes of a table: its size, what its constants and functions answer, and which predicates hold.
pub type TableRun<'a> = Listed<'a, u8>;

/// A byte says yes where it is 1.
impl Truth for u8 {
    type Scale = Flag;

    ghost says = { truth_of };

    fn value(self) -> Flag {
        Flag { value: self == 1 }
    }
}

impl<'a> Listed<'a, u8> {
    /// The run that the bytes of a table give.
    // A fleet's `new` makes the same checks of other counts; what both share are the functions that they call.
    pub fn new(bytes: &'a [u8]) -> Result<TableRun<'a>, Fault>
        ensures made { IfOk result (λ run. TableMade bytes.now (⟦<TableRun<'a> as Run>⟧.meaning run)) }
        ensures refused { IfErr result (λ e. table_fault bytes.now ≡ Some e) }
    {
        let (size, lists) = bytes.split_first().ok_or(Fault::WrongCount)?;
        let size = sized(*size, MOST_IN_TABLE)?;
        let count = entries(size);
        if lists.len() != 2 * count {
            return Err(Fault::WrongCount);
        }
        let (list, truths) = lists.split_at(count);
        if !all_below(list, size) {
            return Err(Fault::ElementOutOfRange);
        }
        if !all_below(truths, 2) {
            return Err(Fault::NotATruthValue);
        }
        Ok(Listed {
            elements: Elements { size, list },
            truths,
        })
    }
}
