// The value of a formula in a run, on any scale.
//
//   assignment  elements for the variables
//   measures    how broad a formula is
//   join        the two ways in which values are joined
//   values      the value at an assignment
//   weights     the values at all assignments together
#![tactic(auto)]

ghost use Rattle.judge.specs.Examples.{Examples};

mod assignment;
mod join;
mod measures;
mod values;
mod weights;

pub use assignment::Assignment;
pub use measures::breadth;
pub use values::{element, value};
pub use weights::{CELLS, weight};

/// Values in a run of three mileposts, worked out.
pub fn worked_values()
    ensures { Examples }
{}
