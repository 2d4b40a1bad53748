// The values of a formula at all assignments together, by loops over its free variables only.
ghost use Rattle.std.specs.Prelude.{◌≡◌, ◌≤◌, ◌↔◌, length, drop, IsSome, IsNone, IfSome};
ghost use Rattle.logic.specs.Assignment.{listed};
ghost use Rattle.logic.specs.Syntax.{free as is_free};
ghost use Rattle.logic.specs.Text.{names};
ghost use Rattle.logic.specs.Weight.{weight as weight_of};
ghost use Rattle.sign.specs.Sets.{IsSetOf};
ghost use Rattle.formula.specs.View.{formula};
ghost use Rattle.judge.specs.Weighing.{cells_wanted, weight_below};

use crate::assignment::Assignment;
use crate::join::Join;
use crate::values::value;
use formula::Formula;
use run::Run;
use scale::Answers;
use sign::{NAMES, Name, Variables};

/// How many cells weighing asks for. It has one for each variable in use, with room for a language of more variables.
pub const CELLS: usize = 64;

/// The values of the formula at all assignments, joined by `and`; none where there are fewer than `CELLS` cells. Where there is a
/// value, what the first `CELLS` cells hold is left open.
pub fn weight<R: Run>(run: &R, f: &Formula, cells: &mut [R::Scale]) -> Option<R::Scale>
    ensures room { IsSome result ↔ (cells_wanted ≤ length cells.old) }
    ensures weight { IfSome result (λ v. v ≡ weight_of R.Scale.algebra (R.meaning run.now) (formula f.now)) }
    ensures untouched { IsNone result → cells.new ≡ cells.old }
    ensures rest { drop cells_wanted cells.new ≡ drop cells_wanted cells.old }
{
    if cells.len() < CELLS {
        return None;
    }
    let body = Body {
        f,
        free: f.free_variables(),
    };
    Some(over(run, &body, NAMES as u8, Assignment::zeros(), cells))
}

// The formula in the loops, and the variables that are free in it.
#[derive(Clone, Copy)]
struct Body<'a> {
    f: &'a Formula,
    free: Variables,
    ghost marks: { IsSetOf (λ x. is_free x (formula f.now)) free },
}

// The values at all assignments of elements to the variables below `below`, the others as they are, joined by `and`. A variable that
// is not free is passed over. The cell of each variable has what its loop has found so far.
fn over<R: Run>(run: &R, body: &Body, below: u8, at: Assignment, cells: &mut [R::Scale]) -> R::Scale
    requires few { below ≤ names }
    requires room { cells_wanted ≤ length cells.old }
    ensures value { result ≡ weight_below R.Scale.algebra (R.meaning run.now) (formula body.now.f.now) below (listed at.elements) }
    ensures rest { drop below cells.new ≡ drop below cells.old }
{
    if below == 0 {
        return value(run, body.f, at);
    }
    let last = Name { digit: below - 1 };
    if !body.free.contains(last) {
        return over(run, body, last.digit, at, cells);
    }
    let cell = last.digit as usize;
    cells[cell] = Join::And.empty();
    for e in 0..run.size() {
        let here = over(run, body, last.digit, at.with(last, e), cells);
        let all = Join::And.apply(cells[cell], here);
        cells[cell] = all;
        if Join::And.is_settled(all) {
            return all;
        }
    }
    cells[cell]
}
