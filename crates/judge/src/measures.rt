// How broad a formula is.
ghost use Rattle.std.specs.Prelude.{◌≡◌, ◌-◌, ◌^◌, min, count_by};
ghost use Rattle.logic.specs.Text.{names};
ghost use Rattle.logic.specs.Breadth.{nesting as nesting_of, free_below, breadth as breadth_of};
ghost use Rattle.formula.specs.View.{formula};

use formula::Formula;

/// The number of different free variables plus the deepest nesting of quantifiers; `usize::MAX` where it is more than that.
pub fn breadth(f: &Formula) -> usize
    ensures { result ≡ min (breadth_of (formula f.now)) (2 ^ 64 - 1) }
{
    nesting(f).saturating_add(free_count(f))
}

// How deep the quantifiers nest; `usize::MAX` where it is more than that.
fn nesting(f: &Formula) -> usize
    ensures { result ≡ min (nesting_of (formula f.now)) (2 ^ 64 - 1) }
{
    match f {
        Formula::Predicate0(_) | Formula::Predicate1(_, _) | Formula::Predicate2(_, _, _) => 0,
        Formula::Not(a) => nesting(a),
        Formula::Binary(_, a, b) => nesting(a).max(nesting(b)),
        Formula::Quantified(_, _, a) => nesting(a).saturating_add(1),
    }
}

// How many different variables are free.
fn free_count(f: &Formula) -> usize
    ensures { result ≡ free_below names (formula f.now) }
{
    marked(&f.free_variables().holds)
}

// How many marks are set.
fn marked(marks: &[bool]) -> usize
    ensures { result ≡ count_by (λ m. m) marks.now }
{
    marks.iter().filter(|m| **m).count()
}
