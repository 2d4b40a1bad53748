// The value of a formula at an assignment, in any run.
ghost use Rattle.std.specs.Prelude.{◌≡◌};
ghost use Rattle.logic.specs.Assignment.{listed};
ghost use Rattle.logic.specs.Syntax.{quantified as quantified_of};
ghost use Rattle.logic.specs.Value.{connect, element as element_of, value as value_of};
ghost use Rattle.formula.specs.View.{term, formula};
ghost use Rattle.judge.specs.Join.{connective, quantifier};

use crate::assignment::Assignment;
use crate::join::Join;
use formula::{Formula, Term};
use run::Run;
use scale::Answers;
use sign::{Connective, Name, Quantifier};

// The run and the assignment are handed on apart: as one struct they would take memory at each level of a formula.

/// The element that a term stands for.
pub fn element<R: Run>(run: &R, t: &Term, at: Assignment) -> u8
    ensures { result ≡ element_of (R.meaning run.now) (listed at.elements) (term t.now) }
{
    match t {
        Term::Variable(x) => at.element(*x),
        Term::Constant(c) => run.constant(c.digit),
        Term::Apply1(f, s) => run.apply1(f.digit, element(run, s, at)),
        Term::Apply2(f, s, t) => run.apply2(f.digit, element(run, s, at), element(run, t, at)),
    }
}

/// The value of a formula.
#[cycle(values)]
pub fn value<R: Run>(run: &R, f: &Formula, at: Assignment) -> R::Scale
    ensures { result ≡ value_of R.Scale.algebra (R.meaning run.now) (listed at.elements) (formula f.now) }
{
    match f {
        Formula::Predicate0(p) => run.predicate0(p.digit),
        Formula::Predicate1(p, s) => run.predicate1(p.digit, element(run, s, at)),
        Formula::Predicate2(p, s, t) => run.predicate2(
            p.digit,
            element(run, s, at),
            element(run, t, at),
        ),
        Formula::Not(a) => value(run, a, at).not(),
        Formula::Binary(connective, a, b) => {
            let left = value(run, a, at);
            match connective {
                Connective::And => connected(run, Join::And, left, b, at),
                Connective::Or => connected(run, Join::Or, left, b, at),
                Connective::Implies => connected(run, Join::Or, left.not(), b, at),
            }
        }
        Formula::Quantified(Quantifier::Every, x, a) => quantified(run, Join::And, *x, a, at),
        Formula::Quantified(Quantifier::Some, x, a) => quantified(run, Join::Or, *x, a, at),
    }
}

// The value so far joined with that of a formula, which is not asked for where the value so far is settled.
#[cycle(values)]
fn connected<R: Run>(run: &R, join: Join, left: R::Scale, b: &Formula, at: Assignment) -> R::Scale
    ensures { result ≡ connect R.Scale.algebra (connective join) left (value_of R.Scale.algebra (R.meaning run.now) (listed at.elements) (formula b.now)) }
{
    if join.is_settled(left) {
        left
    } else {
        join.apply(left, value(run, b, at))
    }
}

// The values with each element for the variable, joined. Where those so far are settled, no further element is asked for.
#[cycle(values)]
fn quantified<R: Run>(run: &R, join: Join, x: Name, a: &Formula, at: Assignment) -> R::Scale
    ensures { result ≡ value_of R.Scale.algebra (R.meaning run.now) (listed at.elements) (quantified_of (quantifier join) x.digit (formula a.now)) }
{
    let mut joined = join.empty();
    for e in 0..run.size() {
        joined = join.apply(joined, value(run, a, at.with(x, e)));
        if join.is_settled(joined) {
            return joined;
        }
    }
    joined
}
