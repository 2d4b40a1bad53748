// Parts, levels and free variables of a tree.
ghost use Rattle.std.specs.Prelude.{◌≡◌, ◌-◌, ◌^◌, ◌<◌, min};
ghost use Rattle.logic.specs.Syntax.{occurs, free};
ghost use Rattle.logic.specs.Text.{names, term_parts, parts as parts_of, term_levels, levels as levels_of};
ghost use Rattle.sign.specs.Sets.{IsSetOf, is_in};
ghost use Rattle.sign.specs.declared.name.Name.{Name};
ghost use Rattle.formula.specs.View.{term, formula};

use crate::tree::{Formula, Term};
use sign::{Name, Variables};
use std::array;

// Parts and levels differ in one operation. With the operation as a closure, each contract would speak of the closure.
impl Term {
    /// How many parts the term has; `usize::MAX` where there are more than that.
    pub fn parts(&self) -> usize
        ensures { result ≡ min (term_parts (term self.now)) (2 ^ 64 - 1) }
    {
        match self {
            Term::Variable(_) | Term::Constant(_) => 1,
            Term::Apply1(_, s) => s.parts().saturating_add(1),
            Term::Apply2(_, s, t) => s.parts().saturating_add(t.parts()).saturating_add(1),
        }
    }

    /// How many levels the term has; `usize::MAX` where there are more than that.
    pub fn levels(&self) -> usize
        ensures { result ≡ min (term_levels (term self.now)) (2 ^ 64 - 1) }
    {
        match self {
            Term::Variable(_) | Term::Constant(_) => 1,
            Term::Apply1(_, s) => s.levels().saturating_add(1),
            Term::Apply2(_, s, t) => s.levels().max(t.levels()).saturating_add(1),
        }
    }

    /// Whether the variable stands in the term.
    pub fn has(&self, variable: Name) -> bool
        ensures { result ≡ occurs variable.digit (term self.now) }
    {
        match self {
            Term::Variable(x) => *x == variable,
            Term::Constant(_) => false,
            Term::Apply1(_, s) => s.has(variable),
            Term::Apply2(_, s, t) => s.has(variable) || t.has(variable),
        }
    }

    /// The variables that stand in the term.
    pub fn variables(&self) -> Variables
        ensures { IsSetOf (λ x. occurs x (term self.now)) result }
    {
        variables_of(|x| self.has(x))
    }
}

impl Formula {
    /// How many parts the formula has; `usize::MAX` where there are more than that.
    pub fn parts(&self) -> usize
        ensures { result ≡ min (parts_of (formula self.now)) (2 ^ 64 - 1) }
    {
        match self {
            Formula::Predicate0(_) => 1,
            Formula::Predicate1(_, s) => s.parts().saturating_add(1),
            Formula::Predicate2(_, s, t) => s.parts().saturating_add(t.parts()).saturating_add(1),
            Formula::Not(a) | Formula::Quantified(_, _, a) => a.parts().saturating_add(1),
            Formula::Binary(_, a, b) => a.parts().saturating_add(b.parts()).saturating_add(1),
        }
    }

    /// How many levels the formula has; `usize::MAX` where there are more than that.
    pub fn levels(&self) -> usize
        ensures { result ≡ min (levels_of (formula self.now)) (2 ^ 64 - 1) }
    {
        match self {
            Formula::Predicate0(_) => 1,
            Formula::Predicate1(_, s) => s.levels().saturating_add(1),
            Formula::Predicate2(_, s, t) => s.levels().max(t.levels()).saturating_add(1),
            Formula::Not(a) | Formula::Quantified(_, _, a) => a.levels().saturating_add(1),
            Formula::Binary(_, a, b) => a.levels().max(b.levels()).saturating_add(1),
        }
    }

    /// Whether the variable stands free in the formula.
    pub fn is_free(&self, variable: Name) -> bool
        ensures { result ≡ free variable.digit (formula self.now) }
    {
        match self {
            Formula::Predicate0(_) => false,
            Formula::Predicate1(_, s) => s.has(variable),
            Formula::Predicate2(_, s, t) => s.has(variable) || t.has(variable),
            Formula::Not(a) => a.is_free(variable),
            Formula::Binary(_, a, b) => a.is_free(variable) || b.is_free(variable),
            Formula::Quantified(_, x, a) => *x != variable && a.is_free(variable),
        }
    }

    /// The variables that stand free in the formula.
    pub fn free_variables(&self) -> Variables
        ensures { IsSetOf (λ x. free x (formula self.now)) result }
    {
        variables_of(|x| self.is_free(x))
    }
}

// The variables of which the test says yes. It is private, so that no public call asks anything of its caller.
fn variables_of<F: Fn(Name) -> bool>(test: F) -> Variables
    requires { F.IsAlwaysCallable test }
    ensures { (x : Name) → F.post test x (is_in result x.digit) }
{
    Variables {
        holds: array::from_fn(
            |x|
                requires below { x < names }
                requires callable { F.IsAlwaysCallable test }
                ensures { (n : Name) → n.digit ≡ x → F.post test n result }
            { test(Name { digit: x as u8 }) },
        ),
    }
}
