// Terms and formulas as trees.
use sign::{Connective, Name, Quantifier};

#[derive(Debug, Drop)]
pub enum Term {
    Variable(Name),
    Constant(Name),
    Apply1(Name, Box<Term>),
    Apply2(Name, Box<Term>, Box<Term>),
}

#[derive(Debug, Drop)]
pub enum Formula {
    Predicate0(Name),
    Predicate1(Name, Term),
    Predicate2(Name, Term, Term),
    Not(Box<Formula>),
    Binary(Connective, Box<Formula>, Box<Formula>),
    Quantified(Quantifier, Name, Box<Formula>),
}
