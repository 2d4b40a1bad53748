// Trees from bytes.
#![tactic(auto)]

ghost use Rattle.std.specs.Prelude.{◌≡◌, ◌<◌, ◌≤◌, length, OnOk, OnErr, IfOk, IfErr, slice_index};
ghost use Rattle.logic.specs.Reading as reading;
ghost use Rattle.sign.specs.View.{connective, quantifier};
ghost use Rattle.sign.specs.Table.{class};
ghost use Rattle.formula.specs.View.{term, pair, formula};
ghost use Rattle.reader.specs.Heads.{digit_of, head_of, opening_of};
ghost use Rattle.reader.specs.Answers.{same};
ghost use Rattle.reader.specs.Steps.{Step, Alone};
ghost use Rattle.reader.specs.Told.{FormulaRead, TermRead};
ghost use Rattle.fault.specs.declared.fault.Fault.TheVariants.{Reading};
ghost use Rattle.fault.specs.declared.fault.Misreading.TheVariants.{EndsEarly};

use fault::{Fault, Misreading, Source};
use formula::{Formula, Term};
use sign::{Class, Connective, Name, Quantifier};
use std::alloc::Global;

/// The most parts that a term or formula may have: what a sentence about a pipe needs, with room to spare.
pub const MOST_PARTS: usize = 200;

/// The most levels that a term or formula may have; every recursion over a tree that was read is at most so deep.
pub const MOST_LEVELS: usize = 24;

// The two calls differ in the method that takes the tree. As a closure it would need clauses longer than the calls, and a trait
// would make the reader public.

/// The formula that the bytes are the text of.
pub fn read_formula(heap: Global, bytes: &[u8]) -> Result<Formula, Fault>
    ensures { FormulaRead bytes.now result }
{
    let mut reader = Reader::new(heap, bytes, Source::Formula);
    let taken = reader.formula(MOST_LEVELS);
    reader.alone(taken)
}

/// The term that the bytes are the text of.
pub fn read_term(heap: Global, bytes: &[u8]) -> Result<Term, Fault>
    ensures { TermRead bytes.now result }
{
    let mut reader = Reader::new(heap, bytes, Source::Term);
    let taken = reader.term(MOST_LEVELS);
    reader.alone(taken)
}

// The clauses of the steps below have the number of `MOST_PARTS` itself: with its name the search does not close.

// What a term begins with. The reader decides on the byte itself: a `TryFrom` would need an error that only becomes a fault here.
#[derive(Clone, Copy)]
enum Head {
    Variable,
    Constant,
    Apply1,
    Apply2,
}

// What a formula begins with.
#[derive(Clone, Copy)]
enum Opening {
    Predicate0,
    Predicate1,
    Predicate2,
    Not,
    Bracket,
    Quantified(Quantifier),
}

// Where the memory for a tree comes from; the bytes, which text they are, and the place of the next one; how many parts began
// before it.
#[derive(Drop)]
struct Reader<'a> {
    heap: Global,
    bytes: &'a [u8],
    source: Source,
    at: usize,
    parts: usize,
}

impl<'a> Reader<'a> {
    // At the first byte, with no part yet.
    fn new(heap: Global, bytes: &'a [u8], source: Source) -> Reader<'a>
        ensures { (result.bytes.now ≡ bytes.now) × (result.source ≡ source) × (result.at ≡ 0) × (result.parts ≡ 0) }
    {
        Reader {
            heap,
            bytes,
            source,
            at: 0,
            parts: 0,
        }
    }
}

impl Reader<'_> {
    // The fault that this is wrong with the next byte.
    fn fault(&self, what: Misreading) -> Fault
        ensures { result ≡ Reading what self.now.source self.now.at }
    {
        Fault::Reading(what, self.source, self.at)
    }

    // The next byte.
    fn byte(&self) -> Result<u8, Fault>
        ensures there { OnOk result (self.now.at < length self.now.bytes.now) }
        ensures byte { IfOk result (λ b. b ≡ slice_index self.now.bytes.now self.now.at) }
        ensures past { OnErr result (length self.now.bytes.now ≤ self.now.at) }
        ensures fault { IfErr result (λ e. e ≡ Reading EndsEarly self.now.source self.now.at) }
    {
        let byte = self.bytes.get(self.at).copied();
        byte.ok_or(self.fault(Misreading::EndsEarly))
    }

    // What was taken, where nothing stands behind it.
    fn alone<T: Drop>(&self, taken: Result<T, Fault>) -> Result<T, Fault>
        ensures { Alone taken self.now result }
    {
        let tree = taken?;
        if self.at < self.bytes.len() {
            return Err(self.fault(Misreading::AfterEnd));
        }
        Ok(tree)
    }

    // Takes a digit.
    fn name(&mut self) -> Result<Name, Fault>
        ensures { Step digit_of reading.name self.old self.new result }
    {
        let byte = self.byte()?;
        if !Class::Digit.has(byte) {
            return Err(self.fault(Misreading::NotAllowed));
        }
        self.at += 1;
        Ok(Name { digit: byte - b'0' })
    }

    // Takes a byte of the class: a bracket or a comma.
    fn sign(&mut self, wanted: Class) -> Result<(), Fault>
        ensures { Step same (reading.sign (class wanted)) self.old self.new result }
    {
        if !wanted.has(self.byte()?) {
            return Err(self.fault(Misreading::NotAllowed));
        }
        self.at += 1;
        Ok(())
    }

    // Begins a part that stands at the next byte, with `left` levels left. That there were any is said here and of its callers: the
    // levels that are left, in each result, would be a pair for the sake of one subtraction.
    fn part(&mut self, left: usize) -> Result<(), Fault>
        requires { self.old.at < length self.old.bytes.now }
        ensures deep { OnOk result (0 < left) }
        ensures read { Step same (λ _. reading.part 200 tt left) self.old self.new result }
    {
        if left == 0 {
            return Err(self.fault(Misreading::TooDeep));
        }
        if self.parts >= MOST_PARTS {
            return Err(self.fault(Misreading::TooMany));
        }
        self.at += 1;
        self.parts += 1;
        Ok(())
    }

    // Takes what a term begins with.
    fn head(&mut self, left: usize) -> Result<Head, Fault>
        ensures deep { OnOk result (0 < left) }
        ensures read { Step head_of (reading.head 200 left) self.old self.new result }
    {
        let head = match self.byte()? {
            b'x' => Head::Variable,
            b'c' => Head::Constant,
            b'f' => Head::Apply1,
            b'g' => Head::Apply2,
            _ => return Err(self.fault(Misreading::NotAllowed)),
        };
        self.part(left)?;
        Ok(head)
    }

    // Takes what a formula begins with.
    fn opening(&mut self, left: usize) -> Result<Opening, Fault>
        ensures deep { OnOk result (0 < left) }
        ensures read { Step opening_of (reading.opening 200 left) self.old self.new result }
    {
        let opening = match self.byte()? {
            b'p' => Opening::Predicate0,
            b'q' => Opening::Predicate1,
            b'r' => Opening::Predicate2,
            b'-' => Opening::Not,
            b'(' => Opening::Bracket,
            b'A' => Opening::Quantified(Quantifier::Every),
            b'E' => Opening::Quantified(Quantifier::Some),
            _ => return Err(self.fault(Misreading::NotAllowed)),
        };
        self.part(left)?;
        Ok(opening)
    }

    // Takes the connective between two formulas.
    fn connective(&mut self) -> Result<Connective, Fault>
        ensures { Step connective reading.connective self.old self.new result }
    {
        let connective = match self.byte()? {
            b'&' => Connective::And,
            b'|' => Connective::Or,
            b'>' => Connective::Implies,
            _ => return Err(self.fault(Misreading::NotAllowed)),
        };
        self.at += 1;
        Ok(connective)
    }

    // Takes the variable that a quantifier binds.
    fn bound(&mut self) -> Result<Name, Fault>
        ensures { Step digit_of reading.bound self.old self.new result }
    {
        let b'x' = self.byte()? else {
            return Err(self.fault(Misreading::NotAllowed));
        };
        self.at += 1;
        self.name()
    }

    // Takes a term of at most `left` levels.
    #[cycle(terms)]
    #[tactic(auto, using(logic::proofs::Steps::unroll))]
    fn term(&mut self, left: usize) -> Result<Term, Fault>
        ensures { Step term (reading.read_term 200 left) self.old self.new result }
    {
        let head = self.head(left)?;
        let name = self.name()?;
        match head {
            Head::Variable => Ok(Term::Variable(name)),
            Head::Constant => Ok(Term::Constant(name)),
            Head::Apply1 => {
                let s = self.argument(left - 1)?;
                Ok(Term::Apply1(name, Box::new(self.heap, s)?))
            }
            Head::Apply2 => {
                let (s, t) = self.arguments(left - 1)?;
                Ok(Term::Apply2(name, Box::new(self.heap, s)?, Box::new(self.heap, t)?))
            }
        }
    }

    // Takes a term of at most `left` levels in brackets.
    #[cycle(terms)]
    fn argument(&mut self, left: usize) -> Result<Term, Fault>
        ensures { Step term (λ bytes. reading.argument (reading.read_term 200 left bytes) bytes) self.old self.new result }
    {
        self.sign(Class::Open)?;
        let s = self.term(left)?;
        self.sign(Class::Close)?;
        Ok(s)
    }

    // Takes two terms of at most `left` levels in brackets.
    #[cycle(terms)]
    fn arguments(&mut self, left: usize) -> Result<(Term, Term), Fault>
        ensures { Step pair (λ bytes. reading.arguments (reading.read_term 200 left bytes) bytes) self.old self.new result }
    {
        self.sign(Class::Open)?;
        let s = self.term(left)?;
        self.sign(Class::Comma)?;
        let t = self.term(left)?;
        self.sign(Class::Close)?;
        Ok((s, t))
    }

    // Takes a formula of at most `left` levels.
    #[cycle(formulas)]
    #[tactic(auto, using(logic::proofs::Steps::unroll_formula))]
    fn formula(&mut self, left: usize) -> Result<Formula, Fault>
        ensures { Step formula (reading.read_formula 200 left) self.old self.new result }
    {
        match self.opening(left)? {
            Opening::Predicate0 => Ok(Formula::Predicate0(self.name()?)),
            Opening::Predicate1 => {
                let name = self.name()?;
                let s = self.argument(left - 1)?;
                Ok(Formula::Predicate1(name, s))
            }
            Opening::Predicate2 => {
                let name = self.name()?;
                let (s, t) = self.arguments(left - 1)?;
                Ok(Formula::Predicate2(name, s, t))
            }
            Opening::Not => {
                let a = self.formula(left - 1)?;
                Ok(Formula::Not(Box::new(self.heap, a)?))
            }
            Opening::Bracket => self.binary(left - 1),
            Opening::Quantified(quantifier) => self.quantified(left - 1, quantifier),
        }
    }

    // Takes what stands after the bracket that opens a formula.
    #[cycle(formulas)]
    fn binary(&mut self, left: usize) -> Result<Formula, Fault>
        ensures { Step formula (λ bytes. reading.joined (reading.read_formula 200 left bytes) bytes) self.old self.new result }
    {
        let a = self.formula(left)?;
        let connective = self.connective()?;
        let b = self.formula(left)?;
        self.sign(Class::Close)?;
        Ok(Formula::Binary(connective, Box::new(self.heap, a)?, Box::new(self.heap, b)?))
    }

    // Takes what stands after the letter of a quantifier.
    #[cycle(formulas)]
    fn quantified(&mut self, left: usize, which: Quantifier) -> Result<Formula, Fault>
        ensures { Step formula (λ bytes. reading.generalised (reading.read_formula 200 left bytes) (quantifier which) bytes)
            self.old self.new result }
    {
        let x = self.bound()?;
        let a = self.formula(left)?;
        Ok(Formula::Quantified(which, x, Box::new(self.heap, a)?))
    }
}
