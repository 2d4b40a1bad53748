// The text of a tree: how much room it takes, and its bytes, sent one after the other.
ghost use Rattle.std.specs.Prelude.{ℕ, ◌-◌, ◌≤◌, List, [], ◌∷◌, length, IsTrue};
ghost use Rattle.std.specs.List.{FoldsTo};
ghost use Rattle.std.specs.Option.{SomeIff};
ghost use Rattle.std.specs.Str.{IsAscii};
ghost use Rattle.logic.specs.Signs.{digit as digit_of};
ghost use Rattle.logic.specs.Text.{term_text, text as formula_text, enclosed, paired};
ghost use Rattle.formula.specs.View.{term, formula};
ghost use Rattle.formula.specs.TextLemmas.{term_ascii, formula_ascii};

use crate::count::Count;
use crate::tree::{Formula, Term};
use sign::Name;

/// What takes the bytes of a text, one after the other.
pub trait Sink {
    // Relates the sink before a byte, the byte, and the sink after it.
    ghost put_gives: { Self → ℕ → Self → Type 0 };

    /// Takes a byte.
    fn put(&mut self, byte: u8)
        ensures { put_gives self.old byte self.new };

    /// Yes only where no byte changes anything any more, so that none need be sent.
    fn is_closed(&self) -> bool
        ensures { IsTrue result → (byte : ℕ) → put_gives self.now byte self.now }
    {
        false
    }
}

/// What can be spelt out as ASCII text.
pub trait Spell {
    ghost text: { Self → List ℕ };

    /// Sends the text to the sink, from its first byte on.
    fn spell<S: Sink>(&self, sink: &mut S)
        ensures { FoldsTo S.put_gives sink.old (text self.now) sink.new };

    /// What is left of `room` bytes behind the text.
    fn spare(&self, room: usize) -> Option<usize>
        ensures { SomeIff result (length (text self.now) ≤ room) (room - length (text self.now)) }
    {
        let mut count = Count { left: Some(room) };
        self.spell(&mut count);
        count.left
    }

    ghost ascii: { (x : Self) → IsAscii (text x) };
}

impl Spell for Term {
    ghost text = { λ t. term_text (term t) };

    ghost ascii = { term_ascii };

    #[cycle(spell)]
    fn spell<S: Sink>(&self, sink: &mut S) {
        if sink.is_closed() {
            return;
        }
        match self {
            Term::Variable(x) => spell_name(*x, b'x', sink),
            Term::Constant(c) => spell_name(*c, b'c', sink),
            Term::Apply1(f, s) => {
                spell_name(*f, b'f', sink);
                s.enclosed(sink);
            }
            Term::Apply2(f, s, t) => {
                spell_name(*f, b'g', sink);
                s.paired(t, sink);
            }
        }
    }

    // Part by part, and no further than the room goes.
    fn spare(&self, room: usize) -> Option<usize> {
        match self {
            Term::Variable(_) | Term::Constant(_) => room.checked_sub(2),
            Term::Apply1(_, s) => s.spare(room.checked_sub(4)?),
            Term::Apply2(_, s, t) => t.spare(s.spare(room.checked_sub(5)?)?),
        }
    }
}

impl Term {
    // Sends the term's text in brackets.
    #[cycle(spell)]
    fn enclosed<S: Sink>(&self, sink: &mut S)
        ensures { FoldsTo S.put_gives sink.old (enclosed (term_text (term self.now))) sink.new }
    {
        sink.put(b'(');
        self.spell(sink);
        sink.put(b')');
    }

    // Sends the texts of this term and another in brackets.
    #[cycle(spell)]
    fn paired<S: Sink>(&self, other: &Term, sink: &mut S)
        ensures { FoldsTo S.put_gives sink.old (paired (term_text (term self.now)) (term_text (term other.now))) sink.new }
    {
        sink.put(b'(');
        self.spell(sink);
        sink.put(b',');
        other.spell(sink);
        sink.put(b')');
    }
}

impl Spell for Formula {
    ghost text = { λ a. formula_text (formula a) };

    ghost ascii = { formula_ascii };

    fn spell<S: Sink>(&self, sink: &mut S) {
        if sink.is_closed() {
            return;
        }
        match self {
            Formula::Predicate0(p) => spell_name(*p, b'p', sink),
            Formula::Predicate1(p, s) => {
                spell_name(*p, b'q', sink);
                s.enclosed(sink);
            }
            Formula::Predicate2(p, s, t) => {
                spell_name(*p, b'r', sink);
                s.paired(t, sink);
            }
            Formula::Not(a) => {
                sink.put(b'-');
                a.spell(sink);
            }
            Formula::Binary(connective, a, b) => {
                sink.put(b'(');
                a.spell(sink);
                sink.put(connective.sign());
                b.spell(sink);
                sink.put(b')');
            }
            Formula::Quantified(quantifier, x, a) => {
                sink.put(quantifier.letter());
                spell_name(*x, b'x', sink);
                a.spell(sink);
            }
        }
    }

    // Part by part, and no further than the room goes.
    fn spare(&self, room: usize) -> Option<usize> {
        match self {
            Formula::Predicate0(_) => room.checked_sub(2),
            Formula::Predicate1(_, s) => s.spare(room.checked_sub(4)?),
            Formula::Predicate2(_, s, t) => t.spare(s.spare(room.checked_sub(5)?)?),
            Formula::Not(a) => a.spare(room.checked_sub(1)?),
            Formula::Binary(_, a, b) => b.spare(a.spare(room.checked_sub(3)?)?),
            Formula::Quantified(_, _, a) => a.spare(room.checked_sub(3)?),
        }
    }
}

// Sends the name with its letter.
fn spell_name<S: Sink>(name: Name, letter: u8, sink: &mut S)
    ensures { FoldsTo S.put_gives sink.old (letter ∷ digit_of name.digit ∷ []) sink.new }
{
    sink.put(letter);
    sink.put(b'0' + name.digit);
}
