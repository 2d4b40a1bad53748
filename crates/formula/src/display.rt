// Trees as text that is formatted.
ghost use Rattle.std.specs.Prelude.{Some};
ghost use Rattle.std.specs.Fmt.{WritesOnOk};
ghost use Rattle.logic.specs.Text.{term_text, text as formula_text};
ghost use Rattle.formula.specs.View.{term, formula};
ghost use Rattle.formula.specs.Display.{Writes};

use crate::text::{Sink, Spell};
use crate::tree::{Formula, Term};
use std::fmt;

// A formatter, and the first error that it met: nothing is written behind it.
#[derive(Drop)]
struct Writer<'a, W> {
    f: &'a mut fmt::Formatter<W>,
    result: fmt::Result,
}

impl<W: fmt::Write> Sink for Writer<'_, W> {
    ghost put_gives = { Writes W.write_str_gives };

    fn put(&mut self, byte: u8) {
        if self.result.is_ok() {
            self.result = self.f.write_char(byte as char);
        }
    }

    fn is_closed(&self) -> bool {
        self.result.is_err()
    }
}

// Writes the tree's text.
fn show<T: Spell, W: fmt::Write>(tree: &T, f: &mut fmt::Formatter<W>) -> fmt::Result
    ensures { WritesOnOk W.write_str_gives f.old result (T.text tree.now) f.new }
{
    let mut writer = Writer { f, result: Ok(()) };
    tree.spell(&mut writer);
    writer.result
}

impl fmt::Display for Term {
    ghost output = { λ x. Some (term_text (term x)) };

    fn fmt<W: fmt::Write>(&self, f: &mut fmt::Formatter<W>) -> fmt::Result {
        show(self, f)
    }
}

impl fmt::Display for Formula {
    ghost output = { λ x. Some (formula_text (formula x)) };

    fn fmt<W: fmt::Write>(&self, f: &mut fmt::Formatter<W>) -> fmt::Result {
        show(self, f)
    }
}
