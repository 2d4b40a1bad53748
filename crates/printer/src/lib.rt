// Terms and formulas printed as text into a buffer that the caller lends.
#![tactic(auto)]

ghost use Rattle.std.specs.Prelude.{◌≡◌, ℕ, ◌-◌, ◌^◌, min, List, length, take, IfOk};
ghost use Rattle.formula.specs.View.{term, formula};
ghost use Rattle.printer.specs.Printed.{Printed, FormulaBack, TermBack};
ghost use Rattle.printer.specs.PrintedLemmas.{term_back, formula_back};

mod sinks;

use fault::Fault;
use formula::{Formula, Spell, Term};
use sinks::Buffer;

/// What reads back from its text, where it is within the limits, and from no other bytes.
pub trait ReadBack: Spell {
    // What printed bytes tell of the tree.
    ghost back: { Self → List ℕ → Type 0 };

    ghost reads_back: { (x : Self) → back x (Self.text x) };
}

impl ReadBack for Term {
    ghost back = { λ t. TermBack (term t) };

    ghost reads_back = { term_back };
}

impl ReadBack for Formula {
    ghost back = { λ a. FormulaBack (formula a) };

    ghost reads_back = { formula_back };
}

/// How many bytes the text has; `usize::MAX` where there are more than that.
pub fn text_len<T: Spell>(tree: &T) -> usize
    ensures { result ≡ min (length (T.text tree.now)) (2 ^ 64 - 1) }
{
    match tree.spare(usize::MAX) {
        Some(left) => usize::MAX - left,
        None => usize::MAX,
    }
}

/// Puts the text at the front of `out` and answers how many bytes it has. Where `out` is too short, nothing is written.
pub fn print<T: ReadBack>(tree: &T, out: &mut [u8]) -> Result<usize, Fault>
    ensures printed { Printed (T.text tree.now) out.old out.new result }
    ensures back { IfOk result (λ n. T.back tree.now (take n out.new)) }
{
    match tree.spare(out.len()) {
        Some(left) => {
            let len = out.len() - left;
            tree.spell(&mut Buffer { out, at: 0 });
            Ok(len)
        }
        None => Err(Fault::BufferShort),
    }
}
