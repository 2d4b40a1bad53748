// How a sentence is judged.
ghost use Rattle.std.specs.Prelude.{Some, IfOk};
ghost use Rattle.sentences.specs.Judged.{Judged};
ghost use Rattle.sentences.specs.Shown.{measures_text};

use fault::Fault;
use reader::read_formula;
use sign::Variables;
use std::alloc::{AllocError, Global};
use std::fmt;

/// What is measured of a formula.
#[derive(Clone, Copy)]
pub struct Measures {
    pub parts: usize,
    pub levels: usize,
    pub free: Variables,
}

/// The measures of a formula, or why the sentence is no formula.
pub type Judgement = Result<Measures, Fault>;

/// Judges the bytes of a sentence. Want of memory is no judgement.
pub fn judge(heap: Global, sentence: &[u8]) -> Result<Judgement, AllocError>
    ensures { IfOk result (Judged sentence.now) }
{
    match read_formula(heap, sentence) {
        Ok(formula) => Ok(Ok(Measures {
            parts: formula.parts(),
            levels: formula.levels(),
            free: formula.free_variables(),
        })),
        Err(fault) => match fault {
            Fault::Memory => Err(AllocError),
            _ => Ok(Err(fault)),
        },
    }
}

impl fmt::Display for Measures {
    ghost output = { λ m. Some (measures_text m) };

    fn fmt<W: fmt::Write>(&self, f: &mut fmt::Formatter<W>) -> fmt::Result {
        let Measures {
            parts,
            levels,
            free,
        } = *self;
        write!(f, "formula, parts {parts}, levels {levels}, free {free}")
    }
}
