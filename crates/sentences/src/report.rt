// The lines that tell of a sentence.
ghost use Rattle.std.specs.Prelude.{Some};
ghost use Rattle.sentences.specs.Shown.{refusal_text, report_text};

use crate::excerpt::Excerpt;
use crate::judgement::Judgement;
use fault::Fault;
use std::fmt;

/// A sentence, its number in the sheet, and how it was judged.
#[derive(Clone, Copy)]
pub struct Report<'a> {
    pub number: u64,
    pub judgement: Judgement,
    pub sentence: &'a [u8],
}

impl fmt::Display for Report<'_> {
    ghost output = { λ r. Some (report_text r.number r.judgement r.sentence.now) };

    fn fmt<W: fmt::Write>(&self, f: &mut fmt::Formatter<W>) -> fmt::Result {
        let Report {
            number,
            judgement,
            sentence,
        } = *self;
        match judgement {
            Ok(measures) => write!(f, "{number} {measures}"),
            Err(fault) => {
                let refusal = Refusal { fault, sentence };
                write!(f, "{number} {refusal}")
            }
        }
    }
}

// Why a sentence is no formula, and where.
#[derive(Clone, Copy)]
struct Refusal<'a> {
    fault: Fault,
    sentence: &'a [u8],
}

impl fmt::Display for Refusal<'_> {
    ghost output = { λ r. Some (refusal_text r.fault r.sentence.now) };

    fn fmt<W: fmt::Write>(&self, f: &mut fmt::Formatter<W>) -> fmt::Result {
        let Refusal { fault, sentence } = *self;
        let code = fault.number().unwrap_or(0);
        let place = fault.place();
        let excerpt = Excerpt { sentence, place };
        write!(f, "refused {code} place {place}: {fault}\n{excerpt}")
    }
}
