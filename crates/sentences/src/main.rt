// Checks a sheet of sentences, one a line: which are formulas, and where the others go wrong.
//
//   judgement  how a sentence is judged
//   counts     how many sentences there were, and of which kind
//   sheet      the sentence being taken, and the counts
//   window     which bytes of a sentence are shown
//   excerpt    a sentence as it is shown, with a caret under a place
//   report     the lines that tell of a sentence
#![tactic(auto)]

mod counts;
mod excerpt;
mod judgement;
mod report;
mod sheet;
mod window;

use fault::Fault;
use judgement::judge;
use report::Report;
use sheet::Sheet;
use std::io::Read;

// How many bytes are asked for at a time: a page.
const CHUNK: usize = 4096;

fn main(rt: HostRuntime) -> anyhow::Result<()> {
    run(&rt)
}

// Takes the sheet from standard input, chunk by chunk, and tells of each sentence as it ends. The chunk stands on the stack, so that
// an empty sheet asks for no memory. Nothing says that an input ends, so the loop counts.
fn run(rt: &HostRuntime) -> anyhow::Result<()> {
    let mut input = rt.stdin();
    let mut sheet = Sheet::new(rt.alloc());
    for _ in 0..u64::MAX {
        let mut chunk = [0u8; CHUNK];
        let count = input.read(&mut chunk)?;
        if count == 0 {
            break;
        }
        for byte in &chunk[0..count] {
            take(rt, &mut sheet, *byte)?;
        }
    }
    if !sheet.sentence.is_empty() {
        tell(rt, &mut sheet)?;
    }
    let counts = sheet.counts;
    println!(rt; "{counts}")?;
    Ok(())
}

// Takes one byte of the sheet.
fn take(rt: &HostRuntime, sheet: &mut Sheet, byte: u8) -> anyhow::Result<()> {
    if byte == b'\n' {
        tell(rt, sheet)?;
        sheet.next();
    } else {
        sheet.hold(byte)?;
    }
    Ok(())
}

// Judges the sentence that was taken, counts it, and says so. Where memory is wanting for that, the program ends in the words of
// that fault.
fn tell(rt: &HostRuntime, sheet: &mut Sheet) -> anyhow::Result<()> {
    let sentence = sheet.sentence.as_slice();
    let judgement = judge(rt.alloc(), sentence).map_err(Fault::from)?;
    sheet.counts.add(judgement);
    let number = sheet.counts.sentences;
    let report = Report {
        number,
        judgement,
        sentence,
    };
    println!(rt; "{report}")?;
    Ok(())
}
