// Which bytes of a sentence are shown.
ghost use Rattle.sentences.specs.Windows.{Around};

use std::ops::Range;

/// The most bytes of a sentence that are shown: they fit a terminal's line.
const WIDTH: usize = 64;

/// The bytes around a place of a sentence of `len` bytes.
pub fn around(place: usize, len: usize) -> Range<usize>
    ensures { Around place len result.start result.end }
{
    let start = place
        .saturating_sub(WIDTH / 2)
        .min(len.saturating_sub(WIDTH));
    start..len.min(start + WIDTH)
}
