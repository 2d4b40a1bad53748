// A sentence as it is shown, with a caret under a place.
ghost use Rattle.std.specs.Prelude.{◌≡◌, ℕ, List, Some, map, IsTrue};
ghost use Rattle.sentences.specs.Windows.{shown_as};
ghost use Rattle.sentences.specs.Shown.{shown_text, mark_text, excerpt_text, CaretUnder};

use crate::window;
use std::fmt;

/// The sentence, cut to a window around the place, and the caret under it, each line behind two blanks. A place past the
/// sentence is its end.
#[derive(Clone, Copy)]
pub struct Excerpt<'a> {
    pub sentence: &'a [u8],
    pub place: usize,
}

/// The caret of each excerpt stands under the byte at the place.
pub fn caret_is_under()
    ensures { (bytes : List ℕ) (place : ℕ) → CaretUnder bytes place }
{}

impl fmt::Display for Excerpt<'_> {
    ghost output = { λ e. Some (excerpt_text e.sentence.now e.place) };

    fn fmt<W: fmt::Write>(&self, f: &mut fmt::Formatter<W>) -> fmt::Result {
        let len = self.sentence.len();
        let place = self.place.min(len);
        let window = window::around(place, len);
        let before = mark(window.start > 0);
        let behind = mark(window.end < len);
        let column = before.len() + (place - window.start);
        let shown = Printable(&self.sentence[window]);
        write!(f, "  {before}{shown}{behind}\n  {:column$}^", "")
    }
}

// What stands for the bytes that are cut off on one side.
fn mark(is_cut: bool) -> &'static str
    ensures { result.now ≡ mark_text is_cut }
{
    if is_cut { "..." } else { "" }
}

// Bytes as they are shown.
#[derive(Clone, Copy)]
struct Printable<'a>(&'a [u8]);

impl fmt::Display for Printable<'_> {
    ghost output = { λ s. Some (shown_text s.0.now) };

    fn fmt<W: fmt::Write>(&self, f: &mut fmt::Formatter<W>) -> fmt::Result {
        for byte in self.0 {
            f.write_char(shown(*byte))?;
        }
        Ok(())
    }
}

// A byte of printable ASCII as it is, any other as a question mark.
fn shown(byte: u8) -> char
    ensures { result ≡ shown_as byte }
{
    match byte {
        b' '..=b'~' => byte as char,
        _ => '?',
    }
}
