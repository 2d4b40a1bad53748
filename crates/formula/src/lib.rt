// Terms and formulas as trees, what is measured of them, and how they are shown.
//
//   tree       terms and formulas
//   measures   parts, levels and free variables of a tree
//   text       the text of a tree: the room that it takes, and its bytes
//   count      the bytes of a text, counted
//   display    trees as text that is formatted
#![tactic(auto)]

mod count;
mod display;
mod measures;
mod text;
mod tree;

pub use text::{Sink, Spell};
pub use tree::{Formula, Term};
