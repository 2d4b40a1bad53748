// Runs: finite records in which sentences have values.
//
//   milepost   a row of mileposts, computed
//   listed     lists of what names answer, lent
//   table      a listed run over the bytes of a table
//   fleet      sixty-four tables that share their elements, a listed run over bytes and words
//   layout     where a list has what names answer
//   checks     what making a run looks at
#![tactic(auto)]

ghost use Rattle.std.specs.Prelude.{◌≡◌, ◌≤◌, false};
ghost use Rattle.logic.specs.Structure.{Structure};
ghost use Rattle.run.specs.Inside.{most_elements, inside0, inside1, inside2};

use scale::Answers;

mod checks;
mod fleet;
mod layout;
mod listed;
mod milepost;
mod table;

pub use fleet::{FleetRun, MOST_IN_FLEET};
pub use listed::{Listed, Truth};
pub use milepost::MilepostRun;
pub use table::{MOST_IN_TABLE, TableRun};

/// How many elements a run has at most.
pub const MOST_ELEMENTS: u8 = 64;

/// A finite structure that is asked one question at a time. A question leaves the run as it is. One about a name past the last,
/// or about what is no element, gets element 0 or bottom.
// Each question has that as a clause of its own, where its callers see it, and not as a law of the trait.
pub trait Run {
    /// The scale of the values. Finding a value asks no more of it than `Answers` says; what is known of every `Scale` comes on
    /// top.
    type Scale: Answers;

    /// What the run means.
    ghost meaning: { Self → Structure Self.Scale };

    /// A run has at most `MOST_ELEMENTS` elements.
    ghost few: { (r : Self) → (meaning r).size ≤ most_elements };

    /// How many elements there are.
    fn size(&self) -> u8
        ensures { result ≡ (meaning self.now).size };

    /// The element that a constant stands for.
    fn constant(&self, digit: u8) -> u8
        ensures told { result ≡ (meaning self.now).con digit }
        ensures outside { inside0 digit ≡ false → result ≡ 0 };

    /// What a function of one argument answers.
    fn apply1(&self, digit: u8, a: u8) -> u8
        ensures told { result ≡ (meaning self.now).fun1 digit a }
        ensures outside { inside1 (meaning self.now).size digit a ≡ false → result ≡ 0 };

    /// What a function of two arguments answers.
    fn apply2(&self, digit: u8, a: u8, b: u8) -> u8
        ensures told { result ≡ (meaning self.now).fun2 digit a b }
        ensures outside { inside2 (meaning self.now).size digit a b ≡ false → result ≡ 0 };

    /// The value of a predicate of no argument.
    fn predicate0(&self, digit: u8) -> Self::Scale
        ensures told { result ≡ (meaning self.now).pred0 digit }
        ensures outside { inside0 digit ≡ false → result ≡ Self.Scale.algebra.bottom };

    /// The value of a predicate of one argument.
    fn predicate1(&self, digit: u8, a: u8) -> Self::Scale
        ensures told { result ≡ (meaning self.now).pred1 digit a }
        ensures outside { inside1 (meaning self.now).size digit a ≡ false → result ≡ Self.Scale.algebra.bottom };

    /// The value of a predicate of two arguments.
    fn predicate2(&self, digit: u8, a: u8, b: u8) -> Self::Scale
        ensures told { result ≡ (meaning self.now).pred2 digit a b }
        ensures outside { inside2 (meaning self.now).size digit a b ≡ false → result ≡ Self.Scale.algebra.bottom };
}
