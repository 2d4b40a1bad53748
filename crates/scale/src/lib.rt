// Scales of truth: what is asked of one, and the two kinds, the flag and the word.
//
//   flag  yes or no
//   word  sixty-four flags side by side
#![tactic(auto)]

ghost use Rattle.std.specs.Prelude.{◌≡◌, ◌↔◌, IsTrue};
ghost use Rattle.logic.specs.Algebra.{Algebra, Laws, Judgeable};
ghost use Rattle.logic.specs.Consequences.{Consequences};
ghost use Rattle.logic.specs.Weight.{WeightMeans};
ghost use Rattle.scale.specs.Words.{BitByBit};

mod flag;
mod word;

pub use flag::Flag;
pub use word::Word;

/// Values that connectives join. It asks less than the laws: what finding the value of a formula uses.
pub trait Answers: Copy {
    /// The five operations.
    ghost algebra: { Algebra Self };

    fn top() -> Self
        ensures { result ≡ algebra.top };

    fn bottom() -> Self
        ensures { result ≡ algebra.bottom };

    fn and(self, other: Self) -> Self
        ensures { result ≡ algebra.and self other };

    fn or(self, other: Self) -> Self
        ensures { result ≡ algebra.or self other };

    fn not(self) -> Self
        ensures { result ≡ algebra.not self };

    /// Whether the value is top.
    fn is_top(self) -> bool
        ensures { IsTrue result ↔ (self ≡ algebra.top) };

    ghost judgeable: { Judgeable algebra };
}

/// A scale of truth: values that keep Huntington's eight laws.
pub trait Scale: Answers {
    ghost laws: { Laws Self.Answers.algebra };
}

/// What follows from the eight laws, on every scale.
pub fn laws_suffice<S: Scale>()
    ensures { Consequences S.Answers.algebra }
{}

/// A word is sixty-four flags, and each operation goes bit by bit.
pub fn words_are_flags()
    ensures { BitByBit }
{}

/// In every structure over every scale, the weight of a formula is the greatest value that each of its values is at least as true
/// as, and it is top exactly where the formula holds.
pub fn weight_means<S: Scale>()
    ensures { WeightMeans S.Answers.algebra }
{}
