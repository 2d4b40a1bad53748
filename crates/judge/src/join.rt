// The two ways in which connectives and quantifiers join values.
ghost use Rattle.std.specs.Prelude.{◌≡◌, ◌↔◌, IsTrue};
ghost use Rattle.logic.specs.Value.{connect};
ghost use Rattle.judge.specs.Join.{connective, empty as empty_of, Settled};

use scale::Answers;

/// How values are joined: by `and`, or by `or`.
#[derive(Clone, Copy, Debug, PartialEq, Eq)]
pub enum Join {
    And,
    Or,
}

impl Join {
    /// The value that no values join to.
    pub fn empty<V: Answers>(self) -> V
        ensures { result ≡ empty_of V.algebra self }
    {
        match self {
            Join::And => V::top(),
            Join::Or => V::bottom(),
        }
    }

    /// Two values, joined.
    pub fn apply<V: Answers>(self, left: V, right: V) -> V
        ensures { result ≡ connect V.algebra (connective self) left right }
    {
        match self {
            Join::And => left.and(right),
            Join::Or => left.or(right),
        }
    }

    /// Whether the value is settled: whatever is joined to it changes nothing.
    pub fn is_settled<V: Answers>(self, value: V) -> bool
        ensures { IsTrue result ↔ Settled V.algebra self value }
    {
        match self {
            Join::And => value.not().is_top(),
            Join::Or => value.is_top(),
        }
    }
}
