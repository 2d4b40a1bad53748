// The digit of a name.
ghost use Rattle.std.specs.Prelude.{◌≡◌, ◌<◌, ◌≤◌, MatchOption, slice_index_or};
ghost use Rattle.logic.specs.Text.{names};

/// How many names each letter has.
pub const NAMES: usize = 8;

/// The digit behind the letter of a name, below `NAMES`.
#[derive(Clone, Copy, PartialEq, Eq, Debug)]
pub struct Name {
    pub digit: u8,
    ghost small: { digit < names },
}

impl Name {
    /// The name with this digit, where there is one.
    // An `Option` and no `TryFrom`, whose error nobody would print.
    pub fn new(digit: u8) -> Option<Name>
        ensures { MatchOption result (names ≤ digit) (λ n. n.digit ≡ digit) }
    {
        if (digit as usize) < NAMES {
            Some(Name { digit })
        } else {
            None
        }
    }

    /// Every name, in rising order of the digits.
    pub fn all() -> [Name; NAMES]
        ensures { (x other : Name) → slice_index_or result x.digit other ≡ x }
    {
        [
            Name { digit: 0 },
            Name { digit: 1 },
            Name { digit: 2 },
            Name { digit: 3 },
            Name { digit: 4 },
            Name { digit: 5 },
            Name { digit: 6 },
            Name { digit: 7 },
        ]
    }
}
