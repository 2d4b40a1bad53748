// Connectives and quantifiers, and their bytes.
ghost use Rattle.std.specs.Prelude.{◌≡◌};
ghost use Rattle.logic.specs.Signs.{joint, letter as letter_of};
ghost use Rattle.sign.specs.View.{connective, quantifier};

#[derive(Clone, Copy, PartialEq, Eq, Debug)]
pub enum Connective {
    And,
    Or,
    Implies,
}

impl Connective {
    /// The byte that stands for the connective.
    // A method and no `From`, which would not say which number it gives.
    pub fn sign(self) -> u8
        ensures { result ≡ joint (connective self) }
    {
        match self {
            Connective::And => b'&',
            Connective::Or => b'|',
            Connective::Implies => b'>',
        }
    }
}

#[derive(Clone, Copy, PartialEq, Eq, Debug)]
pub enum Quantifier {
    Every,
    Some,
}

impl Quantifier {
    /// The byte that stands for the quantifier.
    pub fn letter(self) -> u8
        ensures { result ≡ letter_of (quantifier self) }
    {
        match self {
            Quantifier::Every => b'A',
            Quantifier::Some => b'E',
        }
    }
}
