// Elements for the variables.
ghost use Rattle.std.specs.Prelude.{◌≡◌};
ghost use Rattle.logic.specs.Assignment.{assign, listed};
ghost use Rattle.logic.specs.Weight.{zeros};

use sign::{NAMES, Name};

/// An element for each variable.
// An array and no map, since it is copied at each turn of a quantifier, where no memory may be asked for.
#[derive(Clone, Copy, Debug, PartialEq, Eq)]
pub struct Assignment {
    pub elements: [u8; NAMES],
}

impl Assignment {
    /// Element 0 for each variable.
    pub fn zeros() -> Assignment
        ensures { listed result.elements ≡ zeros }
    {
        Assignment {
            elements: [0; NAMES],
        }
    }

    /// The variable's element.
    pub fn element(self, variable: Name) -> u8
        ensures { result ≡ listed self.elements variable.digit }
    {
        self.elements[variable.digit as usize]
    }

    /// The same, but with this element for the variable.
    pub fn with(self, variable: Name, element: u8) -> Assignment
        ensures { listed result.elements ≡ assign (listed self.elements) variable.digit element }
    {
        let mut elements = self.elements;
        elements[variable.digit as usize] = element;
        Assignment { elements }
    }
}
