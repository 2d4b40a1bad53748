// Yes or no.
ghost use Rattle.scale.specs.Flags.{flag_algebra};
ghost use Rattle.logic.proofs.Boolean;
ghost use Rattle.scale.specs.FlagsLemmas.{flag_laws};

use crate::{Answers, Scale};

/// Yes or no.
#[derive(Clone, Copy, PartialEq, Eq, Debug)]
pub struct Flag {
    pub value: bool,
}

// The operators are those of `Word`; a generic type over both would need a trait with the laws that each impl proves.
impl Answers for Flag {
    ghost algebra = { flag_algebra };

    ghost judgeable = { Boolean.judgeable flag_laws };

    fn top() -> Flag {
        Flag { value: true }
    }

    fn bottom() -> Flag {
        Flag { value: false }
    }

    fn and(self, other: Flag) -> Flag {
        Flag {
            value: self.value & other.value,
        }
    }

    fn or(self, other: Flag) -> Flag {
        Flag {
            value: self.value | other.value,
        }
    }

    fn not(self) -> Flag {
        Flag { value: !self.value }
    }

    fn is_top(self) -> bool {
        self.value
    }
}

impl Scale for Flag {
    ghost laws = { flag_laws };
}
