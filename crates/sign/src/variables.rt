// Sets of variables.
ghost use Rattle.std.specs.Prelude.{◌≡◌, ◌<◌, Some};
ghost use Rattle.std.specs.Fmt.{WritesOnOk};
ghost use Rattle.logic.specs.Text.{names};
ghost use Rattle.sign.specs.Sets.{is_in};
ghost use Rattle.sign.specs.Shown.{piece, variables_text};

use crate::name::{NAMES, Name};
use std::fmt;

/// A set of variables: for each digit, whether its variable is in the set.
// An array and no set of the library's, since it is copied where no memory may be asked for.
#[derive(Clone, Copy, PartialEq, Eq, Debug)]
pub struct Variables {
    pub holds: [bool; NAMES],
}

impl Variables {
    /// The variables whose answers are yes, where the answers stand in rising order of the digits. A test is asked of every name by
    /// `Variables::of(Name::all().map(test))`.
    pub fn of(answers: [bool; NAMES]) -> Variables
        ensures { result.holds ≡ answers }
    {
        Variables { holds: answers }
    }

    /// Whether the variable is in the set.
    pub fn contains(&self, variable: Name) -> bool
        ensures { result ≡ is_in self.now variable.digit }
    {
        self.holds[variable.digit as usize]
    }
}

impl fmt::Display for Variables {
    ghost output = { λ v. Some (variables_text v.holds) };

    fn fmt<W: fmt::Write>(&self, f: &mut fmt::Formatter<W>) -> fmt::Result {
        let mut is_empty = true;
        for (digit, is_in) in self.holds.iter().enumerate() {
            if *is_in {
                show_variable(digit as u8, is_empty, f)?;
                is_empty = false;
            }
        }
        if is_empty {
            f.write_str("none")
        } else {
            Ok(())
        }
    }
}

// Writes the variable with this digit, behind a blank where it is not the first. A text in place of the flag would have to be made
// from the same flag elsewhere.
fn show_variable<W: fmt::Write>(digit: u8, is_first: bool, f: &mut fmt::Formatter<W>) -> fmt::Result
    requires { digit < names }
    ensures { WritesOnOk W.write_str_gives f.old result (piece is_first digit) f.new }
{
    if !is_first {
        f.write_char(' ')?;
    }
    f.write_char('x')?;
    f.write_char((b'0' + digit) as char)
}
