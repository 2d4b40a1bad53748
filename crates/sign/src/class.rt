// The class of each byte value.
ghost use Rattle.std.specs.Prelude.{◌≡◌, T};
ghost use Rattle.logic.specs.Class.{class_of, is};
ghost use Rattle.sign.specs.Table.{class, follows};

use crate::table::CLASSES;

/// What a byte can be in a text: a digit, a bracket, a comma, else the sign that it is or begins, or none.
#[derive(Clone, Copy, PartialEq, Eq, Debug)]
pub enum Class {
    None,
    Digit,
    Open,
    Close,
    Comma,
    Variable,
    Constant,
    Function1,
    Function2,
    Predicate0,
    Predicate1,
    Predicate2,
    Not,
    And,
    Or,
    Implies,
    Every,
    Some,
}

/// The class of a byte.
impl From<u8> for Class {
    ghost from_gives = { λ byte result. class result ≡ class_of byte };

    fn from(byte: u8) -> Class {
        Class::in_table(&CLASSES, byte)
    }
}

impl Class {
    /// Whether a byte is of this class.
    pub fn has(self, byte: u8) -> bool
        ensures { result ≡ is (class_of byte) (class self) }
    {
        Class::from(byte) == self
    }

    // The class that a table has for a byte: the right one, where the whole table passes the test.
    fn in_table(table: &[Class; 256], byte: u8) -> Class
        requires { T (follows 0 table.now) }
        ensures { class result ≡ class_of byte }
    {
        table[byte as usize]
    }
}
