// The signs that texts are made of: names and sets of them, connectives, quantifiers, and the classes of bytes.
//
//   name       the digit of a name
//   variables  sets of variables
//   signs      connectives and quantifiers, and their bytes
//   class      the classes of bytes
//   table      the class of each byte value
#![tactic(auto)]

mod class;
mod name;
mod signs;
mod table;
mod variables;

pub use class::Class;
pub use name::{NAMES, Name};
pub use signs::{Connective, Quantifier};
pub use variables::Variables;
