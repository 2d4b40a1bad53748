// The theory of sentences: terms and formulas, their texts, how bytes are read, and what value a formula has in a structure. Each
// function states a theorem; those over all scales of truth stand in the crate `scale`.
#![tactic(auto)]

ghost use Rattle.logic.specs.OneMeaning.{OneMeaning};
ghost use Rattle.logic.specs.Depths.{Shown};
ghost use Rattle.logic.specs.Exactly.{ReadsExactly, FaultsMean};
ghost use Rattle.logic.specs.Agreement.{ClassesAgree};
ghost use Rattle.logic.specs.Long.{ToldEarly};
ghost use Rattle.logic.specs.Examples.{Examples};

/// No text is the text of two formulas, of two terms, or of a formula and a term.
pub fn one_text_one_meaning()
    ensures { OneMeaning }
{}

/// A tree is read exactly where the bytes are its text, with its names and sizes within their limits.
pub fn reads_exactly()
    ensures { ReadsExactly }
{}

/// Each misreading means what it says.
pub fn faults_mean()
    ensures { FaultsMean }
{}

/// The parts and the levels of a tree are those that its text shows, byte by byte.
pub fn text_shows_parts()
    ensures { Shown }
{}

/// Each byte has the one class that agrees with the grammar.
pub fn classes_agree()
    ensures { ClassesAgree }
{}

/// What is wrong with a long text shows in its first bytes.
pub fn told_early()
    ensures { ToldEarly }
{}

/// Worked examples of reading.
pub fn examples_read()
    ensures { Examples }
{}
