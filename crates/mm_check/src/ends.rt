// How the decision on a database ends.

ghost use Rattle.std.specs.Prelude.{◌≡◌};
ghost use Rattle.mm_check.specs.OffenceNumbers.{offence_number};

use ml_pat::{MPat, Names};
use mm_text::MmFault;

/// What a database justifies: that one pattern reaches another. Sorts and constants are numbers of
/// names.
#[derive(Drop)]
pub struct Checked {
    pub names: Names,
    pub from: MPat,
    pub to: MPat,
}

/// What is wrong first in a valid database that justifies nothing.
#[derive(Clone, Copy, PartialEq, Eq, Debug)]
pub enum Offence {
    /// The last assertion is no `$p` without hypotheses that says that one pattern without variables
    /// reaches another, or there is no assertion.
    Conclusion,
    /// A `$f` gives its variable a type other than `#Pattern`, `#Sort` and `#Var`.
    Typing,
    /// A `$a` is no axiom of the program.
    Axiom,
}

/// Why a database was not found to justify anything.
#[derive(Clone, Copy, PartialEq, Eq)]
pub enum CheckEnd {
    /// It is not valid. This is its first fault.
    Invalid(MmFault),
    /// It is valid and justifies nothing: what is wrong first, and the byte of the first token of
    /// the statement. Where there is no assertion, the byte is the length of the text.
    Unjustified(Offence, usize),
    /// Out of memory.
    Memory,
}

impl Offence {
    /// Its number, 1 to 3.
    pub fn number(self) -> u8
        ensures { result ≡ offence_number self }
    {
        match self {
            Offence::Conclusion => 1,
            Offence::Typing => 2,
            Offence::Axiom => 3,
        }
    }
}
