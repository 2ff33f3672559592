// Hint files: the steps of a path as a text, written and read back.
//
// A hint text lists the steps of a run, or of another path, in which each step is by some rule that
// applies (specs/Paths.antt). specs/HintTexts.antt defines the text. `start_hints` writes its first
// two lines, and `push_hint` the line of a step. `hint_laws` says that the text of a longer path is
// the text of the path and one more line. `Hints` holds the text of a run while it is made, if it is
// wanted (specs/RunTexts.antt).
//
// `HintPath::read` reads a hint file that anybody may have written. It takes each step by the rule
// that the line names, and trusts nothing else of the line. It returns the records of the path, or
// exactly the first bad line and the number by which it is bad (specs/HintLines.antt and
// specs/HintFiles.antt). Lines are read one at a time. What is kept are the records of the steps.
#![tactic(auto)]

mod ends;
mod hints;
mod laws;
mod lines;
mod places;
mod reading;
mod sizes;
mod steps;
mod writing;

pub use ends::HintEnd;
pub use hints::Hints;
pub use laws::{hint_laws, reading_laws, run_text_laws};
pub use reading::HintPath;
pub use writing::{push_hint, start_hints};
