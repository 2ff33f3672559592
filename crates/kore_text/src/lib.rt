// The grammar of Kore text, and the first fault of a text.
//
// `definition_fault` and `pattern_fault` say whether bytes spell a definition or a pattern by the
// grammar of the Kore language document. If they do not, they return the first fault and its place.
// The definitions are in `specs/`. `TokenStream` has the tokens of a text, `Trees` has the trees
// without memory, and `Grammar` spells a tree. `Faults` says what the first fault of a text is, and
// `Remaining` says what is left of a text while its tokens are taken. `TextLaws` and `Identifiers`
// have laws on these; they are the contracts of `text_laws` and `name_laws`. `Table` is the table
// by which the tokens are looked at, one at a time. Only private functions cite it and the other
// modules.
#![tactic(auto)]

mod expected;
mod faults;
mod finder;
mod laws;
mod names;
mod symbols;
mod tokens;
mod words;

pub use faults::TextFault;
pub use finder::{definition_fault, pattern_fault};
pub use laws::{name_laws, text_laws};
pub use names::{Binder, Built, Op};
pub use tokens::{Next, Tokens};
