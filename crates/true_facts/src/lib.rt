// Whether a pattern states a true fact about built-in values, hooks, patterns that have no common
// instance, or injections; and whether a token is that of a value.
//
// The contract: `is_true_fact` answers true exactly when the pattern is the image of a true fact
// (specs/TrueFacts.antt of `ml_image`) under the given names. What a fact is about (a sort and a
// value, a function and its arguments, two sides, two sorts) is read from the pattern: the name of
// a sort, of a symbol or of a value is the token with the number that the pattern has. So the cost
// is that of the pattern and of its tokens. It goes up to the injection symbol of the signature for
// each injection. There is no recursion.
#![tactic(auto)]

mod closing;
mod constructors;
mod facts;
mod hexadecimal;
mod hook_facts;
mod injections;
mod shapes;
mod sides;
mod tokens;
mod unequal;
mod values;

pub use facts::is_true_fact;
pub use tokens::{sort_of, symbol_of};
pub use values::is_value_token;
