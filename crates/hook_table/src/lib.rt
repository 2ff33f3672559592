// The hooks on whole numbers and truth values: a table, and one call.
//
// `hook_rows` returns the 31 rows of the definition (specs/HookValues.antt of `term_core`), in its
// order. No two rows have the same name. `find` returns the number of a name, and
// `None` exactly when no row has the name. `apply` returns the value of the definition, or the only
// reason why there is none. `fits` tests what `apply` requires. The definition is about the whole
// numbers of mathematics, so no computation of a value wraps. No call takes memory.
#![tactic(auto)]

mod calls;
mod integers;
mod rows;
mod table;
mod truths;

pub use calls::{apply, fits};
pub use table::{HookRow, ScalarKind, find, hook_rows};
