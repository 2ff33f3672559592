// Matrices of patterns (Maranget 2008, "Compiling Pattern Matching to Good Decision Trees").
//
// A `Matrix` has numbered rows of patterns and columns, which are positions of subjects. `of` joins
// nested injections, which changes no match of a row. `heads` returns the heads that the rows have
// in a column. `specialize` keeps the rows that can match subjects with a given head there. `rest`
// keeps the rows that ask nothing there. `matrix_laws` says that only rows that do not match are
// left out. `split` puts rows into groups by all heads at a position, in one pass
// (specs/Groups.antt).
//
// A matching tree looks at positions of the subjects, one after another, until all heads of a row
// are found. `tree_laws` says that it finds just the rows that match, in their order, and that a
// row of which all heads were found matches exactly if the places of each variable have one term.
// `asked_positions` and `row_twins` list the positions and those places of a row.
//
// The definitions that other crates cite are also here: heads (specs/Heads.antt), positions
// (specs/Positions.antt), rows (specs/Rows.antt), matching trees (specs/MatchTrees.antt), and
// places of variables (specs/Occurrences.antt).
#![tactic(auto)]

mod asked;
mod cells;
mod collapsing;
mod columns;
mod groups;
mod heads;
mod laws;
mod matrix;
mod order;
mod places;

pub use asked::asked_positions;
pub use cells::asked_at;
pub use collapsing::collapsed;
pub use columns::child_position;
pub use groups::{Groups, Split};
pub use heads::{Head, find_head, takes_root};
pub use laws::{finding_laws, matrix_laws, tree_laws};
pub use matrix::Matrix;
pub use places::{Place, Twin, row_twins};
