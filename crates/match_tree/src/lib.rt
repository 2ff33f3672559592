// Matching trees, trials and walks (Maranget 2008, "Compiling Pattern Matching to Good Decision
// Trees").
//
// `compile` makes the matching tree for the rows of a matrix, as a flat list of nodes. A node first
// tries its rows in order, and is then refined, as long as there is room for more nodes
// (specs/Drafting.antt). Nothing recurses along chains of nodes. Lists of rows are joined late.
//
// `Tree::walk` finds the first row that matches, from the start or after the last hit, and takes no
// memory. `Slots` keep the nodes that it passed (specs/Ways.antt, specs/SlotView.antt). Each
// position that it looked at is asked by a row that can still match (specs/Asking.antt).
// `Tree::find` finds the same rows, and keeps nothing, so walks may be nested (specs/Finding.antt).
// `Tree::bindings` is the substitution by which a row matches, and `Slots::subst` the one of the
// last hit's row.
//
// Each place of a tree has a label, which says what is left to do there (specs/FlatNodes.antt).
// `node_laws` says that such nodes are those of trees. `walk_laws` says what each step of a walk
// over them leads to (specs/Walking.antt). `place_laws` says that the places of a variable are
// known at a hit by what was found (specs/Spots.antt), so that no term is looked at again.
//
// `rule_tree` and `equation_tree` make the trees of a program (specs/Programs.antt). `program_laws`
// says that a walk over them finds the first rule, or the first equation, that matches
// (specs/ProgramLaws.antt).
//
// `row_matches` says whether a row matches subjects. It first looks at the heads for which the row
// asks, and then compares the places of each variable. It builds no substitution.
#![tactic(auto)]

mod agreement;
mod binding;
mod compiling;
mod draft;
mod joining;
mod laws;
mod nodes;
mod notes;
mod programs;
mod slots;
mod spots;
mod standing;
mod testing;
mod trails;
mod trial;
mod walking;

pub use compiling::{Tree, compile};
pub use laws::{node_laws, place_laws, program_laws, walk_laws};
pub use nodes::{MAX_NODES, MAX_TESTS};
pub use programs::{equation_tree, rule_tree};
pub use slots::{Hit, NodeNo, Slots};
pub use testing::Test;
pub use trial::row_matches;
