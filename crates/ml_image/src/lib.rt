// The images of a definition: patterns of matching logic that represent its terms, rules,
// equations, symbols and sorts, and true facts about its domain values and hooks.
//
// The contract: a call returns the image of the sentence that its name says (specs/OwnAxioms.antt,
// specs/TrueFacts.antt), under the names as they are after the call. The names keep all their
// tokens. They gain only tokens of the definition's sorts, symbols and domain values
// (specs/Gained.antt). An image has one more level for each argument of a symbol. The recursion
// that makes it is only as deep as the pattern.
#![tactic(auto, using(crate::proofs::ImageLaws::gained_twice))]

mod apart;
mod closing;
mod constructors;
mod facts;
mod images;
mod last_resorts;
mod laws;
mod left_sides;
mod naming;
mod numbering;
mod rules;
mod subsorts;
mod tokens;

pub use apart::{apart_fact, inj_injective};
pub use constructors::{ctor_apart, ctor_free, ctor_total};
pub use facts::{hook_fact, value_fact};
pub use images::{injection_symbol, term_image};
pub use laws::{apart_laws, condition_laws, naming_laws};
pub use naming::{PartName, names_in, part_names};
pub use rules::{equation_image, rule_image, sort_of};
pub use subsorts::{inj_collapse, inj_total};
pub use tokens::sort_number;
