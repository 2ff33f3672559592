// Ground terms, patterns of rules, and substitutions. Every crate that matches, evaluates or
// rewrites depends on this one.
//
// A `Term` is a shared tree that is always normal. Its height is at most `MAX_HEIGHT`. Contracts
// see it as a plain `Tree` (specs/Terms.antt). Contracts see a `RulePat` as a plain `Pattern`.
// `instance` replaces the variables of a pattern by the terms of a substitution and returns the
// normal form (specs/Patterns.antt). Each time another crate looks at the head of a term, one step
// is counted.
#![tactic(auto)]

mod ids;
mod instances;
mod rule_patterns;
mod steps;
mod subst;
mod terms;
mod values;

pub use ids::{HookNo, SortId, SymId};
pub use instances::{fits_within, instance, is_instance};
pub use rule_patterns::{RulePat, pattern_of};
pub use steps::Steps;
pub use subst::Subst;
pub use terms::{MAX_HEIGHT, Term, View};
pub use values::{NoValue, Scalar, Value};
