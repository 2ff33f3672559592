// Runs: a term is rewritten step by step, by the first rule that applies.
//
// `Run::new` evaluates the initial term. `Run::step` makes one step, is stuck or is blocked exactly
// as `Steps` defines it (specs/Runs.antt of `rule_core`), and returns a record that satisfies
// `RecordsStep`. Calls of functions are counted over the whole run. `Run::new_as` and
// `Run::step_as` are the same for any `Recording`. With `Unrecorded`, a step allocates only for its
// terms and substitutions. A run keeps its last configuration and a number, so its memory does not
// grow with its steps. The caller limits the number of steps.
//
// A step finds the rules that match by walks over their matching tree. It is lent the tree and the
// slots of its walks. After the step the slots keep the rule that was used (specs/KeptRules.antt).
#![tactic(auto)]

mod rules;
mod run;
mod step;

pub use run::{Next, Run};
pub use step::Made;
