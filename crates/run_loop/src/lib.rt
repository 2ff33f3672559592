// The whole run of a term, from its evaluation to its end.
//
// `run` takes steps of `rewriter` until no rule applies, an evaluation is blocked or the limit of
// steps is reached. It returns the run of the definition (specs/Runs.antt of `rule_core`), with the
// last configuration, and writes the hint text of the run, if it is wanted. Only the present
// configuration and that text are kept, and nothing is recorded.
#![tactic(auto)]

mod ends;
mod whole;

pub use ends::RunEnd;
pub use whole::run;
