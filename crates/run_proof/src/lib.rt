// The whole run of a term, with its proof.
//
// `proved_run` takes the steps of `rewriter`, as `run` of `run_loop` does. It states each step in a
// Metamath database by `prove_run`, from the records of the step's evaluations. It returns the run
// of the definition and the counts of its proof: a database that justifies the run, in which each
// `$p` has a compressed proof. The database is in the created file of a desk. It is written step by
// step, so that after each step the file is a proof of the run so far, and is closed at the end. If
// hints are wanted, they get the hint text of the run, the line of a step once its proof is written.
// If it is wanted, the database of a stuck run also has a theorem for each rule, that the last
// configuration does not meet it.
#![tactic(auto)]

mod ends;
mod proved;
mod shown;
mod steps;

pub use ends::ProvedEnd;
pub use proved::{proved_run, run_with_proof};
