// The proof of a path that was read from a hint file.
//
// `proved_path` states each step of the path in a Metamath database by `prove_run`, from the records
// of the step. The steps need not be those of a run: each is by some rule that applies. The database
// is in the created file of a desk. It is written step by step, so that after each step the file is
// a proof of the path so far, and is closed at the end.
#![tactic(auto)]

mod proved;

pub use proved::proved_path;
