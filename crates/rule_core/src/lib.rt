// Accepted definitions: their numbered sorts and symbols, their rewrite rules, and the plain trial
// of the rules.
//
// `find_match` returns the substitution under which a pattern becomes a term. It returns none
// exactly when there is no such substitution. `match_laws` says that there is at most one, and that
// instances of well-sorted patterns are well-sorted. `first_match` returns the first rule, from a
// given position on, that matches a term, and its substitution. It returns none exactly when no
// rule from there on matches. A `Table` numbers names from 0 without a gap, and no name occurs in
// it twice. It hashes the names, each after the whole text that it comes from (`TextHasher`).
//
// The definitions that other crates cite are also here: matching by substitution
// (specs/Matching.antt), the order in which rules are tried (specs/Rules.antt, specs/Trial.antt),
// the step by the first rule that applies (specs/FirstRule.antt), and runs (specs/Runs.antt).
#![tactic(auto)]

mod evaluation;
mod hashing;
mod laws;
mod matching;
mod naming;
mod records;
mod rules;
mod signature;
mod sort_sets;
mod subsorts;
mod table;
mod trial;

pub use evaluation::{evaluation_laws, record_laws, run_laws, tried};
pub use hashing::TextHasher;
pub use laws::{match_laws, subsort_laws, trial_laws};
pub use matching::{find_match, find_match_all};
pub use naming::with_names;
pub use records::{EqRecord, EvalRecord, Miss, StepRecord};
pub use rules::{Blocked, Equation, Guard, Named, Outcome, Program, Rule, VarInfo};
pub use signature::{Signature, SortInfo, SortKind, SortRef, SymInfo, SymKind};
pub use subsorts::Subsorts;
pub use table::Table;
pub use trial::first_match;
