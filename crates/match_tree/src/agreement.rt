// Whether terms have the heads for which patterns ask.
ghost use Rattle.std.specs.Prelude.{◌≡◌, length};
ghost use Rattle.term_core.specs.Forests.{children};
ghost use Rattle.term_core.specs.RulePatterns.{plain_pattern};
ghost use Rattle.term_core.specs.PatternLists.{plain_patterns};
ghost use Rattle.match_tree.specs.Agreement.{agree, all_agree};

use pat_matrix::takes_root;
use rule_core::Subsorts;
use std::sync::ledger::Ledger;
use term_core::{RulePat, Steps, Term};

// Whether the term has every head for which the pattern asks.
#[cycle(agrees)]
fn agrees<L: Ledger>(pat: &RulePat, term: &Term, subsorts: &Subsorts, steps: &mut Steps<L>) -> bool
    ensures { result ≡ agree subsorts.now (plain_pattern pat.now) term.now }
{
    match pat {
        RulePat::Var(_) => true,
        RulePat::Value(..) => takes_root(pat, term, subsorts, steps),
        RulePat::Ctor(_, args) => {
            takes_root(pat, term, subsorts, steps) && children_agree(args, term, subsorts, steps)
        }
        RulePat::Inj(_, _, below) => {
            takes_root(pat, term, subsorts, steps) && agrees(below, term.child(0), subsorts, steps)
        }
        RulePat::Call(..) => false,
    }
}

// The same for the patterns of a constructor's arguments and the children of a term.
#[cycle(agrees)]
fn children_agree<L: Ledger>(
    pats: &[RulePat],
    term: &Term,
    subsorts: &Subsorts,
    steps: &mut Steps<L>,
) -> bool
    requires { length pats.now ≡ length (children term.now) }
    ensures { result ≡ all_agree subsorts.now (plain_patterns pats.now) (children term.now) }
{
    for (i, pat) in pats.iter().enumerate() {
        if !agrees(pat, term.child(i), subsorts, steps) {
            return false;
        }
    }
    true
}

// The same for a row and the subjects.
pub(crate) fn row_agrees<L: Ledger>(
    row: &[RulePat],
    subjects: &[Term],
    subsorts: &Subsorts,
    steps: &mut Steps<L>,
) -> bool
    requires { length row.now ≡ length subjects.now }
    ensures { result ≡ all_agree subsorts.now (plain_patterns row.now) subjects.now }
{
    for (i, pat) in row.iter().enumerate() {
        if !agrees(pat, &subjects[i], subsorts, steps) {
            return false;
        }
    }
    true
}
