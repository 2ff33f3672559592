// The plain trial of rules, one by one in their order.
ghost use Rattle.std.specs.Prelude.{◌≡◌, ◌<◌, All, IfOk};
ghost use Rattle.rule_core.specs.ProgramView.{rewrite_rules};
ghost use Rattle.rule_core.specs.RuleVariables.{MatchesByOwnVariables};
ghost use Rattle.rule_core.specs.Trial.{FindsFirstMatch};

use crate::matching::find_match;
use crate::{Rule, Subsorts};
use std::alloc::{AllocError, Global};
use std::marker::Brand;
use std::sync::ledger::{Blank, Ledger};
use term_core::{Steps, Subst, Term};

/// The first of `rules`, from the index `from` on, that matches the term: its index, and the
/// substitution under which its left side becomes the term. It is None exactly when no rule from
/// there on matches, so also if `from` is past the end. `AllocError`: out of memory for a
/// substitution. The rules are tried one by one, up to the first that matches, each at the cost of
/// `find_match`. A left side may use only the variables of its rule.
pub fn first_match(
    alloc: Global,
    rules: &[Rule],
    subsorts: &Subsorts,
    from: usize,
    term: &Term,
) -> Result<Option<(usize, Subst)>, AllocError>
    requires { All MatchesByOwnVariables rules.now }
    ensures { IfOk result (FindsFirstMatch subsorts.now (rewrite_rules rules.now) from term.now) }
{
    counted_match::<Brand>(alloc, rules, subsorts, from, term, Blank::new(1))
}

// The same, with a counter of the looks at the term. Its count is never read.
fn counted_match<L: Ledger>(
    alloc: Global,
    rules: &[Rule],
    subsorts: &Subsorts,
    from: usize,
    term: &Term,
    blank: Blank,
) -> Result<Option<(usize, Subst)>, AllocError>
    requires scoped { All MatchesByOwnVariables rules.now }
    requires name { blank.name ≡ L.name }
    requires parts { blank.parts ≡ L.parts }
    requires some { 0 < L.parts }
    ensures { IfOk result (FindsFirstMatch subsorts.now (rewrite_rules rules.now) from term.now) }
{
    let mut steps = Steps::<L>::new(blank);
    for i in from..rules.len() {
        let rule = &rules[i];
        if let Some(subst) = find_match(
            alloc,
            &rule.left,
            rule.vars.len(),
            subsorts,
            term,
            &mut steps,
        )? {
            return Ok(Some((i, subst)));
        }
    }
    Ok(None)
}
