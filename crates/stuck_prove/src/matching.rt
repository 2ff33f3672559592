// The substitution by which a rule's left side matches a term, if there is one.
ghost use Rattle.std.specs.Prelude.{◌≡◌, ◌<◌, IfOk, length};
ghost use Rattle.term_core.specs.Terms.{more_trees, no_tree};
ghost use Rattle.term_core.specs.Patterns.{more_patterns, no_pattern};
ghost use Rattle.term_core.specs.RulePatterns.{plain_pattern};
ghost use Rattle.rule_core.specs.MatchSearch.{FindsMatch, UseFirst};
ghost use Rattle.rule_core.specs.ProgramView.{rewrite_rule, theory_of};
ghost use Rattle.rule_core.specs.WellSorted.{IsWellSorted};
ghost use Rattle.stuck_prove.specs.Trials.{AreOfOneSort, FindsNamed};

use rule_core::{Program, Rule, Subsorts, find_match, match_laws, with_names};
use std::alloc::{AllocError, Global};
use std::marker::Brand;
use std::slice::from_ref;
use std::sync::ledger::{Blank, Ledger};
use term_core::{Steps, Subst, Term};

// The substitution by which the rule matches the term, with the names of parts, if there is one.
pub(crate) fn found(
    alloc: Global,
    program: &Program,
    rule: &Rule,
    term: &Term,
) -> Result<Option<Subst>, AllocError>
    requires well_sorted { IsWellSorted (theory_of program.now) }
    requires sorted { AreOfOneSort program.now (rewrite_rule rule.now) term.now }
    ensures { IfOk result (FindsNamed (theory_of program.now) (rewrite_rule rule.now) term.now) }
{
    match_laws();
    // The term is normal, and not too high.
    let _high = term.height();
    match counted::<Brand>(alloc, &program.sig.subsorts, rule, term, Blank::new(1))? {
        Some(subst) => {
            let whole = with_names(alloc, from_ref(&rule.left), &rule.named, subst)?;
            Ok(Some(whole))
        }
        None => Ok(None),
    }
}

// The same without the names, with a counter of the looks at the term. Its count is never read.
fn counted<L: Ledger>(
    alloc: Global,
    subsorts: &Subsorts,
    rule: &Rule,
    term: &Term,
    blank: Blank,
) -> Result<Option<Subst>, AllocError>
    requires scoped { UseFirst (length rule.now.vars.items)
        (more_patterns (plain_pattern rule.now.left) no_pattern) }
    requires name { blank.name ≡ L.name }
    requires parts { blank.parts ≡ L.parts }
    requires some { 0 < L.parts }
    ensures { IfOk result (FindsMatch subsorts.now (length rule.now.vars.items)
        (more_patterns (plain_pattern rule.now.left) no_pattern)
        (more_trees term.now no_tree)) }
{
    let mut steps = Steps::<L>::new(blank);
    find_match(
        alloc,
        &rule.left,
        rule.vars.len(),
        subsorts,
        term,
        &mut steps,
    )
}
