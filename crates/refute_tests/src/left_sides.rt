// What is proved of the left side of a rule and a configuration.
ghost use Rattle.std.specs.Prelude.{◌≡◌, ◌<◌, [], IfOk, Some, length, slice_get, vec_len};
ghost use Rattle.term_core.specs.Patterns.{no_pattern, more_patterns};
ghost use Rattle.term_core.specs.RulePatterns.{plain_pattern, sort_numbers};
ghost use Rattle.term_core.specs.Terms.{no_tree, more_trees};
ghost use Rattle.rule_core.specs.AcSymbols.{IsAcFree};
ghost use Rattle.rule_core.specs.MatchSearch.{FindsMatch};
ghost use Rattle.rule_core.specs.ProgramView.{theory_of, rewrite_rule, sorts_of};
ghost use Rattle.rule_core.specs.RuleVariables.{MatchesByOwnVariables};
ghost use Rattle.rule_core.specs.WellSorted.{IsWellSorted};
ghost use Rattle.rewriter.specs.Configurations.{IsConfiguration};
ghost use Rattle.prove_term.specs.Contexts.{HasGrown, StaysIn};

use ml_kernel::Thm;
use prove_term::Cx;
use refute::{inversion, inversion_named, mismatch, mismatch_named};
use rule_core::{Program, Rule, Subsorts, VarInfo, find_match, with_names};
use std::alloc::{AllocError, Global};
use std::marker::Brand;
use std::slice::from_ref;
use std::sync::ledger::{Blank, Ledger};
use term_core::{SortId, Steps, Subst, Term};

/// Proves that the left side of the rule at `number` and the configuration have nothing in common,
/// if it does not match the configuration. If it matches, it proves what the variables equal. It
/// takes the left side with the names of its parts.
pub(crate) fn about_left_side(
    alloc: Global,
    cx: &mut Cx<'_>,
    number: usize,
    config: &Term,
) -> Result<Thm, AllocError>
    requires well_sorted { IsWellSorted (theory_of cx.old.program) }
    requires no_ac { IsAcFree cx.old.program.sig }
    requires there { number < length (theory_of cx.old.program).rules }
    requires config { IsConfiguration (theory_of cx.old.program) config.now }
    ensures no_hypotheses { IfOk result (λ t. t.hypotheses ≡ []) }
    ensures stays { IfOk result (StaysIn cx.new) }
    ensures grown { HasGrown cx.old cx.new }
{
    let program = cx.program();
    let rule = rule_of(program, number);
    if !rule.named.is_empty() {
        return about_named_side(alloc, cx, number, config);
    }
    let sorts = variable_sorts(alloc, &rule.vars)?;
    match found(alloc, &program.sig.subsorts, rule, config)? {
        None => mismatch(alloc, cx, &sorts, &rule.left, config),
        Some(subst) => inversion(alloc, cx, &sorts, &rule.left, &subst, config),
    }
}

// The same, by the calls for left sides some of whose parts have names.
fn about_named_side(
    alloc: Global,
    cx: &mut Cx<'_>,
    number: usize,
    config: &Term,
) -> Result<Thm, AllocError>
    requires well_sorted { IsWellSorted (theory_of cx.old.program) }
    requires no_ac { IsAcFree cx.old.program.sig }
    requires there { number < length (theory_of cx.old.program).rules }
    requires config { IsConfiguration (theory_of cx.old.program) config.now }
    ensures no_hypotheses { IfOk result (λ t. t.hypotheses ≡ []) }
    ensures stays { IfOk result (StaysIn cx.new) }
    ensures grown { HasGrown cx.old cx.new }
{
    // The height of the configuration is at most the greatest height.
    let _high = config.height();
    let program = cx.program();
    let rule = rule_of(program, number);
    let sorts = variable_sorts(alloc, &rule.vars)?;
    match found(alloc, &program.sig.subsorts, rule, config)? {
        None => mismatch_named(alloc, cx, &sorts, &rule.left, &rule.named, config),
        Some(subst) => {
            let subst = with_names(alloc, from_ref(&rule.left), &rule.named, subst)?;
            inversion_named(alloc, cx, &sorts, &rule.left, &rule.named, &subst, config)
        }
    }
}

// The rule at a number.
fn rule_of(program: &Program, number: usize) -> &Rule
    requires { number < length (theory_of program.now).rules }
    ensures { slice_get (theory_of program.now).rules number ≡ Some (rewrite_rule result.now) }
{
    &program.rules[number]
}

// The sorts of variables, in order.
fn variable_sorts(alloc: Global, vars: &[VarInfo]) -> Result<Vec<SortId>, AllocError>
    ensures { IfOk result (λ sorts. sort_numbers sorts.items ≡ sorts_of vars.now) }
{
    let mut sorts = Vec::with_capacity(alloc, vars.len())?;
    for var in vars {
        sorts.push(var.sort)?;
    }
    Ok(sorts)
}

// The substitution by which the left side of the rule matches the term, if one does. It binds no
// names of parts.
fn found(
    alloc: Global,
    subsorts: &Subsorts,
    rule: &Rule,
    term: &Term,
) -> Result<Option<Subst>, AllocError>
    requires { MatchesByOwnVariables rule.now }
    ensures { IfOk result (FindsMatch subsorts.now (vec_len rule.now.vars)
        (more_patterns (plain_pattern rule.now.left) no_pattern) (more_trees term.now no_tree)) }
{
    counted::<Brand>(alloc, subsorts, rule, term, Blank::new(1))
}

// The same, with a counter of the looks at the term. Its count is never read.
fn counted<L: Ledger>(
    alloc: Global,
    subsorts: &Subsorts,
    rule: &Rule,
    term: &Term,
    blank: Blank,
) -> Result<Option<Subst>, AllocError>
    requires scoped { MatchesByOwnVariables rule.now }
    requires name { blank.name ≡ L.name }
    requires parts { blank.parts ≡ L.parts }
    requires some { 0 < L.parts }
    ensures { IfOk result (FindsMatch subsorts.now (vec_len rule.now.vars)
        (more_patterns (plain_pattern rule.now.left) no_pattern) (more_trees term.now no_tree)) }
{
    let mut steps = Steps::<L>::new(blank);
    find_match(
        alloc,
        &rule.left,
        rule.vars.len(),
        subsorts,
        term,
        &mut steps,
    )
}
