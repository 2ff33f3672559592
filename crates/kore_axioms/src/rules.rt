// Rewrite rules: what a rule means, or its first fault.
ghost use Rattle.std.specs.Prelude.{◌≡◌, ◌&&◌, [], ℕ, None, map, option_map, IfOk, OnOk, IfErr};
ghost use Rattle.std.specs.Prelude.{IfSome};
ghost use Rattle.kore_ast.specs.Plain.{plain_sort, plain_axiom_decl};
ghost use Rattle.term_core.specs.RulePatterns.{plain_pattern};
ghost use Rattle.rule_core.specs.WellSorted.{IsSignature};
ghost use Rattle.kore_sig.specs.Numbered.{IsNumbered};
ghost use Rattle.kore_check.specs.PatternFaults.{pattern_faults};
ghost use Rattle.kore_sig.specs.Noted.{first_by_number};
ghost use Rattle.kore_check.specs.Folds.{unfolded};
ghost use Rattle.kore_check.specs.Applicative.{IsApplicative};
ghost use Rattle.kore_shapes.specs.Views.{pattern_at, plain_rewriting};
ghost use Rattle.kore_axioms.specs.AxiomClasses.{rewrites, axiom_class};
ghost use Rattle.kore_axioms.specs.AxiomMeanings.{MeansTest};
ghost use Rattle.kore_axioms.specs.NamedRules.{with_some_variables, MeansNamedRule};
ghost use Rattle.kore_axioms.specs.BuiltRules.{IsFine, IsBuiltOf, FirstOfShape};
ghost use Rattle.kore_axioms.specs.Refusals.{Refuses};
ghost use Rattle.kore_axioms.specs.Conditions.{tested_pattern as the_tested};
ghost use Rattle.kore_sig.specs.FirstFault.{faults_of_tests};
ghost use Rattle.kore_axioms.specs.RuleForms.{holds_of, form_faults};
ghost use Rattle.kore_axioms.specs.RuleFaults.{listed_pattern, is_bound};
ghost use Rattle.kore_axioms.specs.RuleFaults.{differs_from as does_differ, use_tests};
ghost use Rattle.kore_axioms.specs.RuleFaults.{sorted_faults, FirstOfRule};
ghost use Rattle.kore_axioms.specs.RuleParts.{left_of, right_of};
ghost use Rattle.kore_axioms.specs.UsedSymbols.{is_used};
ghost use Rattle.kore_axioms.specs.Uses.{has_symbol as has_one};
ghost use Rattle.kore_axioms.specs.Views.{plain_rule_parts, fault_at};

use crate::faults::{AxiomFault, first_of_tests};
use crate::parts::{RuleParts, form_fault, rule_parts, tested};
use crate::priorities::priority_of;
use crate::refusals::Refusal;
use crate::sides::sort_fault;
use crate::uses::{Symbols, has_symbol};
use kore_ast::{AxiomDecl, Pat, Sort};
use kore_check::{Variables, add_names, build_pattern};
use kore_shapes::{Rewriting, same_sort};
use rule_core::{Named, Rule, Signature, VarInfo};
use std::alloc::{AllocError, Global};
use term_core::RulePat;

/// The first fault of how the sides of a rewrite rule use symbols and variables. `first` is the
/// sort of the first rule, if there is one before this. `bound` says whether all variables of the
/// rule occur in its left side.
fn use_fault(
    sig: &Signature,
    first: Option<&Sort>,
    sort: &Sort,
    parts: RuleParts<'_>,
    bound: bool,
) -> Option<AxiomFault>
    requires { bound ≡ (is_bound (listed_pattern (left_of (plain_rule_parts parts)))
        (the_tested (plain_rule_parts parts).condition)
        && is_bound (listed_pattern (left_of (plain_rule_parts parts)))
        (right_of (plain_rule_parts parts))) }
    ensures { (at : ℕ) → option_map (fault_at at) result
        ≡ first_by_number (faults_of_tests at
        (use_tests sig.now (option_map (λ s. plain_sort s.now) first.entry) (plain_sort sort.now)
        (plain_rule_parts parts.entry))) }
{
    let left = parts.before.main();
    first_of_tests(&[
        (
            uses(sig, left, Symbols::PlainFunctions),
            AxiomFault::LeftFunction,
        ),
        (uses(sig, left, Symbols::Ac), AxiomFault::AcSymbol),
        (!bound, AxiomFault::Unbound),
        (differs_from(first, sort), AxiomFault::TopSort),
    ])
}

/// Whether there is a pattern and one of these symbols occurs in it.
fn uses(sig: &Signature, pat: Option<&Pat>, which: Symbols) -> bool
    ensures { result
        ≡ holds_of (λ p. has_one (is_used which sig.now) (unfolded p))
        (option_map pattern_at pat.entry) }
{
    pat.is_some_and(|pat| has_symbol(pat, sig, which))
}

/// Whether there is a first rule and its sort is written differently.
fn differs_from(first: Option<&Sort>, sort: &Sort) -> bool
    ensures { result
        ≡ does_differ (option_map (λ s. plain_sort s.now) first.entry) (plain_sort sort.now) }
{
    first.is_some_and(|first| !same_sort(first, sort))
}

/// The patterns of a rewrite rule with their variables. `bound` says whether the left side has all
/// of these.
#[derive(Drop)]
struct RulePatterns {
    left: RulePat,
    named: Vec<Named>,
    cond: Option<RulePat>,
    right: RulePat,
    vars: Vec<VarInfo>,
    bound: bool,
}

/// The rewrite rule that an axiom of this shape means. `first` is the sort of the first rule of the
/// definition, if there is one before this. The variables of the rule are those of its left side,
/// with their names, in the order of their first occurrence; the names of parts are among them.
///
/// Errors: the first fault of the form, or else of the sorts, or else of the uses of symbols and
/// variables; or out of memory. It goes through the axiom a few times, with a look-up for each sort
/// and symbol.
pub fn checked_rule(
    alloc: Global,
    sig: &Signature,
    first: Option<&Sort>,
    decl: &AxiomDecl,
    rewriting: Rewriting<'_>,
) -> Result<Rule, Refusal>
    requires numbered { IsNumbered sig.now }
    requires signature { IsSignature sig.now }
    requires class { axiom_class sig.now (plain_axiom_decl decl.now)
        ≡ rewrites (plain_rewriting rewriting) }
    ensures clear { OnOk result
        (FirstOfRule sig.now (option_map (λ s. plain_sort s.now) first.entry)
        (plain_axiom_decl decl.now)
        (plain_rewriting rewriting.entry) None) }
    ensures means { IfOk result (MeansNamedRule sig.now (plain_axiom_decl decl.now)) }
    ensures refused { IfErr result
        (Refuses (FirstOfRule sig.now (option_map (λ s. plain_sort s.now) first.entry)
        (plain_axiom_decl decl.now)
        (plain_rewriting rewriting.entry))) }
{
    let parts = rule_parts(sig, rewriting);
    check_shape(sig, decl, rewriting.sort, parts)?;
    let made = rule_patterns(alloc, sig, parts)?;
    if let Some(fault) = use_fault(sig, first, rewriting.sort, parts, made.bound) {
        return Err(Refusal::Refused(fault.number(), decl.at));
    }
    Ok(Rule {
        at: decl.at,
        left: made.left,
        named: made.named,
        cond: made.cond,
        right: made.right,
        vars: made.vars,
        priority: priority_of(&decl.attrs),
    })
}

/// Returns an error if the form or the sorts of a rewrite rule have a fault: the first fault of the
/// form, or else of the sorts.
fn check_shape(
    sig: &Signature,
    decl: &AxiomDecl,
    sort: &Sort,
    parts: RuleParts<'_>,
) -> Result<(), Refusal>
    requires { IsNumbered sig.now }
    ensures form { OnOk result
        (form_faults (plain_axiom_decl decl.now) (plain_rule_parts parts.entry) ≡ []) }
    ensures sorts { OnOk result
        (sorted_faults sig.now (plain_sort sort.now) (plain_rule_parts parts.entry) ≡ []) }
    ensures refused { IfErr result
        (Refuses (FirstOfShape sig.now (plain_axiom_decl decl.now) (plain_sort sort.now)
        (plain_rule_parts parts.entry))) }
{
    if let Some(fault) = form_fault(decl, parts) {
        return Err(Refusal::Refused(fault.number(), decl.at));
    }
    if let Some(fault) = sort_fault(sig, sort, parts) {
        return Err(Refusal::Refused(fault.kind.number(), fault.at));
    }
    Ok(())
}

/// What the patterns of a rewrite rule mean. Its form and its sorts have no fault.
fn rule_patterns(
    alloc: Global,
    sig: &Signature,
    parts: RuleParts<'_>,
) -> Result<RulePatterns, AllocError>
    requires numbered { IsNumbered sig.now }
    requires signature { IsSignature sig.now }
    requires fine { IsFine sig.now (plain_rule_parts parts) }
    ensures { IfOk result (IsBuiltOf sig.now (plain_rule_parts parts.entry)) }
{
    let (Some(left), Some(right)) = (parts.before.main(), parts.after.main()) else {
        unreachable!()
    };
    let mut vars = Variables::new(alloc);
    let mut named = Vec::new(alloc);
    let made = build_pattern(alloc, sig, left, &mut vars)?;
    add_names(alloc, sig, left, 0, &vars, &mut named)?;
    let left_vars = vars.len();
    let cond = built_condition(alloc, sig, tested(parts.condition), &mut vars)?;
    let right = build_pattern(alloc, sig, right, &mut vars)?;
    let bound = vars.len() == left_vars;
    Ok(RulePatterns {
        left: made,
        named,
        cond,
        right,
        vars: vars.into_infos(),
        bound,
    })
}

/// What the tested pattern of a condition means, if there is one. Its new variables are appended to
/// `vars`. Fails only if memory runs out.
pub fn built_condition(
    alloc: Global,
    sig: &Signature,
    pat: Option<&Pat>,
    vars: &mut Variables,
) -> Result<Option<RulePat>, AllocError>
    requires numbered { IsNumbered sig.now }
    requires signature { IsSignature sig.now }
    requires form { IfSome (option_map pattern_at pat) (λ p. IsApplicative (unfolded p)) }
    requires faultless { IfSome (option_map pattern_at pat)
        (λ p. pattern_faults sig.now (unfolded p) ≡ []) }
    ensures vars { OnOk result
        (vars.new ≡ with_some_variables sig.now vars.old (option_map pattern_at pat.entry)) }
    ensures means { IfOk result
        (λ p. MeansTest sig.now vars.new (option_map pattern_at pat.entry)
        (option_map plain_pattern p)) }
{
    match pat {
        Some(pat) => Ok(Some(build_pattern(alloc, sig, pat, vars)?)),
        None => Ok(None),
    }
}
