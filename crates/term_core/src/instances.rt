// The terms that patterns become when their variables are replaced by terms.
ghost use Rattle.std.specs.Prelude.{ℕ, ◌≡◌, ◌↔◌, ◌+◌, ◌-◌, ◌≤◌, [], length, IfOk, IsTrue, Some};
ghost use Rattle.std.specs.Prelude.{option_map};
ghost use Rattle.term_core.specs.Terms.{injected};
ghost use Rattle.term_core.specs.Forests.{forest, children, size, sizes};
ghost use Rattle.term_core.specs.NormalForms.{norm};
ghost use Rattle.term_core.specs.Patterns.{injection, instance_of, instances_of};
ghost use Rattle.term_core.specs.Instances.{substituted, FitsWithin};
ghost use Rattle.term_core.specs.RulePatterns.{plain_pattern};
ghost use Rattle.term_core.specs.PatternLists.{AllFitWithin, plain_patterns};

use crate::ids::SortId;
use crate::rule_patterns::RulePat;
use crate::steps::Steps;
use crate::subst::Subst;
use crate::terms::{MAX_HEIGHT, Term, View};
use std::alloc::{AllocError, Global};
use std::sync::ledger::Ledger;

/// The term that `pat` becomes under `subst`: the normal form of the pattern with each variable
/// replaced by its term. `fits_within` tests the precondition: `pat` has no call, each of its
/// variables is bound, and the term is not too high. An error: out of memory.
pub fn instance(alloc: Global, pat: &RulePat, subst: &Subst) -> Result<Term, AllocError>
    requires { FitsWithin MAX_HEIGHT subst.now (plain_pattern pat.now) }
    ensures instance { IfOk result (λ t. instance_of subst.now (plain_pattern pat.now) ≡ Some t) }
    ensures norm { IfOk result
        (λ t. option_map norm (substituted subst.now (plain_pattern pat.now)) ≡ Some t) }
{
    // The terms of the substitution are normal. So only the injections of the pattern may have to
    // be joined.
    let _vars = subst.vars();
    build(alloc, pat, subst)
}

// The instance, by the pattern's form.
#[cycle(build)]
fn build(alloc: Global, pat: &RulePat, subst: &Subst) -> Result<Term, AllocError>
    requires { FitsWithin MAX_HEIGHT subst.now (plain_pattern pat.now) }
    ensures { IfOk result (λ t. instance_of subst.now (plain_pattern pat.now) ≡ Some t) }
{
    match pat {
        RulePat::Var(var) => match subst.get(*var) {
            Some(term) => term.share(),
            None => unreachable!(),
        },
        RulePat::Value(sort, value) => Term::value(alloc, *sort, value.share()?),
        RulePat::Ctor(sym, args) => {
            let args = build_all(alloc, args, subst)?;
            Term::ctor(alloc, *sym, args)
        }
        RulePat::Inj(from, to, below) => {
            let child = build(alloc, below, subst)?;
            Term::inj(alloc, *from, *to, &child)
        }
        RulePat::Call(..) => unreachable!(),
    }
}

// The instances of some patterns, which are the arguments of a constructor.
#[cycle(build)]
fn build_all(alloc: Global, pats: &[RulePat], subst: &Subst) -> Result<Vec<Term>, AllocError>
    requires { AllFitWithin (MAX_HEIGHT - 1) subst.now (plain_patterns pats.now) }
    ensures { IfOk result
        (λ ts. instances_of subst.now (plain_patterns pats.now) ≡ Some (forest ts.items)) }
{
    let mut terms = Vec::with_capacity(alloc, pats.len())?;
    for pat in pats {
        terms.push(build(alloc, pat, subst)?)?;
    }
    Ok(terms)
}

/// Whether `pat` has an instance under `subst` whose height is at most `limit`. It allocates no
/// memory. The depth of its recursion is at most `limit` plus the number of injections in a row.
#[cycle(fits_within)]
pub fn fits_within(pat: &RulePat, subst: &Subst, limit: u32) -> bool
    ensures { IsTrue result ↔ FitsWithin limit subst.now (plain_pattern pat.now) }
{
    match pat {
        RulePat::Var(var) => subst.get(*var).is_some_and(|term| term.height() <= limit),
        RulePat::Value(..) => 0 < limit,
        RulePat::Ctor(_, args) => 0 < limit && all_fit_within(args, subst, limit - 1),
        RulePat::Inj(_, _, below) => injection_fits_within(below, subst, limit),
        RulePat::Call(..) => false,
    }
}

// Whether each pattern has an instance whose height is at most `limit`.
#[cycle(fits_within)]
fn all_fit_within(pats: &[RulePat], subst: &Subst, limit: u32) -> bool
    ensures { IsTrue result ↔ AllFitWithin limit subst.now (plain_patterns pats.now) }
{
    for pat in pats {
        if !fits_within(pat, subst, limit) {
            return false;
        }
    }
    true
}

// Whether the injection of the pattern's instance has a height of at most `limit`.
#[cycle(fits_within)]
fn injection_fits_within(pat: &RulePat, subst: &Subst, limit: u32) -> bool
    ensures { (a b : ℕ) → IsTrue result
        ↔ FitsWithin limit subst.now (injection a b (plain_pattern pat.now)) }
{
    match pat {
        RulePat::Var(var) => subst
            .get(*var)
            .is_some_and(|term| term.height_injected() <= limit),
        RulePat::Inj(_, _, below) => injection_fits_within(below, subst, limit),
        _ => 0 < limit && fits_within(pat, subst, limit - 1),
    }
}

/// Whether `term` is the only instance of `pat`. A pattern with a variable or a call has no such
/// term. It allocates no memory, and looks at each value, constructor and injection of the term at
/// most once.
#[cycle(is_instance)]
pub fn is_instance<L: Ledger>(pat: &RulePat, term: &Term, steps: &mut Steps<L>) -> bool
    ensures instance { IsTrue result ↔ (instance_of [] (plain_pattern pat.now) ≡ Some term.now) }
    ensures looks { steps.new ≤ steps.old + size term.now }
{
    match pat {
        RulePat::Var(_) | RulePat::Call(..) => false,
        RulePat::Value(sort, value) => match term.view(steps) {
            View::Value(own_sort, own_value) => *sort == own_sort && value.same(own_value),
            _ => false,
        },
        RulePat::Ctor(sym, args) => match term.view(steps) {
            View::Ctor(own_sym, count) => {
                *sym == own_sym && args.len() == count && are_instances(args, term, steps)
            }
            _ => false,
        },
        RulePat::Inj(from, to, below) => is_injected(*from, *to, below, term, steps),
    }
}

// Whether the children of `term` are the only instances of the patterns, in the same order.
#[cycle(is_instance)]
fn are_instances<L: Ledger>(pats: &[RulePat], term: &Term, steps: &mut Steps<L>) -> bool
    requires { length pats.now ≡ length (children term.now) }
    ensures instances { IsTrue result
        ↔ (instances_of [] (plain_patterns pats.now) ≡ Some (forest (children term.now))) }
    ensures looks { steps.new ≤ steps.old + sizes (forest (children term.now)) }
{
    for (i, pat) in pats.iter().enumerate() {
        if !is_instance(pat, term.child(i), steps) {
            return false;
        }
    }
    true
}

// Whether `term` is the injection of the only instance of `pat`. An injection at the root of `pat`
// is joined with this one.
#[cycle(is_instance)]
fn is_injected<L: Ledger>(
    from: SortId,
    to: SortId,
    pat: &RulePat,
    term: &Term,
    steps: &mut Steps<L>,
) -> bool
    ensures instance { IsTrue result
        ↔ (option_map (injected from.0 to.0) (instance_of [] (plain_pattern pat.now))
        ≡ Some term.now) }
    ensures looks { steps.new ≤ steps.old + size term.now }
{
    if let RulePat::Inj(first, _, below) = pat {
        return is_injected(*first, to, below, term, steps);
    }
    match term.view(steps) {
        View::Inj(own_from, own_to) => from == own_from
            && to == own_to
            && is_instance(pat, term.child(0), steps),
        _ => false,
    }
}
