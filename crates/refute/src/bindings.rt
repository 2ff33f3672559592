// The terms that comparing a pattern with a term comes to at a variable.
ghost use Rattle.std.specs.Prelude.{◌≡◌, ◌≢◌, ◌↔◌, IsTrue, ℕ, List, IfOk, Contains, option_copied};
ghost use Rattle.term_core.specs.Terms.{Tree, node};
ghost use Rattle.term_core.specs.Patterns.{variable, application, injection};
ghost use Rattle.term_core.specs.Patterns.{ground_pattern, ground_patterns};
ghost use Rattle.term_core.specs.Forests.{forest, children};
ghost use Rattle.term_core.specs.PatternLists.{plain_patterns};
ghost use Rattle.term_core.specs.RulePatterns.{plain_pattern};
ghost use Rattle.rule_core.specs.Sorting.{HasSort, IsTermOf};
ghost use Rattle.rule_core.specs.WellSorted.{HasNoCall};
ghost use Rattle.rule_core.specs.declared.signature.Signature.{Signature};
ghost use Rattle.refute.specs.Clashes.{ComesTo};
ghost use Rattle.refute.specs.Bindings.{FindsBinding, HasTwo, IsOther, IsPairOver};

use crate::meetings::{Meeting, met};
use rule_core::Subsorts;
use std::alloc::{AllocError, Global};
use term_core::{RulePat, SortId, Term, pattern_of};

// The first term, from left to right, to which comparing a pattern with a term comes at the variable
// x, but not this one. `whole` is the pattern of the term.
#[cycle(binding_of)]
pub(crate) fn binding_of(
    alloc: Global,
    subsorts: &Subsorts,
    x: u32,
    but: Option<&Term>,
    pat: &RulePat,
    whole: &RulePat,
    term: &Term,
) -> Result<Option<Term>, AllocError>
    requires sorted { IsPairOver subsorts.now (plain_pattern pat.now) term.now }
    requires whole { plain_pattern whole.now ≡ ground_pattern term.now }
    ensures { IfOk result
        (FindsBinding subsorts.now x (option_copied but.entry) (plain_pattern pat.now) term.now) }
{
    match met(subsorts, pat, whole, term) {
        Meeting::Clash | Meeting::Ends => Ok(None),
        Meeting::Variable(y) => other_than(x, but, y, term),
        Meeting::Arguments(_, args, wholes) => {
            binding_among(alloc, subsorts, x, but, args, wholes, term)
        }
        Meeting::Below(from, through, _, below, inner) => {
            let child = term.child(0);
            if from == through {
                return binding_of(alloc, subsorts, x, but, below, inner, child);
            }
            // The term is not too high. So its child, injected, is not too high either.
            let _high = term.height();
            let lowered = Term::inj(alloc, from, through, child)?;
            let inner = pattern_of(alloc, &lowered)?;
            binding_of(alloc, subsorts, x, but, below, &inner, &lowered)
        }
    }
}

// `binding_of` for a variable y.
fn other_than(x: u32, but: Option<&Term>, y: u32, term: &Term) -> Result<Option<Term>, AllocError>
    ensures { IfOk result (λ o. (pairs : List (ℕ × ℕ)) →
        FindsBinding pairs x (option_copied but.entry) (variable y) term.now o) }
{
    if x != y {
        return Ok(None);
    }
    if is_other(but, term) {
        return Ok(Some(term.share()?));
    }
    Ok(None)
}

// Whether the term is not that one.
fn is_other(but: Option<&Term>, term: &Term) -> bool
    ensures { IsTrue result ↔ IsOther (option_copied but.entry) term.now }
{
    match but {
        None => true,
        Some(other) => !other.same(term),
    }
}

// `binding_of` for a constructor of arguments.
#[cycle(binding_of)]
fn binding_among(
    alloc: Global,
    subsorts: &Subsorts,
    x: u32,
    but: Option<&Term>,
    args: &[RulePat],
    wholes: &[RulePat],
    term: &Term,
) -> Result<Option<Term>, AllocError>
    requires sorted { (f : ℕ) × (term.now ≡ node f (forest (children term.now)))
        × IsPairOver subsorts.now (application f (plain_patterns args.now)) term.now }
    requires wholes { plain_patterns wholes.now ≡ ground_patterns (forest (children term.now)) }
    ensures { IfOk result (λ o. (f : ℕ) → term.now ≡ node f (forest (children term.now))
        → FindsBinding subsorts.now x (option_copied but.entry)
        (application f (plain_patterns args.now)) term.now o) }
{
    for i in 0..args.len() {
        let found = binding_of(alloc, subsorts, x, but, &args[i], &wholes[i], term.child(i))?;
        if found.is_some() {
            return Ok(found);
        }
    }
    Ok(None)
}

// A variable, and two different terms to which comparing comes at it.
#[derive(Drop)]
pub(crate) struct Twice {
    pub(crate) variable: u32,
    pub(crate) first: Term,
    pub(crate) second: Term,
}

// One of the variables with two different terms to which comparing a pattern with a term comes at
// it. `whole` is the pattern of the term.
pub(crate) fn bound_twice(
    alloc: Global,
    subsorts: &Subsorts,
    variables: &[u32],
    pat: &RulePat,
    whole: &RulePat,
    term: &Term,
) -> Result<Twice, AllocError>
    requires sorted { IsPairOver subsorts.now (plain_pattern pat.now) term.now }
    requires whole { plain_pattern whole.now ≡ ground_pattern term.now }
    requires two { (x : ℕ) × Contains variables.now x
        × HasTwo subsorts.now x (plain_pattern pat.now) term.now }
    ensures first { IfOk result (λ f. ComesTo subsorts.now (variable f.variable) f.first
        (plain_pattern pat.now) term.now) }
    ensures second { IfOk result (λ f. ComesTo subsorts.now (variable f.variable) f.second
        (plain_pattern pat.now) term.now) }
    ensures differ { IfOk result (λ f. f.first ≢ f.second) }
{
    for x in variables {
        if let Some(first) = binding_of(alloc, subsorts, *x, None, pat, whole, term)? {
            let but = Some(&first);
            if let Some(second) = binding_of(alloc, subsorts, *x, but, pat, whole, term)? {
                return Ok(Twice {
                    variable: *x,
                    first,
                    second,
                });
            }
        }
    }
    unreachable!()
}
