// The substitutions by which arguments match their terms, one by one.
ghost use Rattle.std.specs.Prelude.{◌≡◌, ◌↔◌, ◌<◌, ◌≤◌, ◌^◌, ℕ, List, Option, IfOk, IfSome, All};
ghost use Rattle.std.specs.Prelude.{IsTrue, Some, None, length, slice_get};
ghost use Rattle.term_core.specs.Terms.{Tree, no_tree, more_trees};
ghost use Rattle.term_core.specs.Patterns.{no_pattern, more_patterns};
ghost use Rattle.term_core.specs.RulePatterns.{sort_numbers};
ghost use Rattle.rule_core.specs.MatchSearch.{FindsMatch, UseFirst};
ghost use Rattle.rule_core.specs.WellSorted.{IsSignature};
ghost use Rattle.guard_body.specs.Arguments.{AreFound, AreOne, AreTwoFor, FindsArgument};
ghost use Rattle.guard_body.specs.Arguments.{IsArgument, pattern_of};

use crate::arguments::Argument;
use rule_core::{Signature, Subsorts, find_match, match_laws, with_names};
use std::alloc::{AllocError, Global};
use std::marker::Brand;
use std::slice::from_ref;
use std::sync::ledger::{Blank, Ledger};
use term_core::{SortId, Steps, Subst};

/// The substitutions by which the first arguments match their terms. If there are more arguments, the
/// next one does not match. `AllocError`: out of memory. It takes a time in the sizes of the patterns,
/// and of the terms if a variable occurs more than once in an argument.
pub fn all_found(
    alloc: Global,
    sig: &Signature,
    sorts: &[SortId],
    arguments: &[Argument<'_>],
) -> Result<Vec<Subst>, AllocError>
    requires signature { IsSignature sig.now }
    requires arguments { All (IsArgument sig.now (sort_numbers sorts.now)) arguments.now }
    ensures { IfOk result
        (λ found. AreFound sig.now (sort_numbers sorts.now) arguments.now found.items) }
{
    let mut all = Vec::new(alloc);
    for argument in arguments {
        match found(alloc, sig, sorts, argument)? {
            Some(subst) => all.push(subst)?,
            None => return Ok(all),
        }
    }
    Ok(all)
}

// The substitution by which an argument matches its term, if there is one. It binds its names.
fn found(
    alloc: Global,
    sig: &Signature,
    sorts: &[SortId],
    argument: &Argument<'_>,
) -> Result<Option<Subst>, AllocError>
    requires signature { IsSignature sig.now }
    requires argument { IsArgument sig.now (sort_numbers sorts.now) argument.now }
    ensures { IfOk result (FindsArgument sig.now (sort_numbers sorts.now) argument.now) }
{
    match_laws();
    // The term is normal, and not too high.
    let _high = argument.term.height();
    let subsorts = &sig.subsorts;
    match counted::<Brand>(alloc, subsorts, sorts.len(), argument, Blank::new(1))? {
        Some(subst) => {
            let whole = with_names(alloc, from_ref(&argument.pat), &argument.named, subst)?;
            Ok(Some(whole))
        }
        None => Ok(None),
    }
}

// The same without the names, with a counter of the looks at the term. Its count is never read.
fn counted<L: Ledger>(
    alloc: Global,
    subsorts: &Subsorts,
    count: usize,
    argument: &Argument<'_>,
    blank: Blank,
) -> Result<Option<Subst>, AllocError>
    requires scoped { UseFirst count (more_patterns (pattern_of argument.now) no_pattern) }
    requires name { blank.name ≡ L.name }
    requires parts { blank.parts ≡ L.parts }
    requires some { 0 < L.parts }
    ensures { IfOk result (FindsMatch subsorts.now count
        (more_patterns (pattern_of argument.now) no_pattern)
        (more_trees argument.now.term.now no_tree)) }
{
    let mut steps = Steps::<L>::new(blank);
    find_match(
        alloc,
        &argument.pat,
        count,
        subsorts,
        argument.term,
        &mut steps,
    )
}

/// A variable, and the numbers of two substitutions that bind it to different terms.
#[derive(Clone, Copy)]
pub struct Twice {
    /// The variable.
    pub variable: u32,
    /// The number of one substitution.
    pub first: usize,
    /// The number of the other one.
    pub second: usize,
}

/// A variable that two of the substitutions bind to different terms, if there is one. Each two are
/// compared. There are at most 64, as many as a symbol has arguments.
pub fn bound_twice(found: &[Subst]) -> Option<Twice>
    requires { All (λ theta. length theta ≤ 2 ^ 32) found.now }
    ensures there { IfSome result (λ w. (theta : List (Option Tree)) × (sigma : List (Option Tree))
        × (slice_get found.now w.first ≡ Some theta)
        × (slice_get found.now w.second ≡ Some sigma) × AreTwoFor w.variable theta sigma) }
    ensures none { result ≡ None → AreOne found.now }
{
    for first in 0..found.len() {
        for second in 0..first {
            if let Some(variable) = differing(&found[first], &found[second]) {
                return Some(Twice {
                    variable,
                    first,
                    second,
                });
            }
        }
    }
    None
}

// A variable that both substitutions bind, but to different terms, if there is one.
fn differing(theta: &Subst, sigma: &Subst) -> Option<u32>
    requires { length theta.now ≤ 2 ^ 32 }
    ensures there { IfSome result (λ x. AreTwoFor x theta.now sigma.now) }
    ensures none { result ≡ None → (x : ℕ) → AreTwoFor x theta.now sigma.now → ⊥ }
{
    for x in 0..theta.vars() {
        if differ(theta, sigma, x as u32) {
            return Some(x as u32);
        }
    }
    None
}

// Whether both substitutions bind the variable, but to different terms.
fn differ(theta: &Subst, sigma: &Subst, x: u32) -> bool
    ensures { IsTrue result ↔ AreTwoFor x theta.now sigma.now }
{
    match (theta.get(x), sigma.get(x)) {
        (Some(first), Some(second)) => !first.same(second),
        _ => false,
    }
}
