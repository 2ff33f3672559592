// Injections, and the fact that an injection is injective.
ghost use Rattle.std.specs.Prelude.{◌≡◌, ◌≢◌, ◌↔◌, ◌≤◌, ◌^◌, ℕ, length, IfOk, IsTrue, MatchOption};
ghost use Rattle.std.specs.Prelude.{Some};
ghost use Rattle.ml_pat.specs.Patterns.{Pattern, imp, equal, app};
ghost use Rattle.ml_image.specs.Images.{injection_image, injection_symbol, some_symbol_image};
ghost use Rattle.ml_image.specs.Sentences.{IsImageOf};
ghost use Rattle.ml_image.specs.TrueFacts.{SaysInjective};
ghost use Rattle.true_facts.specs.Only.{IsOnly};
ghost use Rattle.true_facts.specs.Injections.{injection_found, injective};

use crate::shapes::{as_all, as_app, as_at, as_constant, as_equal, as_imp};
use crate::tokens::{is_sort, sort_of, symbol_of};
use ml_image::injection_symbol;
use ml_pat::{MPat, MSort, Names, VarNo};
use rule_core::Signature;
use std::alloc::{AllocError, Global};
use term_core::SortId;

// The lower and the upper sort of an injection.
#[derive(Clone, Copy)]
pub(crate) struct Injection {
    pub(crate) from: SortId,
    pub(crate) to: SortId,
}

// The injection whose image is the pattern.
pub(crate) fn injection_at(sig: &Signature, names: &Names, pattern: &MPat) -> Option<Injection>
    requires { length sig.now.sorts ≤ 2 ^ 32 }
    ensures { IsOnly (λ x. injection_image sig.now names.now x.0 x.1 ≡ Some pattern.now)
        (injection_found result) }
{
    let Some((once, upper)) = as_at(pattern) else {
        return None;
    };
    let Some((head, lower)) = as_at(once) else {
        return None;
    };
    if !is_injection_symbol(sig, names, head) {
        return None;
    }
    let Some(from) = sort_of(sig, names, lower) else {
        return None;
    };
    let Some(to) = sort_of(sig, names, upper) else {
        return None;
    };
    Some(Injection { from, to })
}

// Whether the pattern is the constant of the injection symbol.
fn is_injection_symbol(sig: &Signature, names: &Names, pattern: &MPat) -> bool
    ensures { IsTrue result
        ↔ (some_symbol_image sig.now names.now (injection_symbol sig.now) ≡ Some pattern.now) }
{
    let Some(number) = as_constant(pattern) else {
        return false;
    };
    let Some(symbol) = symbol_of(sig, names, number) else {
        return false;
    };
    injection_symbol(sig) == Some(symbol)
}

// Whether the pattern states that an injection is injective. The injection and the sort of the
// variables are read from the pattern, which then has to be what they state.
pub(crate) fn is_injective_fact(
    alloc: Global,
    sig: &Signature,
    names: &Names,
    pattern: &MPat,
) -> Result<bool, AllocError>
    requires { length sig.now.sorts ≤ 2 ^ 32 }
    ensures { IfOk result (λ yes. IsTrue yes
        ↔ ((a : ℕ) × (b : ℕ)
        × IsImageOf sig.now names.now (SaysInjective sig.now a b) pattern.now)) }
{
    let Some((_, sort, rest)) = as_all(pattern) else {
        return Ok(false);
    };
    let Some((_, _, body)) = as_all(rest) else {
        return Ok(false);
    };
    let Some(head) = applied_first(body) else {
        return Ok(false);
    };
    let Some(found) = injection_at(sig, names, head) else {
        return Ok(false);
    };
    if !sig.subsorts.below(found.from, found.to) {
        return Ok(false);
    }
    if !is_sort(sig, names, sort, found.from) {
        return Ok(false);
    }
    Ok(stated(alloc, sort, head)?.same(pattern))
}

// What is applied on the left side of the equality from which another is implied.
fn applied_first(pattern: &MPat) -> Option<&MPat>
    ensures { MatchOption result ((h x y z : Pattern) → pattern.now ≢ imp (equal (app h x) y) z)
        (λ h. (x : Pattern) × (y : Pattern) × (z : Pattern)
        × (pattern.now ≡ imp (equal (app h.now x) y) z)) }
{
    let Some((given, _)) = as_imp(pattern) else {
        return None;
    };
    let Some((left, _)) = as_equal(given) else {
        return None;
    };
    let Some((head, _)) = as_app(left) else {
        return None;
    };
    Some(head)
}

// The statement that what is applied is injective on the sort.
fn stated(alloc: Global, sort: MSort, head: &MPat) -> Result<MPat, AllocError>
    ensures { IfOk result (λ p. p ≡ injective sort.0 head.now) }
{
    let one = MPat::var(alloc, VarNo(0))?;
    let other = MPat::var(alloc, VarNo(1))?;
    let left = MPat::app(alloc, head, &one)?;
    let right = MPat::app(alloc, head, &other)?;
    let given = MPat::equal(alloc, &left, &right)?;
    let body = MPat::imp(alloc, &given, &MPat::equal(alloc, &one, &other)?)?;
    let inner = MPat::all(alloc, VarNo(1), sort, &body)?;
    MPat::all(alloc, VarNo(0), sort, &inner)
}
