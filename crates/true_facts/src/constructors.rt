// Constructors that are applied to variables.
ghost use Rattle.std.specs.Prelude.{◌≡◌, ◌↔◌, ◌≤◌, ◌<◌, ◌^◌, ℕ, List, length, map, IfOk, IsTrue};
ghost use Rattle.std.specs.Prelude.{Some};
ghost use Rattle.ml_pat.specs.Patterns.{constant, var};
ghost use Rattle.term_core.specs.RulePatterns.{sort_numbers};
ghost use Rattle.ml_image.specs.Counted.{at_variables};
ghost use Rattle.ml_image.specs.OwnAxioms.{sort_numbered};
ghost use Rattle.true_facts.specs.Only.{IsOnly};
ghost use Rattle.true_facts.specs.Constructors.{applied_head, sorts_found, IsMade, made_found};
ghost use Rattle.true_facts.specs.Constructors.{IsDeclared, declared_found};

use crate::shapes::{as_app, as_constant, as_var};
use crate::tokens::symbol_of;
use ml_pat::{MPat, Names};
use rule_core::{Signature, SortRef, SymKind};
use std::alloc::{AllocError, Global};
use term_core::SortId;

// The sort that a constructor makes, and the sorts of its arguments.
#[derive(Drop)]
pub(crate) struct Declared {
    pub(crate) sort: SortId,
    pub(crate) args: Vec<SortId>,
}

// A constructor and its declaration.
#[derive(Drop)]
pub(crate) struct Made {
    pub(crate) symbol: usize,
    pub(crate) declared: Declared,
}

// The constructor whose application to variables, numbered from `first`, has this image. It is not
// associative, commutative or idempotent, and has no unit.
pub(crate) fn constructor_at(
    alloc: Global,
    sig: &Signature,
    names: &Names,
    pattern: &MPat,
    first: usize,
) -> Result<Option<Made>, AllocError>
    requires { first < 2 ^ 63 }
    ensures { IfOk result
        (λ r. IsOnly (IsMade sig.now names.now pattern.now first) (made_found r)) }
{
    let Some(number) = as_constant(applied_head(pattern)) else {
        return Ok(None);
    };
    let Some(symbol) = symbol_of(sig, names, number) else {
        return Ok(None);
    };
    let Some(declared) = declaration(alloc, sig, symbol)? else {
        return Ok(None);
    };
    if is_at_variables(pattern, first, declared.args.len()) {
        Ok(Some(Made { symbol, declared }))
    } else {
        Ok(None)
    }
}

// What is applied in the end, without its arguments.
fn applied_head(pattern: &MPat) -> &MPat
    ensures { result.now ≡ applied_head pattern.now }
{
    let mut head = pattern;
    while let Some((inner, _)) = as_app(head) {
        head = inner;
    }
    head
}

// Whether the pattern is a constant that is applied to `count` variables, numbered from `first`.
fn is_at_variables(pattern: &MPat, first: usize, count: usize) -> bool
    requires first { first < 2 ^ 63 }
    requires count { count < 2 ^ 63 }
    ensures { IsTrue result ↔ ((c : ℕ) × (pattern.now ≡ at_variables (constant c) first count)) }
{
    let mut head = pattern;
    for i in (0..count).rev() {
        let Some((inner, arg)) = as_app(head) else {
            return false;
        };
        if !is_variable(arg, first + i) {
            return false;
        }
        head = inner;
    }
    as_constant(head).is_some()
}

// Whether the pattern is the variable with this number.
pub(crate) fn is_variable(pattern: &MPat, number: usize) -> bool
    ensures { IsTrue result ↔ (pattern.now ≡ var number) }
{
    match as_var(pattern) {
        Some(x) => x.0 as usize == number,
        None => false,
    }
}

// The declaration of a constructor that is not associative, commutative or idempotent, and has no
// unit.
fn declaration(
    alloc: Global,
    sig: &Signature,
    symbol: usize,
) -> Result<Option<Declared>, AllocError>
    ensures { IfOk result (λ r. IsOnly (IsDeclared sig.now symbol) (declared_found r)) }
{
    let Some(info) = sig.symbols.value(symbol) else {
        return Ok(None);
    };
    let SymKind::Ctor = info.kind else {
        return Ok(None);
    };
    if info.ac {
        return Ok(None);
    }
    let SortRef::Sort(sort) = info.result else {
        return Ok(None);
    };
    let Some(args) = named_sorts(alloc, &info.args)? else {
        return Ok(None);
    };
    Ok(Some(Declared { sort, args }))
}

// The sorts that the references name, in order. None if one of them is a sort parameter.
fn named_sorts(alloc: Global, refs: &[SortRef]) -> Result<Option<Vec<SortId>>, AllocError>
    ensures { IfOk result
        (λ r. IsOnly (λ sorts. refs.now ≡ map sort_numbered sorts) (sorts_found r)) }
{
    let mut sorts = Vec::with_capacity(alloc, refs.len())?;
    for of in refs {
        match of {
            SortRef::Sort(sort) => sorts.push(*sort)?,
            SortRef::Param(_) => return Ok(None),
        }
    }
    Ok(Some(sorts))
}
