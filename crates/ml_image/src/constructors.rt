// The images of the axioms about constructors.
ghost use Rattle.std.specs.Prelude.{◌≡◌, ◌≤◌, ◌<◌, ◌+◌, ◌^◌, ℕ, length, IfOk, Some};
ghost use Rattle.ml_pat.specs.Patterns.{equal, var, ex};
ghost use Rattle.term_core.specs.RulePatterns.{sort_numbers};
ghost use Rattle.rule_core.specs.Sorting.{IsSymbol};
ghost use Rattle.ml_image.specs.Sentences.{IsImageOf, sentence_image};
ghost use Rattle.ml_image.specs.OwnAxioms.{SaysTotal, SaysApart, SaysFree, of_variables};
ghost use Rattle.ml_image.specs.OwnAxioms.{sort_numbered};
ghost use Rattle.ml_image.specs.Closing.{TakesSorts, apart_body, of_pairs, free_body};
ghost use Rattle.ml_image.specs.HasImages.{HasTotality, HasDifference, HasFreedom};
ghost use Rattle.ml_image.specs.Gained.{HasGained};

use crate::closing::{at_pairs, at_variables, close, close_both, named_sorts};
use crate::images::head_image;
use crate::tokens::sort_number;
use ml_pat::{MPat, MSort, Names, VarNo};
use rule_core::{Signature, SortRef, SymInfo};
use std::alloc::{AllocError, Global};
use term_core::{SortId, SymId};

/// The axiom that a constructor is total (Chen and Rosu 2019): for all arguments of its sorts, the
/// result is one element of its result sort. An error: out of memory. The names may have gained
/// tokens even then.
pub fn ctor_total(
    alloc: Global,
    sig: &Signature,
    names: &mut Names,
    symbol: SymId,
) -> Result<MPat, AllocError>
    requires { HasTotality sig.now symbol.0 }
    ensures image { IfOk result (IsImageOf sig.now names.new (SaysTotal sig.now symbol.0)) }
    ensures names { HasGained sig.now names.old names.new }
{
    let info = declaration(sig, symbol);
    let sorts = named_sorts(alloc, &info.args)?;
    let count = sorts.len() as u32;
    let made = of_variables(alloc, sig, names, symbol, 0, count)?;
    let sort = sort_number(alloc, sig, names, result_sort(info))?;
    let body = is_some(alloc, VarNo(count), sort, &made)?;
    close(alloc, sig, names, &sorts, body)
}

/// The axiom that two constructors with the same result sort have different results (K framework,
/// attribute `constructor`). Neither of them may be declared associative, commutative or
/// idempotent, or with a unit. An error: out of memory. The names may have gained tokens even then.
pub fn ctor_apart(
    alloc: Global,
    sig: &Signature,
    names: &mut Names,
    first: SymId,
    second: SymId,
) -> Result<MPat, AllocError>
    requires { HasDifference sig.now first.0 second.0 }
    ensures image { IfOk result (IsImageOf sig.now names.new (SaysApart sig.now first.0 second.0)) }
    ensures names { HasGained sig.now names.old names.new }
{
    let sorts = argument_sorts(alloc, sig, first)?;
    let others = argument_sorts(alloc, sig, second)?;
    let one = (first, sorts.len() as u32);
    let other = (second, others.len() as u32);
    let body = difference(alloc, sig, names, one, other)?;
    close_both(alloc, sig, names, sorts, &others, body)
}

/// The axiom that a constructor is free (K framework, attribute `constructor`): equal results have
/// equal arguments. It has at least one argument, and may not be declared associative, commutative
/// or idempotent, or with a unit. An error: out of memory. The names may have gained tokens even
/// then.
pub fn ctor_free(
    alloc: Global,
    sig: &Signature,
    names: &mut Names,
    symbol: SymId,
) -> Result<MPat, AllocError>
    requires { HasFreedom sig.now symbol.0 }
    ensures image { IfOk result (IsImageOf sig.now names.new (SaysFree sig.now symbol.0)) }
    ensures names { HasGained sig.now names.old names.new }
{
    let sorts = argument_sorts(alloc, sig, symbol)?;
    let again = argument_sorts(alloc, sig, symbol)?;
    let body = freedom(alloc, sig, names, symbol, sorts.len() as u32)?;
    close_both(alloc, sig, names, sorts, &again, body)
}

// The argument sorts of a constructor, as its declaration lists them.
fn argument_sorts(alloc: Global, sig: &Signature, symbol: SymId) -> Result<Vec<SortId>, AllocError>
    requires { HasTotality sig.now symbol.0 }
    ensures { IfOk result (λ v. TakesSorts sig.now symbol.0 (sort_numbers v.items)) }
{
    named_sorts(alloc, &declaration(sig, symbol).args)
}

// The statement that two constructors have different results, without its quantifiers. Each
// constructor comes with the number of its arguments.
fn difference(
    alloc: Global,
    sig: &Signature,
    names: &mut Names,
    first: (SymId, u32),
    second: (SymId, u32),
) -> Result<MPat, AllocError>
    requires first { first.0.0 < length sig.now.symbols }
    requires second { second.0.0 < length sig.now.symbols }
    requires few { first.1 + second.1 ≤ 2 ^ 32 }
    ensures image { IfOk result
        (λ p. sentence_image sig.now names.new
        (apart_body first.0.0 first.1 second.0.0 second.1) ≡ Some p) }
    ensures names { HasGained sig.now names.old names.new }
{
    let left = of_variables(alloc, sig, names, first.0, 0, first.1)?;
    let right = of_variables(alloc, sig, names, second.0, first.1, second.1)?;
    MPat::not(alloc, &MPat::and(alloc, &left, &right)?)
}

// The statement that a constructor of `count` arguments is free, without its quantifiers.
fn freedom(
    alloc: Global,
    sig: &Signature,
    names: &mut Names,
    symbol: SymId,
    count: u32,
) -> Result<MPat, AllocError>
    requires symbol { symbol.0 < length sig.now.symbols }
    requires few { count + count ≤ 2 ^ 32 }
    ensures image { IfOk result
        (λ p. sentence_image sig.now names.new (free_body symbol.0 count) ≡ Some p) }
    ensures names { HasGained sig.now names.old names.new }
{
    let first = of_variables(alloc, sig, names, symbol, 0, count)?;
    let second = of_variables(alloc, sig, names, symbol, count, count)?;
    let joined = of_pairs(alloc, sig, names, symbol, count)?;
    MPat::imp(alloc, &MPat::and(alloc, &first, &second)?, &joined)
}

// A symbol applied to `count` conjunctions: of the variables 0 and `count`, and so on.
fn of_pairs(
    alloc: Global,
    sig: &Signature,
    names: &mut Names,
    symbol: SymId,
    count: u32,
) -> Result<MPat, AllocError>
    requires symbol { symbol.0 < length sig.now.symbols }
    requires few { count + count ≤ 2 ^ 32 }
    ensures image { IfOk result
        (λ p. sentence_image sig.now names.new (of_pairs symbol.0 count) ≡ Some p) }
    ensures names { HasGained sig.now names.old names.new }
{
    let head = head_image(alloc, sig, names, symbol.0 as usize)?;
    at_pairs(alloc, head, 0, count, count)
}

// The declaration of a symbol.
pub(crate) fn declaration(sig: &Signature, symbol: SymId) -> &SymInfo
    requires { symbol.0 < length sig.now.symbols }
    ensures { IsSymbol sig.now symbol.0 result.now }
{
    match sig.symbols.value(symbol.0 as usize) {
        Some(info) => info,
        None => unreachable!(),
    }
}

// The result sort of a symbol, which is not a sort parameter.
pub(crate) fn result_sort(info: &SymInfo) -> SortId
    requires { (sort : ℕ) × (info.now.result ≡ sort_numbered sort) }
    ensures { info.now.result ≡ sort_numbered result.0 }
{
    match info.result {
        SortRef::Sort(sort) => sort,
        SortRef::Param(_) => unreachable!(),
    }
}

// A symbol applied to `count` variables, numbered from `first`.
pub(crate) fn of_variables(
    alloc: Global,
    sig: &Signature,
    names: &mut Names,
    symbol: SymId,
    first: u32,
    count: u32,
) -> Result<MPat, AllocError>
    requires symbol { symbol.0 < length sig.now.symbols }
    requires few { first + count ≤ 2 ^ 32 }
    ensures image { IfOk result
        (λ p. sentence_image sig.now names.new (of_variables symbol.0 first count) ≡ Some p) }
    ensures names { HasGained sig.now names.old names.new }
{
    let head = head_image(alloc, sig, names, symbol.0 as usize)?;
    at_variables(alloc, head, first, count)
}

// The statement that `made` equals some x of the sort.
pub(crate) fn is_some(alloc: Global, x: VarNo, sort: MSort, made: &MPat) -> Result<MPat, AllocError>
    ensures { IfOk result (λ p. p ≡ ex x.0 sort.0 (equal (var x.0) made.now)) }
{
    let same = MPat::equal(alloc, &MPat::var(alloc, x)?, made)?;
    MPat::ex(alloc, x, sort, &same)
}
