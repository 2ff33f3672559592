// The images of true facts about built-in values and functions.
ghost use Rattle.std.specs.Prelude.{◌≡◌, ◌<◌, ℕ, List, [], length, map, IfOk, Some, Ok};
ghost use Rattle.term_core.specs.RulePatterns.{sort_numbers};
ghost use Rattle.term_core.specs.Values.{value_of, scalar_value};
ghost use Rattle.term_core.specs.HookValues.{hook_value};
ghost use Rattle.term_core.specs.Terms.{DomainValue};
ghost use Rattle.rule_core.specs.Sorting.{HasValue};
ghost use Rattle.rule_core.specs.declared.signature.SymKind.TheVariants.{Hooked};
ghost use Rattle.ml_image.specs.Images.{applied};
ghost use Rattle.ml_image.specs.Sentences.{Sentence, IsImageOf};
ghost use Rattle.ml_image.specs.TrueFacts.{SaysValue, SaysHook, HaveValues, value_patterns};
ghost use Rattle.ml_image.specs.Gained.{HasGained};

use crate::closing::named_sorts;
use crate::constructors::{declaration, result_sort};
use crate::images::head_image;
use crate::tokens::{sort_number, value_number};
use hook_table::apply;
use ml_pat::{MPat, Names};
use rule_core::{Signature, SymInfo, SymKind};
use std::alloc::{AllocError, Global};
use term_core::{Scalar, SortId, SymId, Value};

/// The fact that a domain value is one element of its sort. An error: out of memory. The names may
/// have gained tokens even then.
pub fn value_fact(
    alloc: Global,
    sig: &Signature,
    names: &mut Names,
    sort: SortId,
    value: &Value,
) -> Result<MPat, AllocError>
    requires { HasValue sig.now sort.0 (value_of value.now) }
    ensures image { IfOk result
        (IsImageOf sig.now names.new (SaysValue sig.now sort.0 (value_of value.now))) }
    ensures names { HasGained sig.now names.old names.new }
{
    let number = value_number(alloc, sig, names, sort, value)?;
    let sort = sort_number(alloc, sig, names, sort)?;
    MPat::fun(alloc, &MPat::constant(alloc, number)?, sort)
}

/// The fact that a function with a hook, applied to values, equals the value of the hook (K
/// framework, "domains.md"). The hook must have a value there. An error: out of memory. The names
/// may have gained tokens even then.
pub fn hook_fact(
    alloc: Global,
    sig: &Signature,
    names: &mut Names,
    symbol: SymId,
    args: &[Scalar],
) -> Result<MPat, AllocError>
    requires { (s : Sentence) × SaysHook sig.now symbol.0 (map scalar_value args.now) s }
    ensures image { IfOk result
        (IsImageOf sig.now names.new (SaysHook sig.now symbol.0 (map scalar_value args.now))) }
    ensures names { HasGained sig.now names.old names.new }
{
    let info = declaration(sig, symbol);
    let sorts = named_sorts(alloc, &info.args)?;
    let head = head_image(alloc, sig, names, symbol.0 as usize)?;
    let call = at_values(alloc, sig, names, head, &sorts, args)?;
    let value = value(hook_answer(info, args));
    let number = value_number(alloc, sig, names, result_sort(info), &value)?;
    MPat::equal(alloc, &call, &MPat::constant(alloc, number)?)
}

// The pattern applied to values of these sorts, one after another.
fn at_values(
    alloc: Global,
    sig: &Signature,
    names: &mut Names,
    head: MPat,
    sorts: &[SortId],
    args: &[Scalar],
) -> Result<MPat, AllocError>
    requires { HaveValues sig.now (sort_numbers sorts.now) (map scalar_value args.now) }
    ensures image { IfOk result
        (λ p. applied sig.now names.new (Some head)
        (value_patterns (sort_numbers sorts.now) (map scalar_value args.now)) ≡ Some p) }
    ensures names { HasGained sig.now names.old names.new }
{
    let mut made = head;
    for i in 0..args.len() {
        let number = value_number(alloc, sig, names, sorts[i], &value(args[i]))?;
        made = MPat::app(alloc, &made, &MPat::constant(alloc, number)?)?;
    }
    Ok(made)
}

// The value of a function's hook at these arguments.
fn hook_answer(info: &SymInfo, args: &[Scalar]) -> Scalar
    requires { (row : ℕ) × (value : DomainValue) × (info.now.kind ≡ Hooked (record { 0 = row }))
        × (hook_value row (map scalar_value args.now) ≡ Some (Ok value)) }
    ensures { (row : ℕ) → info.now.kind ≡ Hooked (record { 0 = row })
        → hook_value row (map scalar_value args.now)
        ≡ Some (Ok (scalar_value result)) }
{
    let SymKind::Hooked(hook) = info.kind else {
        unreachable!()
    };
    let answer = if args.len() == 1 {
        apply(hook, &one_argument(args))
    } else {
        apply(hook, &two_arguments(args))
    };
    match answer {
        Ok(value) => value,
        Err(_) => unreachable!(),
    }
}

// The only argument.
fn one_argument(args: &[Scalar]) -> [Scalar; 1]
    requires { length args.now ≡ 1 }
    ensures { result ≡ args.now }
{
    [args[0]]
}

// The two arguments.
fn two_arguments(args: &[Scalar]) -> [Scalar; 2]
    requires { length args.now ≡ 2 }
    ensures { result ≡ args.now }
{
    [args[0], args[1]]
}

// A scalar as a domain value.
fn value(scalar: Scalar) -> Value
    ensures { value_of result ≡ scalar_value scalar }
{
    match scalar {
        Scalar::Int(n) => Value::Int(n),
        Scalar::Bool(b) => Value::Bool(b),
    }
}
