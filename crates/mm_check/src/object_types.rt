// Whether the variables of an assertion are those of a text that has object variables only.

ghost use Rattle.std.specs.Prelude.{◌≡◌, ◌||◌, ℕ, IfOk, nat_eq};
ghost use Rattle.std.specs.List.{list_all};
ghost use Rattle.std.specs.List.Sorted.{IsStrictlyIncreasing};
ghost use Rattle.mm_frame.specs.PlainFrames.{in_groups};
ghost use Rattle.mm_scope.specs.ScopeState.{scope_state};
ghost use Rattle.mm_justify.specs.Counting.{is_object};
ghost use Rattle.mm_check.specs.Stated.{plain_stated, plain_types};
ghost use Rattle.mm_check.specs.AxiomTests.{are_objects, numbers_of, is_known, is_apart_from};
ghost use Rattle.mm_check.specs.AxiomTests.{all_apart, has_object_types};

use crate::stated::{Stated, Typed, token};
use mm_frame::{ascending, is_among};
use mm_scope::Scopes;
use std::alloc::{AllocError, Global};

/// Whether all variables are object variables of the type `#Var`, each object variable of the
/// statement is one of them, and each two are kept apart. It takes time in the length of the
/// statement, and for each two variables at most what a look at their `$d`s takes, unless one `$d`
/// has all of them.
pub(crate) fn has_object_types(
    alloc: Global,
    scopes: &Scopes<'_>,
    stated: &Stated<'_>,
) -> Result<bool, AllocError>
    ensures { IfOk result
        (λ b. b ≡ has_object_types (scope_state scopes.now) (plain_stated stated.now)) }
{
    if !are_objects(&stated.types) {
        return Ok(false);
    }
    let numbers = numbers_of(alloc, &stated.types)?;
    if !all_apart(scopes, &numbers) {
        return Ok(false);
    }
    Ok(all_known(scopes, &ascending(numbers), &stated.numbers))
}

/// Whether all variables are object variables of the type `#Var`.
#[tactic(auto, using(crate::proofs::Scans::all_items))]
fn are_objects(types: &[Typed<'_>]) -> bool
    ensures { result ≡ are_objects (plain_types types.now) }
{
    for typed in types {
        if typed.typecode != b"#Var".as_slice() || !is_object(typed.variable) {
            return false;
        }
    }
    true
}

/// Whether the token begins as those of object variables do.
pub(crate) fn is_object(token: &[u8]) -> bool
    ensures { result ≡ is_object token.now }
{
    matches!(token, [b'x', b':', ..])
}

/// The numbers of the variables.
fn numbers_of(alloc: Global, types: &[Typed<'_>]) -> Result<Vec<u32>, AllocError>
    ensures { IfOk result (λ v. v.items ≡ numbers_of (plain_types types.now)) }
{
    let mut numbers = Vec::with_capacity(alloc, types.len())?;
    for typed in types {
        numbers.push(typed.number)?;
    }
    Ok(numbers)
}

/// Whether each two of the variables are kept apart.
#[tactic(auto, using(crate::proofs::Scans::all_items))]
fn all_apart(scopes: &Scopes<'_>, numbers: &[u32]) -> bool
    ensures { result ≡ all_apart (in_groups (scope_state scopes.now).disjoint) numbers.now }
{
    if scopes.are_together(numbers) {
        return true;
    }
    for number in numbers {
        if !is_apart_from(scopes, numbers, *number) {
            return false;
        }
    }
    true
}

/// Whether a variable is kept apart from each other one.
#[tactic(auto, using(crate::proofs::Scans::all_items))]
fn is_apart_from(scopes: &Scopes<'_>, numbers: &[u32], number: u32) -> bool
    ensures { result
        ≡ is_apart_from (in_groups (scope_state scopes.now).disjoint) numbers.now number }
{
    for other in numbers {
        if *other != number && !scopes.apart(number, *other) {
            return false;
        }
    }
    true
}

/// Whether each object variable of a statement is one of the variables. These ascend.
#[tactic(auto, using(crate::proofs::Scans::all_items))]
fn all_known(scopes: &Scopes<'_>, known: &[u32], statement: &[u32]) -> bool
    requires { IsStrictlyIncreasing known.now }
    ensures { result ≡ list_all (is_known (scope_state scopes.now).symbols known.now)
        statement.now }
{
    for symbol in statement {
        if is_object(token(scopes, *symbol)) && !is_among(known, *symbol) {
            return false;
        }
    }
    true
}
