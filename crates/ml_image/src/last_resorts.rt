// The images of the guards of equations of the last resort.
ghost use Rattle.std.specs.Prelude.{◌≡◌, ◌<◌, ◌≤◌, ◌+◌, ◌^◌, length, map, slice_get, IfOk, All};
ghost use Rattle.std.specs.Prelude.{Some};
ghost use Rattle.term_core.specs.RulePatterns.{sort_numbers};
ghost use Rattle.rule_core.specs.ProgramView.{sorts_of, guard_of, function_equation};
ghost use Rattle.ml_image.specs.Sentences.{IsImageOf};
ghost use Rattle.ml_image.specs.LastResorts.{guard_sentence, guards_sentence, sorts_at};
ghost use Rattle.ml_image.specs.HasImages.{HasPremise, IsGuard, after_guards};
ghost use Rattle.ml_image.specs.Numbering.{ListsNumbers};
ghost use Rattle.ml_image.specs.Gained.{HasGained};

use crate::closing::close_some;
use crate::numbering::Numbering;
use crate::rules::premise_image;
use ml_pat::{MPat, Names};
use rule_core::{Equation, Guard, Signature, VarInfo};
use std::alloc::{AllocError, Global};
use term_core::SortId;

// The statement that one of the guards holds. Their variables are numbered from `first`, and on
// from guard to guard.
pub(crate) fn guards_image(
    alloc: Global,
    sig: &Signature,
    names: &mut Names,
    first: u32,
    equations: &[Equation],
    guards: &[Guard],
) -> Result<MPat, AllocError>
    requires few { after_guards first (map guard_of guards.now) < 2 ^ 32 }
    requires each { All (IsGuard (map function_equation equations.now)) (map guard_of guards.now) }
    requires premises { All (HasPremise sig.now) (map function_equation equations.now) }
    ensures image { IfOk result
        (IsImageOf sig.now names.new
        (λ s. guards_sentence sig.now (map function_equation equations.now) first
        (map guard_of guards.now) ≡ Some s)) }
    ensures names { HasGained sig.now names.old names.new }
{
    let mut next = after_guards(first, guards);
    let mut made = MPat::bot(alloc)?;
    for i in (0..guards.len()).rev() {
        let guard = &guards[i];
        next -= guard.order.len() as u32;
        let one = guard_image(alloc, sig, names, next, equations, guard)?;
        made = MPat::or(alloc, &one, &made)?;
    }
    Ok(made)
}

// The number after those of the guards' variables, which are numbered from `first`.
fn after_guards(first: u32, guards: &[Guard]) -> u32
    requires { after_guards first (map guard_of guards.now) < 2 ^ 32 }
    ensures { result ≡ after_guards first (map guard_of guards.now) }
{
    let mut next = first;
    for guard in guards {
        next += guard.order.len() as u32;
    }
    next
}

// The image of a guard. Its variables are numbered from `first`.
fn guard_image(
    alloc: Global,
    sig: &Signature,
    names: &mut Names,
    first: u32,
    equations: &[Equation],
    guard: &Guard,
) -> Result<MPat, AllocError>
    requires guard { IsGuard (map function_equation equations.now) (guard_of guard.now) }
    requires premises { All (HasPremise sig.now) (map function_equation equations.now) }
    requires few { first + length guard.now.order.items ≤ 2 ^ 32 }
    ensures image { IfOk result
        (IsImageOf sig.now names.new
        (λ s. guard_sentence sig.now first guard.now.order.items
        (slice_get (map function_equation equations.now) guard.now.equation) ≡ Some s)) }
    ensures names { HasGained sig.now names.old names.new }
{
    let Some(equation) = equations.get(guard.equation as usize) else {
        unreachable!()
    };
    repeated_image(alloc, sig, names, first, &guard.order, equation)
}

// The image of a guard that repeats this equation and lists its variables in this order.
fn repeated_image(
    alloc: Global,
    sig: &Signature,
    names: &mut Names,
    first: u32,
    order: &[u32],
    equation: &Equation,
) -> Result<MPat, AllocError>
    requires premise { HasPremise sig.now (function_equation equation.now) }
    requires order { All (λ x. x < length equation.now.vars.items) order.now }
    requires few { first + length order.now ≤ 2 ^ 32 }
    ensures image { IfOk result
        (IsImageOf sig.now names.new
        (λ s. guard_sentence sig.now first order.now (Some (function_equation equation.now))
        ≡ Some s)) }
    ensures names { HasGained sig.now names.old names.new }
{
    let numbers = listed_numbers(alloc, first, order, equation.vars.len())?;
    let sorts = listed_sorts(alloc, order, &equation.vars)?;
    let premise = premise_image(alloc, sig, names, &Numbering::Listed(&numbers), equation)?;
    close_some(alloc, sig, names, first, &sorts, premise)
}

// The numbers of `count` variables, if those that are listed are numbered from `first` and all
// others are 0.
fn listed_numbers(
    alloc: Global,
    first: u32,
    order: &[u32],
    count: usize,
) -> Result<Vec<u32>, AllocError>
    requires order { All (λ x. x < count) order.now }
    requires few { first + length order.now ≤ 2 ^ 32 }
    ensures { IfOk result (λ v. ListsNumbers first order.now count v.items) }
{
    let mut numbers = Vec::new(alloc);
    numbers.resize(count, 0)?;
    for i in (0..order.len()).rev() {
        numbers[order[i] as usize] = first + i as u32;
    }
    Ok(numbers)
}

// The sorts of the listed variables, in their order.
fn listed_sorts(alloc: Global, order: &[u32], vars: &[VarInfo]) -> Result<Vec<SortId>, AllocError>
    requires { All (λ x. x < length vars.now) order.now }
    ensures { IfOk result (λ v. sort_numbers v.items ≡ sorts_at (sorts_of vars.now) order.now) }
{
    let mut sorts = Vec::with_capacity(alloc, order.len())?;
    for number in order {
        sorts.push(vars[*number as usize].sort)?;
    }
    Ok(sorts)
}
