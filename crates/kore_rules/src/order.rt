// Rules and equations in the order of trial.
ghost use Rattle.std.specs.Prelude.{◌≡◌, ◌<◌, ◌++◌, ◌==◌, ◌∷◌, [], ℕ, All, map, length, filter};
ghost use Rattle.std.specs.Prelude.{IfOk, OnOk, if◌then◌else◌};
ghost use Rattle.std.specs.List.Sorted.{IsPermutation};
ghost use Rattle.rule_core.specs.Rules.{AreInOrder};
ghost use Rattle.kore_rules.specs.AxiomsRead.{AreApart};
ghost use Rattle.kore_rules.specs.TrialOrder.{rule_key, equation_key, is_of, listed_at};
ghost use Rattle.kore_rules.specs.TrialOrder.{has_equations as does_have};

use rule_core::{Equation, Rule, SymInfo, SymKind, Table};
use std::alloc::{AllocError, Global};

/// Puts rules into the order of trial: by priority, and for the same priority by place.
pub(crate) fn put_rules_in_order(rules: &mut Vec<Rule>) -> Result<(), AllocError>
    ensures permutation { OnOk result (IsPermutation rules.old.items rules.new.items) }
    ensures in_order { OnOk result (AreApart (map rule_key rules.old.items) →
        AreInOrder (map rule_key rules.new.items)) }
{
    rules.sort_by_key(|rule| (rule.priority, rule.at))?;
    Ok(())
}

/// Puts equations into the order of trial, in the same way.
pub(crate) fn put_equations_in_order(equations: &mut Vec<Equation>) -> Result<(), AllocError>
    ensures permutation { OnOk result (IsPermutation equations.old.items equations.new.items) }
    ensures in_order { OnOk result (AreApart (map equation_key equations.old.items) →
        AreInOrder (map equation_key equations.new.items)) }
{
    equations.sort_by_key(|equation| (equation.priority, equation.at))?;
    Ok(())
}

/// The equations of each function, by its number, in the order given. There are `len` numbers.
pub(crate) fn by_function(
    alloc: Global,
    len: usize,
    equations: Vec<Equation>,
) -> Result<Vec<Vec<Equation>>, AllocError>
    requires { All (λ e. e.fun.0 < len) equations.items }
    ensures len { IfOk result (λ lists. length lists.items ≡ len) }
    ensures listed { IfOk result (λ lists. (n : ℕ) → listed_at lists.items n
        ≡ filter (is_of n) equations.items) }
{
    let mut lists = empty_lists(alloc, len)?;
    add_all(equations, &mut lists)?;
    Ok(lists)
}

/// Adds each equation to the list of its function, in the order given.
pub(crate) fn add_all(
    equations: Vec<Equation>,
    lists: &mut Vec<Vec<Equation>>,
) -> Result<(), AllocError>
    requires { All (λ e. e.fun.0 < length lists.old.items) equations.items }
    ensures len { OnOk result (length lists.new.items ≡ length lists.old.items) }
    ensures listed { OnOk result ((n : ℕ) → listed_at lists.new.items n
        ≡ listed_at lists.old.items n ++ filter (is_of n) equations.items) }
{
    for equation in equations {
        add(equation, lists)?;
    }
    Ok(())
}

/// Empties the lists of the symbols that are no functions with the values of their equations.
pub(crate) fn empty_others(alloc: Global, symbols: &Table<SymInfo>, lists: &mut Vec<Vec<Equation>>)
    requires { length lists.old.items ≡ length symbols.now }
    ensures len { length lists.new.items ≡ length lists.old.items }
    ensures listed { (n : ℕ) → listed_at lists.new.items n
        ≡ (if does_have symbols.now n then listed_at lists.old.items n else []) }
{
    for number in 0..lists.len() {
        if !has_equations(symbols, number) {
            lists[number] = Vec::new(alloc);
        }
    }
}

/// Whether the function with this number has the values of its equations.
fn has_equations(symbols: &Table<SymInfo>, function: usize) -> bool
    ensures { result ≡ does_have symbols.now function }
{
    symbols
        .value(function)
        .is_some_and(|symbol| symbol.kind == SymKind::Equations)
}

/// `len` empty lists.
fn empty_lists(alloc: Global, len: usize) -> Result<Vec<Vec<Equation>>, AllocError>
    ensures len { IfOk result (λ lists. length lists.items ≡ len) }
    ensures empty { IfOk result (λ lists. (n : ℕ) → listed_at lists.items n ≡ []) }
{
    let mut lists = Vec::with_capacity(alloc, len)?;
    for _ in 0..len {
        lists.push(Vec::new(alloc))?;
    }
    Ok(lists)
}

/// Adds an equation to the list of its function.
fn add(equation: Equation, lists: &mut Vec<Vec<Equation>>) -> Result<(), AllocError>
    requires { equation.fun.0 < length lists.old.items }
    ensures len { OnOk result (length lists.new.items ≡ length lists.old.items) }
    ensures listed { OnOk result ((n : ℕ) → listed_at lists.new.items n
        ≡ (if equation.fun.0 == n then listed_at lists.old.items n ++ equation ∷ []
        else listed_at lists.old.items n)) }
{
    let list = &mut lists[equation.fun.0 as usize];
    list.push(equation)?;
    Ok(())
}
