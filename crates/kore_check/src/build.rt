// The rule pattern that a pattern means.
ghost use Rattle.std.specs.Prelude.{◌≡◌, ℕ, List, map, IfOk, option_map};
ghost use Rattle.kore_text.specs.Trees.{pattern_trees};
ghost use Rattle.kore_ast.specs.Plain.{plain_sort, pattern_tree as plain_tree};
ghost use Rattle.term_core.specs.RulePatterns.{plain_pattern, sort_numbers as numbers_of};
ghost use Rattle.term_core.specs.PatternLists.{plain_patterns};
ghost use Rattle.rule_core.specs.WellSorted.{IsSignature};
ghost use Rattle.kore_check.specs.Folds.{named_variable, written_value, unfolded, all_unfolded};
ghost use Rattle.kore_check.specs.Folds.{inner_fold, only_of, connective_of};
ghost use Rattle.kore_check.specs.PatternSorts.{sort_numbers};
ghost use Rattle.kore_check.specs.PatternMeanings.{applied_pattern, injected_only};
ghost use Rattle.kore_sig.specs.Numbered.{IsNumbered};
ghost use Rattle.kore_check.specs.Building.{Built, AllBuilt, Extends, IsHead, left_pattern};
ghost use Rattle.kore_check.specs.Building.{right_pattern, only_named};
ghost use Rattle.kore_check.specs.PatternMeanings.{is_variable_pattern};

use crate::Variables;
use crate::pairs::is_pair;
use crate::sorts::declared_sort;
use crate::values::{kind_of, value_in};
use kore_ast::{Op, Pat, PatForm, Sort, Text};
use rule_core::{Signature, SymKind};
use std::alloc::{AllocError, Global};
use term_core::{RulePat, SortId, SymId};

// A declared symbol and its sort arguments.
#[derive(Drop)]
pub(crate) struct Head {
    sym: SymId,
    kind: SymKind,
    sorts: Vec<SortId>,
}

// The declared symbol with this name, and these sort arguments. It is None if the symbol or one of
// the sorts is not declared.
fn head_of(
    alloc: Global,
    sig: &Signature,
    name: &Text,
    sorts: &[Sort],
) -> Result<Option<Head>, AllocError>
    requires { IsNumbered sig.now }
    ensures { IfOk result (IsHead sig.now name.now (map plain_sort sorts.now)) }
{
    let Some(number) = sig.symbols.number(name.as_str()) else {
        return Ok(None);
    };
    let Some(symbol) = sig.symbols.value(number) else {
        return Ok(None);
    };
    let Some(sorts) = all_declared(alloc, sig, sorts)? else {
        return Ok(None);
    };
    Ok(Some(Head {
        sym: SymId(number as u32),
        kind: symbol.kind,
        sorts,
    }))
}

// The numbers of these sorts, or None if one of them is not declared.
fn all_declared(
    alloc: Global,
    sig: &Signature,
    sorts: &[Sort],
) -> Result<Option<Vec<SortId>>, AllocError>
    requires { IsNumbered sig.now }
    ensures { IfOk result (λ found. option_map (λ ss. numbers_of ss.items) found
        ≡ sort_numbers sig.now (map plain_sort sorts.now)) }
{
    let mut declared = Vec::with_capacity(alloc, sorts.len())?;
    for sort in sorts {
        let Some(sort) = declared_sort(sig, sort) else {
            return Ok(None);
        };
        declared.push(sort)?;
    }
    Ok(Some(declared))
}

// A symbol applied to patterns. It is None if the symbol has no kind, or is an injection without
// exactly two sort arguments and one pattern.
fn applied(alloc: Global, head: &Head, args: Vec<RulePat>) -> Result<Option<RulePat>, AllocError>
    ensures { IfOk result (λ found. option_map plain_pattern found
        ≡ applied_pattern head.now.kind head.now.sym.0 (numbers_of head.now.sorts.items)
        (plain_patterns args.items)) }
{
    match head.kind {
        SymKind::Injection => injected(alloc, head, args),
        SymKind::Ctor => Ok(Some(RulePat::Ctor(head.sym, args))),
        SymKind::Equations | SymKind::Hooked(_) | SymKind::Closed => {
            let sorts = Vec::from_slice(alloc, &head.sorts)?;
            Ok(Some(RulePat::Call(head.sym, sorts, args)))
        }
        SymKind::NoKind => Ok(None),
    }
}

// The injection of the only pattern, or None if there are not exactly two sorts and one pattern.
fn injected(alloc: Global, head: &Head, args: Vec<RulePat>) -> Result<Option<RulePat>, AllocError>
    ensures { IfOk result (λ found. option_map plain_pattern found
        ≡ injected_only (numbers_of head.now.sorts.items) (plain_patterns args.items)) }
{
    let mut args = args;
    if head.sorts.len() != 2 || args.len() != 1 {
        return Ok(None);
    }
    let Some(child) = args.pop() else {
        return Ok(None);
    };
    let child = Box::new(alloc, child)?;
    Ok(Some(RulePat::Inj(head.sorts[0], head.sorts[1], child)))
}

// The variable with this name and sort, or None if the sort is not declared. A new variable is
// added.
fn build_variable(
    alloc: Global,
    sig: &Signature,
    name: &Text,
    sort: &Sort,
    vars: &mut Variables,
) -> Result<Option<RulePat>, AllocError>
    requires { IsNumbered sig.now }
    ensures built { IfOk result (λ found. (at : ℕ)
        → Built sig.now vars.old vars.new (named_variable at name.now (plain_sort sort.now))
        found) }
    ensures grows { Extends vars.old vars.new }
{
    let Some(sort) = declared_sort(sig, sort) else {
        return Ok(None);
    };
    let number = vars.number_or_add(alloc, name.as_str(), sort)?;
    Ok(Some(RulePat::Var(number)))
}

// The value of a text in a sort, or None if there is none or the sort is not declared.
fn build_value(
    alloc: Global,
    sig: &Signature,
    sort: &Sort,
    text: &Text,
) -> Result<Option<RulePat>, AllocError>
    requires { IsNumbered sig.now }
    ensures { IfOk result (λ found. (at byte : ℕ) (vars : List (List ℕ × ℕ))
        → Built sig.now vars vars (written_value at (plain_sort sort.now) text.now byte) found) }
{
    let Some(sort) = declared_sort(sig, sort) else {
        return Ok(None);
    };
    let Some(kind) = kind_of(sig, sort) else {
        return Ok(None);
    };
    let Some(value) = value_in(alloc, kind, text)? else {
        return Ok(None);
    };
    Ok(Some(RulePat::Value(sort, value)))
}

// The rule pattern that a pattern means, or None if the pattern has a fault or another form.
#[cycle(build)]
pub(crate) fn build(
    alloc: Global,
    sig: &Signature,
    pat: &Pat,
    vars: &mut Variables,
) -> Result<Option<RulePat>, AllocError>
    requires numbered { IsNumbered sig.now }
    requires signature { IsSignature sig.now }
    ensures built { IfOk result (Built sig.now vars.old vars.new (unfolded (plain_tree pat.now))) }
    ensures grows { Extends vars.old vars.new }
{
    match &pat.form {
        PatForm::Elem(name, sort) => build_variable(alloc, sig, name, sort, vars),
        PatForm::Value(sort, text, _) => build_value(alloc, sig, sort, text),
        PatForm::App(name, sorts, args) => {
            let Some(args) = build_all(args, alloc, sig, vars)? else {
                return Ok(None);
            };
            let Some(head) = head_of(alloc, sig, name, sorts)? else {
                return Ok(None);
            };
            applied(alloc, &head, args)
        }
        PatForm::Built(op, sorts, args) => build_connective(args, alloc, sig, *op, sorts, vars),
        PatForm::Fold(left, inner) => build_fold(inner, alloc, sig, *left, vars),
        PatForm::SetVar(..) | PatForm::Text(_) | PatForm::Bound(..) => Ok(None),
    }
}

// The rule patterns that these patterns mean, or None if one of them has a fault or another form.
#[cycle(build)]
fn build_all(
    args: &[Pat],
    alloc: Global,
    sig: &Signature,
    vars: &mut Variables,
) -> Result<Option<Vec<RulePat>>, AllocError>
    requires numbered { IsNumbered sig.now }
    requires signature { IsSignature sig.now }
    ensures built { IfOk result
        (AllBuilt sig.now vars.old vars.new
        (all_unfolded (pattern_trees (map plain_tree args.now)))) }
    ensures grows { Extends vars.old vars.new }
{
    let mut pats = Vec::with_capacity(alloc, args.len())?;
    for arg in args {
        let Some(pat) = build(alloc, sig, arg, vars)? else {
            return Ok(None);
        };
        pats.push(pat)?;
    }
    Ok(Some(pats))
}

// The rule pattern that a fold of this pattern means, or None if the fold has a fault or another
// form.
#[cycle(build)]
fn build_fold(
    inner: &Pat,
    alloc: Global,
    sig: &Signature,
    left: bool,
    vars: &mut Variables,
) -> Result<Option<RulePat>, AllocError>
    requires numbered { IsNumbered sig.now }
    requires signature { IsSignature sig.now }
    ensures built { IfOk result
        (Built sig.now vars.old vars.new (inner_fold left (plain_tree inner.now))) }
    ensures grows { Extends vars.old vars.new }
{
    match &inner.form {
        PatForm::App(name, sorts, args) => {
            if args.len() < 2 {
                return build_only(args, alloc, sig, vars);
            }
            let Some(args) = build_all(args, alloc, sig, vars)? else {
                return Ok(None);
            };
            let Some(head) = head_of(alloc, sig, name, sorts)? else {
                return Ok(None);
            };
            if left {
                folded_left(alloc, &head, args)
            } else {
                folded_right(alloc, &head, args)
            }
        }
        PatForm::Built(op, sorts, args) => {
            if args.len() == 1 {
                return build_only(args, alloc, sig, vars);
            }
            build_connective(args, alloc, sig, *op, sorts, vars)
        }
        PatForm::Elem(..) | PatForm::SetVar(..) | PatForm::Text(_) => Ok(None),
        PatForm::Bound(..) | PatForm::Value(..) | PatForm::Fold(..) => Ok(None),
    }
}

// The rule pattern of the part that an `\and` of two patterns gives a name, or None if one of them has
// a fault or another form, if not exactly one is a variable, or if it is another connective.
#[cycle(build)]
fn build_connective(
    args: &[Pat],
    alloc: Global,
    sig: &Signature,
    op: Op,
    sorts: &[Sort],
    vars: &mut Variables,
) -> Result<Option<RulePat>, AllocError>
    requires numbered { IsNumbered sig.now }
    requires signature { IsSignature sig.now }
    ensures built { IfOk result (λ found. (at : ℕ)
        → Built sig.now vars.old vars.new
        (connective_of at op (map plain_sort sorts.now)
        (all_unfolded (pattern_trees (map plain_tree args.now)))) found) }
    ensures grows { Extends vars.old vars.new }
{
    if !is_pair(op, sorts, args) {
        return Ok(None);
    }
    let Some(pair) = build_all(args, alloc, sig, vars)? else {
        return Ok(None);
    };
    Ok(named_part(pair))
}

// Of two patterns, the one that is no variable, or None if not exactly one is a variable.
fn named_part(pair: Vec<RulePat>) -> Option<RulePat>
    ensures { option_map plain_pattern result ≡ only_named (plain_patterns pair.items) }
{
    let mut pair = pair;
    if pair.len() != 2 {
        return None;
    }
    let second = pair.pop()?;
    let first = pair.pop()?;
    if is_variable(&first) == is_variable(&second) {
        None
    } else if is_variable(&first) {
        Some(second)
    } else {
        Some(first)
    }
}

fn is_variable(pat: &RulePat) -> bool
    ensures { result ≡ is_variable_pattern (plain_pattern pat.now) }
{
    matches!(pat, RulePat::Var(_))
}

// The rule pattern that the only pattern means, or None if there is not exactly one.
#[cycle(build)]
fn build_only(
    args: &[Pat],
    alloc: Global,
    sig: &Signature,
    vars: &mut Variables,
) -> Result<Option<RulePat>, AllocError>
    requires numbered { IsNumbered sig.now }
    requires signature { IsSignature sig.now }
    ensures built { IfOk result (λ found. (at : ℕ)
        → Built sig.now vars.old vars.new
        (only_of at (all_unfolded (pattern_trees (map plain_tree args.now)))) found) }
    ensures grows { Extends vars.old vars.new }
{
    if args.len() != 1 {
        return Ok(None);
    }
    build(alloc, sig, &args[0], vars)
}

// A symbol folded over patterns from the left, or None if it cannot be applied to them.
fn folded_left(
    alloc: Global,
    head: &Head,
    args: Vec<RulePat>,
) -> Result<Option<RulePat>, AllocError>
    ensures { IfOk result (λ found. option_map plain_pattern found
        ≡ left_pattern head.now.kind head.now.sym.0 (numbers_of head.now.sorts.items)
        (map plain_pattern args.items)) }
{
    let mut rest = args;
    rest.reverse();
    let Some(mut made) = rest.pop() else {
        return Ok(None);
    };
    while let Some(next) = rest.pop() {
        let Some(pair) = applied(alloc, head, vec![in alloc; made, next]?)? else {
            return Ok(None);
        };
        made = pair;
    }
    Ok(Some(made))
}

// A symbol folded over patterns from the right, or None if it cannot be applied to them.
fn folded_right(
    alloc: Global,
    head: &Head,
    args: Vec<RulePat>,
) -> Result<Option<RulePat>, AllocError>
    ensures { IfOk result (λ found. option_map plain_pattern found
        ≡ right_pattern head.now.kind head.now.sym.0 (numbers_of head.now.sorts.items)
        (map plain_pattern args.items)) }
{
    let mut rest = args;
    let Some(mut made) = rest.pop() else {
        return Ok(None);
    };
    while let Some(earlier) = rest.pop() {
        let Some(pair) = applied(alloc, head, vec![in alloc; earlier, made]?)? else {
            return Ok(None);
        };
        made = pair;
    }
    Ok(Some(made))
}
