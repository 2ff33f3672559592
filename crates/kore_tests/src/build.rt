// The rule pattern and the variables of a pattern, with ample memory.
ghost use Rattle.std.specs.Prelude.{IfOk, map};
ghost use Rattle.kore_text.specs.Trees.{pattern_trees};
ghost use Rattle.kore_ast.specs.Plain.{pattern_tree};
ghost use Rattle.kore_check.specs.Folds.{unfolded, all_unfolded};
ghost use Rattle.kore_check.specs.Applicative.{IsApplicative, AreApplicative};

use crate::check::small_signature;
use kore_ast::{Pat, PatForm, Sort, SortForm, Text};
use kore_check::{Variables, build_pattern, check_pattern, note_pattern};
use std::alloc::{AllocError, Global};
use std::process::Abort;
use std::test::Fail;
use term_core::{RulePat, SortId, SymId};

const INT: SortId = SortId(0);

const EXP: SortId = SortId(2);

const PAIR: SymId = SymId(2);

fn sort(alloc: Global, name: &str) -> Result<Sort, AllocError> {
    let name = Text::new(String::from_str(alloc, name)?);
    Ok(Sort {
        at: 0,
        form: SortForm::App(name, Vec::new(alloc)),
    })
}

// The variable X of the sort `of`.
fn variable(alloc: Global, of: &str) -> Result<Pat, AllocError>
    ensures { IfOk result (λ p. IsApplicative (unfolded (pattern_tree p))) }
{
    let name = Text::new(String::from_str(alloc, "X")?);
    Ok(Pat {
        at: 0,
        form: PatForm::Elem(name, sort(alloc, of)?),
    })
}

fn application(
    alloc: Global,
    name: &str,
    sorts: Vec<Sort>,
    args: Vec<Pat>,
) -> Result<Pat, AllocError>
    requires { AreApplicative (all_unfolded (pattern_trees (map pattern_tree args.items))) }
    ensures { IfOk result (λ p. IsApplicative (unfolded (pattern_tree p))) }
{
    let name = Text::new(String::from_str(alloc, name)?);
    Ok(Pat {
        at: 0,
        form: PatForm::App(name, sorts, args),
    })
}

// pair{}(X:Exp{}, pair{}(inj{Int{},Exp{}}(X:Int{}), X:Exp{}))
fn sample(alloc: Global) -> Result<Pat, AllocError>
    ensures { IfOk result (λ p. IsApplicative (unfolded (pattern_tree p))) }
{
    let sorts = vec![in alloc; sort(alloc, "Int")?, sort(alloc, "Exp")?]?;
    let args = vec![in alloc; variable(alloc, "Int")?]?;
    let injected = application(alloc, "inj", sorts, args)?;
    let args = vec![in alloc; injected, variable(alloc, "Exp")?]?;
    let right = application(alloc, "pair", Vec::new(alloc), args)?;
    let args = vec![in alloc; variable(alloc, "Exp")?, right]?;
    application(alloc, "pair", Vec::new(alloc), args)
}

// The two arguments of a pair.
fn pair_parts(pat: &RulePat) -> Option<(&RulePat, &RulePat)> {
    match pat {
        RulePat::Ctor(PAIR, args) if args.len() == 2 => Some((&args[0], &args[1])),
        _ => None,
    }
}

// The number of a variable.
fn variable_number(pat: &RulePat) -> Option<u32> {
    match pat {
        RulePat::Var(number) => Some(*number),
        _ => None,
    }
}

fn injected_number(pat: &RulePat) -> Option<u32> {
    match pat {
        RulePat::Inj(INT, EXP, child) => variable_number(child),
        _ => None,
    }
}

// The rule pattern of the sample, and its two variables: they have one name and two sorts.
fn expect_sample(rt: &impl Abort, made: &RulePat, vars: &Variables) -> Result<(), Fail> {
    let (left, right) = pair_parts(made).ok_or("no pair")?;
    let (first, second) = pair_parts(right).ok_or("no pair within")?;
    assert_eq!(rt; variable_number(left), Some(0));
    assert_eq!(rt; injected_number(first), Some(1));
    assert_eq!(rt; variable_number(second), Some(0));
    assert_eq!(rt; vars.len(), 2);
    for (i, var) in vars.infos().iter().enumerate() {
        assert_eq!(rt; var.name.as_str(), "X", "variable {i}");
        assert_eq!(rt; var.sort, if i == 0 { EXP } else { INT }, "variable {i}");
    }
    Ok(())
}

#[test]
fn checks_a_pattern(rt: HostRuntime) -> Result<(), Fail> {
    let alloc = rt.alloc();
    let sig = small_signature(&rt, alloc)?;
    let pat = sample(alloc)?;
    let mut vars = Variables::new(alloc);
    let (made, sort) = check_pattern(alloc, &sig, &pat, &mut vars)?;
    assert_eq!(rt; sort, EXP);
    expect_sample(&rt, &made, &vars)
}

#[test]
fn builds_a_pattern(rt: HostRuntime) -> Result<(), Fail> {
    let alloc = rt.alloc();
    let sig = small_signature(&rt, alloc)?;
    let pat = sample(alloc)?;
    let mut first = None;
    note_pattern(&sig, &pat, &mut first);
    if let Some(_fault) = first {
        panic!(rt; "a fault");
    }
    let mut vars = Variables::new(alloc);
    let made = build_pattern(alloc, &sig, &pat, &mut vars)?;
    expect_sample(&rt, &made, &vars)
}
