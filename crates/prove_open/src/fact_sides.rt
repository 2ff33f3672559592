// The sides of the fact that two patterns differ, and what is known of their parts.
ghost use Rattle.std.specs.Prelude.{◌≡◌, ◌≤◌, ◌^◌, IfOk, false, length};
ghost use Rattle.term_core.specs.PatternLists.{plain_patterns};
ghost use Rattle.term_core.specs.RulePatterns.{plain_pattern, sort_numbers};
ghost use Rattle.ml_image.specs.Sides.{numbered};
ghost use Rattle.prove_term.specs.Contexts.{HasGrown};
ghost use Rattle.prove_open.specs.Differences.{IsValueOrConstructor};
ghost use Rattle.prove_open.specs.Elements.{IsReady, HasElement};
ghost use Rattle.prove_open.specs.FactSides.{is_injected, head_form, side_form, head_parts};
ghost use Rattle.prove_open.specs.FactSides.{side_parts, IsSided, HaveFacts, HaveBothFacts};

use crate::elements::{all_elements, element};
use crate::givens::Given;
use ml_kernel::Thm;
use prove_term::Cx;
use std::alloc::{AllocError, Global};
use term_core::{RulePat, SortId};

// Whether the pattern is an injection.
pub(crate) fn is_injection(pat: &RulePat) -> bool
    ensures { result ≡ is_injected (plain_pattern pat.now) }
{
    match pat {
        RulePat::Inj(..) => true,
        RulePat::Var(_) | RulePat::Value(..) | RulePat::Ctor(..) | RulePat::Call(..) => false,
    }
}

// ---- forms

// This many variables, numbered from k.
fn variables(alloc: Global, count: usize, k: u32) -> Result<Vec<RulePat>, AllocError>
    ensures { IfOk result (λ v. plain_patterns v.items ≡ numbered k count) }
{
    if count > (u32::MAX - k) as usize {
        return Err(AllocError);
    }
    let mut pats = Vec::with_capacity(alloc, count)?;
    for i in 0..count {
        pats.push(RulePat::Var(k + i as u32))?;
    }
    Ok(pats)
}

// The pattern, if it is a value, or the constructor with variables numbered from k.
fn head_of(alloc: Global, pat: &RulePat, k: u32) -> Result<RulePat, AllocError>
    requires { IsValueOrConstructor (plain_pattern pat.now) }
    ensures { IfOk result (λ p. plain_pattern p ≡ head_form k (plain_pattern pat.now)) }
{
    match pat {
        RulePat::Value(sort, value) => Ok(RulePat::Value(*sort, value.share()?)),
        RulePat::Ctor(symbol, args) => {
            Ok(RulePat::Ctor(*symbol, variables(alloc, args.len(), k)?))
        }
        RulePat::Var(_) | RulePat::Inj(..) | RulePat::Call(..) => unreachable!(),
    }
}

// The side for the pattern, with its variables numbered from k.
pub(crate) fn side_of(
    alloc: Global,
    pat: &RulePat,
    deep: bool,
    k: u32,
) -> Result<RulePat, AllocError>
    requires { IsSided deep (plain_pattern pat.now) }
    ensures { IfOk result (λ p. plain_pattern p ≡ side_form deep k (plain_pattern pat.now)) }
{
    match pat {
        RulePat::Inj(from, to, below) => {
            let inner = if deep {
                head_of(alloc, below, k)?
            } else {
                RulePat::Var(k)
            };
            Ok(RulePat::Inj(*from, *to, Box::new(alloc, inner)?))
        }
        RulePat::Var(_) | RulePat::Value(..) | RulePat::Ctor(..) | RulePat::Call(..) => {
            head_of(alloc, pat, k)
        }
    }
}

// ---- parts

// The facts on the arguments, if the pattern is a constructor.
fn head_facts(
    alloc: Global,
    cx: &mut Cx<'_>,
    given: &Given,
    sorts: &[SortId],
    pat: &RulePat,
) -> Result<Vec<Thm>, AllocError>
    requires ready { IsReady cx.old (sort_numbers sorts.now) given.now }
    requires covered { HasElement cx.old.program.sig (sort_numbers sorts.now) given.now
        (plain_pattern pat.now) }
    requires head { IsValueOrConstructor (plain_pattern pat.now) }
    ensures have { IfOk result (λ v. HaveFacts cx.new (sort_numbers sorts.now) given.now
        (head_parts (plain_pattern pat.now)) v.items) }
    ensures grown { HasGrown cx.old cx.new }
{
    match pat {
        RulePat::Ctor(_, args) => all_elements(alloc, cx, given, sorts, args),
        RulePat::Value(..) => Ok(Vec::new(alloc)),
        RulePat::Var(_) | RulePat::Inj(..) | RulePat::Call(..) => unreachable!(),
    }
}

// The facts on the parts of a side.
fn side_facts(
    alloc: Global,
    cx: &mut Cx<'_>,
    given: &Given,
    sorts: &[SortId],
    pat: &RulePat,
    deep: bool,
) -> Result<Vec<Thm>, AllocError>
    requires ready { IsReady cx.old (sort_numbers sorts.now) given.now }
    requires covered { HasElement cx.old.program.sig (sort_numbers sorts.now) given.now
        (plain_pattern pat.now) }
    requires side { IsSided deep (plain_pattern pat.now) }
    ensures have { IfOk result (λ v. HaveFacts cx.new (sort_numbers sorts.now) given.now
        (side_parts deep (plain_pattern pat.now)) v.items) }
    ensures grown { HasGrown cx.old cx.new }
{
    match pat {
        RulePat::Inj(_, _, below) => {
            if deep {
                return head_facts(alloc, cx, given, sorts, below);
            }
            let fact = element(alloc, cx, given, sorts, below)?;
            Ok(vec![in alloc; fact]?)
        }
        RulePat::Var(_) | RulePat::Value(..) | RulePat::Ctor(..) | RulePat::Call(..) => {
            head_facts(alloc, cx, given, sorts, pat)
        }
    }
}

// The facts on the parts of both sides, and how many are of the first side. So many that they can
// not be numbered are refused as out of memory.
pub(crate) fn both_facts(
    alloc: Global,
    cx: &mut Cx<'_>,
    given: &Given,
    sorts: &[SortId],
    left: &RulePat,
    right: &RulePat,
    deep: bool,
) -> Result<(Vec<Thm>, u32), AllocError>
    requires ready { IsReady cx.old (sort_numbers sorts.now) given.now }
    requires left { HasElement cx.old.program.sig (sort_numbers sorts.now) given.now
        (plain_pattern left.now) }
    requires right { HasElement cx.old.program.sig (sort_numbers sorts.now) given.now
        (plain_pattern right.now) }
    requires first_side { IsSided false (plain_pattern left.now) }
    requires second_side { IsSided deep (plain_pattern right.now) }
    ensures have { IfOk result (λ r. HaveBothFacts cx.new (sort_numbers sorts.now) given.now r.1
        (side_parts false (plain_pattern left.now)) (side_parts deep (plain_pattern right.now))
        r.0.items) }
    ensures few { IfOk result (λ r. length r.0.items ≤ 2 ^ 32) }
    ensures grown { HasGrown cx.old cx.new }
{
    let mut facts = side_facts(alloc, cx, given, sorts, left, false)?;
    let count = facts.len();
    let mut more = side_facts(alloc, cx, given, sorts, right, deep)?;
    facts.append(&mut more)?;
    if facts.len() > u32::MAX as usize {
        return Err(AllocError);
    }
    Ok((facts, count as u32))
}
