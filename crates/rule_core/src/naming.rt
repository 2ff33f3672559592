// Names of parts of left sides.
ghost use Rattle.std.specs.Prelude.{◌≡◌, ◌<◌, length, IfOk, IsSome, Some};
ghost use Rattle.term_core.specs.PatternLists.{AllFitWithin, plain_patterns};
ghost use Rattle.term_core.specs.RulePatterns.{plain_pattern};
ghost use Rattle.rule_core.specs.NamedLaws.{AddsNames};
ghost use Rattle.rule_core.specs.NamedParts.{parts, part_of, pattern_at};
ghost use Rattle.rule_core.specs.Naming.{AreNamesOf};
ghost use Rattle.rule_core.specs.ProgramView.{names_of};

use crate::rules::Named;
use std::alloc::{AllocError, Global};
use term_core::{MAX_HEIGHT, RulePat, Subst, instance};

/// The substitution with each name bound to the term that its part becomes. `pats` are the patterns
/// whose parts have names: the left side of a rule, or the arguments of an equation. An error: out
/// of memory. It makes the instance of each named part, and copies nothing else.
pub fn with_names(
    alloc: Global,
    pats: &[RulePat],
    named: &[Named],
    subst: Subst,
) -> Result<Subst, AllocError>
    requires fits { AllFitWithin MAX_HEIGHT subst (plain_patterns pats.now) }
    requires names { AreNamesOf (plain_patterns pats.now) (length subst) (names_of named.now) }
    ensures { IfOk result (AddsNames (plain_patterns pats.now) (names_of named.now) subst) }
{
    let mut whole = subst;
    for name in named.iter().rev() {
        let term = instance(alloc, part(pats, &name.at), &whole)?;
        whole.bind(name.var, term);
    }
    Ok(whole)
}

// The part of some patterns at a place.
fn part<'p>(pats: &'p [RulePat], at: &[u32]) -> &'p RulePat
    requires { IsSome (part_of (plain_patterns pats.now) at.now) }
    ensures { part_of (plain_patterns pats.now) at.now ≡ Some (plain_pattern result.now) }
{
    let mut part = &pats[at[0] as usize];
    for i in 1..at.len() {
        part = child(part, at[i]);
    }
    part
}

// The child of a pattern with this number.
fn child(pat: &RulePat, number: u32) -> &RulePat
    requires { IsSome (pattern_at (parts (plain_pattern pat.now)) number) }
    ensures { pattern_at (parts (plain_pattern pat.now)) number ≡ Some (plain_pattern result.now) }
{
    match pat {
        RulePat::Ctor(_, args) => &args[number as usize],
        RulePat::Inj(_, _, below) => below,
        _ => unreachable!(),
    }
}
