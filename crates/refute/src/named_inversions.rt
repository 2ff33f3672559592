// What the variables of a pattern that matches a term equal, and what the names of its parts equal.
ghost use Rattle.std.specs.Prelude.{◌≡◌, ℕ, All, IfOk, []};
ghost use Rattle.ml_image.specs.Sentences.{top};
ghost use Rattle.term_core.specs.Terms.{no_tree, more_trees};
ghost use Rattle.term_core.specs.Patterns.{no_pattern, more_patterns, ground_pattern, variable};
ghost use Rattle.term_core.specs.RulePatterns.{plain_pattern, sort_numbers};
ghost use Rattle.rule_core.specs.AcSymbols.{IsAcFree};
ghost use Rattle.rule_core.specs.Matching.{MatchNamed};
ghost use Rattle.rule_core.specs.ProgramView.{names_of, theory_of};
ghost use Rattle.rule_core.specs.Sorting.{AreSorts, HasSort, IsTermOf};
ghost use Rattle.rule_core.specs.WellSorted.{HasNoCall, HaveNames, IsWellSorted};
ghost use Rattle.ml_image.specs.NamedSides.{of_child};
ghost use Rattle.ml_image.specs.PartNames.{part_names};
ghost use Rattle.prove_term.specs.Contexts.{HasGrown, StaysIn};
ghost use Rattle.prove_open.specs.Under.{SaysUnder};
ghost use Rattle.refute.specs.Bindings.{IsInverting};
ghost use Rattle.refute.specs.Choosing.{chosen};
ghost use Rattle.refute.specs.Clashes.{ComesTo};
ghost use Rattle.refute.specs.NamedRefutations.{inverted_named, named_in_common};
ghost use Rattle.refute.specs.NamedSettings.{IsReached, IsSide, bound_if_named};
ghost use Rattle.refute.specs.Refutations.{SaysSentence, all_bound};
ghost use Rattle.refute.specs.Refuting.{IsPair, IsSetting};

use crate::choosing::chosen;
use crate::dropping::dropped;
use crate::inversions::{always, inversion, one_more};
use crate::parts::sides;
use crate::settings::{Goal, Setting, new_variable};
use crate::sides::{Side, pattern_image};
use crate::supposing::{binding_under, term_image};
use crate::without_names::of_named;
use crate::written::variables_as_written;
use ml_image::{names_in, part_names};
use ml_kernel::Thm;
use ml_pat::MPat;
use prove_open::Given;
use prove_term::Cx;
use rule_core::Named;
use std::alloc::{AllocError, Global};
use term_core::{RulePat, SortId, Subst, Term, pattern_of};

/// Proves what follows if each variable of a pattern and each name of a part of it is one element of
/// its sort, and the pattern with its names and a term that it matches have something in common:
/// each variable and each name equals its binding. `named` are the names, whose places begin with 0.
/// `sorts` has the sorts of the variables and names, by their numbers. Without names this is
/// `inversion`. `AllocError`: out of memory, or there are so many variables or arguments that new
/// variables have no number below 2^32. After an error the context may have grown. The recursion is
/// as deep as the pattern is high. The pattern is gone through once for each variable and name.
pub fn inversion_named(
    alloc: Global,
    cx: &mut Cx<'_>,
    sorts: &[SortId],
    pat: &RulePat,
    named: &[Named],
    subst: &Subst,
    term: &Term,
) -> Result<Thm, AllocError>
    requires well_sorted { IsWellSorted (theory_of cx.old.program) }
    requires no_ac { IsAcFree cx.old.program.sig }
    requires variables { AreSorts cx.old.program.sig (sort_numbers sorts.now) }
    requires sorted { (sort : ℕ)
        × HasSort cx.old.program.sig (sort_numbers sorts.now) (plain_pattern pat.now) sort
        × IsTermOf cx.old.program.sig term.now sort }
    requires no_call { HasNoCall (plain_pattern pat.now) }
    requires names { HaveNames cx.old.program.sig (sort_numbers sorts.now)
        (more_patterns (plain_pattern pat.now) no_pattern) (names_of named.now) }
    requires matches { MatchNamed cx.old.program.sig (sort_numbers sorts.now)
        (more_patterns (plain_pattern pat.now) no_pattern) (names_of named.now)
        (more_trees term.now no_tree) subst.now }
    ensures says { IfOk result (λ t. SaysSentence cx.new
        (inverted_named (sort_numbers sorts.now) subst.now (of_child 0 (names_of named.now))
        (plain_pattern pat.now) term.now) t.conclusion) }
    ensures no_hypotheses { IfOk result (λ t. t.hypotheses ≡ []) }
    ensures stays { IfOk result (StaysIn cx.new) }
    ensures grown { HasGrown cx.old cx.new }
{
    if named.is_empty() {
        return inversion(alloc, cx, sorts, pat, subst, term);
    }
    // The term is normal.
    let _high = term.height();
    let names = names_in(alloc, &part_names(alloc, named)?, 0)?;
    let variables = variables_as_written(alloc, pat, &names)?;
    let given = Given::of(alloc, cx, sorts, &variables)?;
    let setting = Setting {
        given,
        sorts,
        new: new_variable(sorts)?,
        goal: Goal::Clash,
    };
    let image = pattern_image(alloc, cx, &setting, pat)?;
    let side = Side {
        pat,
        names: &names,
        image,
    };
    let whole = pattern_of(alloc, term)?;
    inverted(alloc, cx, &setting, &variables, subst, &side, &whole, term)
}

// Proves that each of the variables equals its binding, if the hypothesis holds and the side with its
// names and the term have something in common. `whole` is the pattern of the term.
fn inverted(
    alloc: Global,
    cx: &mut Cx<'_>,
    setting: &Setting<'_>,
    variables: &[u32],
    subst: &Subst,
    side: &Side<'_, '_>,
    whole: &RulePat,
    term: &Term,
) -> Result<Thm, AllocError>
    requires setting { IsSetting cx.old setting.now }
    requires side { IsSide cx.old side.now }
    requires whole { plain_pattern whole.now ≡ ground_pattern term.now }
    requires sorted { (sort : ℕ) × IsTermOf cx.old.program.sig term.now sort }
    requires reached { All (IsReached cx.old.program.sig (sort_numbers setting.now.sorts.now)
        setting.now.given subst.now (part_names side.now.names.now)
        (plain_pattern side.now.pat.now) term.now) variables.now }
    ensures says { IfOk result (λ t. IsInverting cx.new setting.now.given.hypothesis
        (named_in_common (part_names side.now.names.now) (plain_pattern side.now.pat.now) term.now)
        (all_bound subst.now variables.now) t) }
    ensures grown { HasGrown cx.old cx.new }
{
    let mut present = at_first(alloc, cx, setting, side, term)?;
    let mut left = variables.len();
    while 0 < left {
        left -= 1;
        let x = variables[left];
        let Some(bound) = subst.get(x) else {
            unreachable!()
        };
        let equation = named_binding(alloc, cx, setting, x, bound, side, whole, term)?;
        present = one_more(alloc, &equation, &present)?;
    }
    Ok(present)
}

// Proves `top`, if the hypothesis holds and the side with its names and the term have something in
// common.
fn at_first(
    alloc: Global,
    cx: &mut Cx<'_>,
    setting: &Setting<'_>,
    side: &Side<'_, '_>,
    term: &Term,
) -> Result<Thm, AllocError>
    requires setting { IsSetting cx.old setting.now }
    requires side { IsSide cx.old side.now }
    requires sorted { (sort : ℕ) × IsTermOf cx.old.program.sig term.now sort }
    ensures says { IfOk result (λ t. IsInverting cx.new setting.now.given.hypothesis
        (named_in_common (part_names side.now.names.now) (plain_pattern side.now.pat.now) term.now)
        top t) }
    ensures grown { HasGrown cx.old cx.new }
{
    let right = term_image(alloc, cx, term)?;
    let dropping = dropped(alloc, cx, side.pat, side.names, setting.new.0, &side.image)?;
    let (left, _) = sides(dropping.conclusion());
    let both = MPat::and(alloc, left, &right)?;
    let premise = MPat::and(alloc, &setting.given.hypothesis, &both)?;
    always(alloc, &premise)
}

// Proves under the hypothesis that the variable equals the term, if the side with its names and the
// whole term have something in common. Comparing these comes to the variable together with the term,
// if it stands in the place of the part that it names. `whole` is the pattern of the whole term.
fn named_binding(
    alloc: Global,
    cx: &mut Cx<'_>,
    setting: &Setting<'_>,
    x: u32,
    bound: &Term,
    side: &Side<'_, '_>,
    whole: &RulePat,
    term: &Term,
) -> Result<Thm, AllocError>
    requires setting { IsSetting cx.old setting.now }
    requires side { IsSide cx.old side.now }
    requires pair { IsPair cx.old.program.sig (sort_numbers setting.now.sorts.now)
        setting.now.given (chosen x (part_names side.now.names.now)
        (plain_pattern side.now.pat.now)) term.now }
    requires whole { plain_pattern whole.now ≡ ground_pattern term.now }
    requires comes { ComesTo cx.old.program.sig.subsorts (variable x) bound.now
        (chosen x (part_names side.now.names.now) (plain_pattern side.now.pat.now)) term.now }
    ensures says { IfOk result (λ t. SaysUnder cx.new setting.now.given.hypothesis
        (bound_if_named x bound.now (part_names side.now.names.now)
        (plain_pattern side.now.pat.now) term.now) t.conclusion) }
    ensures stays { IfOk result (StaysIn cx.new) }
    ensures grown { HasGrown cx.old cx.new }
{
    let target = chosen(alloc, side.pat, side.names, x)?;
    let rule = binding_under(alloc, cx, setting, x, bound, &target, whole, term)?;
    let dropping = dropped(alloc, cx, side.pat, side.names, x, &side.image)?;
    of_named(alloc, &rule, &dropping)
}
