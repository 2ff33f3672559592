// What the variables of a pattern that matches a term equal.
ghost use Rattle.std.specs.Prelude.{◌≡◌, ◌∷◌, ℕ, IfOk, []};
ghost use Rattle.ml_pat.specs.Patterns.{imp};
ghost use Rattle.ml_pat.specs.Patterns as logic;
ghost use Rattle.ml_image.specs.Sentences.{top};
ghost use Rattle.ml_derived.specs.Scopes.{StaysWithin};
ghost use Rattle.term_core.specs.Terms.{Tree, no_tree, more_trees};
ghost use Rattle.term_core.specs.Patterns.{no_pattern, more_patterns, ground_pattern};
ghost use Rattle.term_core.specs.RulePatterns.{plain_pattern, sort_numbers};
ghost use Rattle.rule_core.specs.AcSymbols.{IsAcFree};
ghost use Rattle.rule_core.specs.Matching.{MatchAll};
ghost use Rattle.rule_core.specs.ProgramView.{theory_of};
ghost use Rattle.rule_core.specs.Sorting.{AreSorts, HasSort, IsTermOf};
ghost use Rattle.rule_core.specs.WellSorted.{HasNoCall, IsWellSorted};
ghost use Rattle.prove_term.specs.Contexts.{HasGrown, StaysIn};
ghost use Rattle.refute.specs.Refutations.{SaysSentence, all_bound, in_common, inverted};
ghost use Rattle.refute.specs.Refuting.{IsPair, IsSetting};
ghost use Rattle.refute.specs.Bindings.{SaysInCommon, IsInverting, AllCome, AreJoinable, IsJoined};

use crate::laws::clash_laws;
use crate::parts::sides;
use crate::settings::{Goal, Setting, few_sorts, new_variable};
use crate::supposing::binding_under;
use crate::variables::variables_in_order;
use ml_derived::{both_under, lift, pack, top};
use ml_image::condition_laws;
use ml_kernel::Thm;
use ml_pat::MPat;
use prove_open::Given;
use prove_term::Cx;
use std::alloc::{AllocError, Global};
use term_core::{RulePat, SortId, Subst, Term, pattern_of};

/// Proves what follows if each variable of a pattern is one element of its sort, and the pattern
/// and a term that it matches have something in common: each variable equals its binding. `sorts`
/// has the sorts of the variables, by their numbers. `AllocError`: out of memory, or there are so
/// many variables or arguments that new variables have no number below 2^32. After an error the
/// context may have grown. The recursion is as deep as the pattern is high. The pattern is gone
/// through once for each variable.
pub fn inversion(
    alloc: Global,
    cx: &mut Cx<'_>,
    sorts: &[SortId],
    pat: &RulePat,
    subst: &Subst,
    term: &Term,
) -> Result<Thm, AllocError>
    requires well_sorted { IsWellSorted (theory_of cx.old.program) }
    requires no_ac { IsAcFree cx.old.program.sig }
    requires variables { AreSorts cx.old.program.sig (sort_numbers sorts.now) }
    requires sorted { (sort : ℕ)
        × HasSort cx.old.program.sig (sort_numbers sorts.now) (plain_pattern pat.now) sort
        × IsTermOf cx.old.program.sig term.now sort }
    requires no_call { HasNoCall (plain_pattern pat.now) }
    requires matches { MatchAll cx.old.program.sig (sort_numbers sorts.now)
        (more_patterns (plain_pattern pat.now) no_pattern) (more_trees term.now no_tree)
        subst.now }
    ensures says { IfOk result (λ t. SaysSentence cx.new
        (inverted (sort_numbers sorts.now) subst.now (plain_pattern pat.now) term.now)
        t.conclusion) }
    ensures no_hypotheses { IfOk result (λ t. t.hypotheses ≡ []) }
    ensures stays { IfOk result (StaysIn cx.new) }
    ensures grown { HasGrown cx.old cx.new }
{
    // The term is normal. So comparing comes to each variable with its binding.
    let _high = term.height();
    clash_laws();
    let variables = variables_in_order(alloc, pat)?;
    let given = Given::of(alloc, cx, sorts, &variables)?;
    let whole = pattern_of(alloc, term)?;
    let setting = Setting {
        given,
        sorts,
        new: new_variable(sorts)?,
        goal: Goal::Clash,
    };
    let start = at_first(alloc, cx, &setting, pat, &whole)?;
    all_inverted(
        alloc, cx, &setting, &variables, subst, pat, &whole, term, start,
    )
}

// Proves `top`, if the hypothesis holds and the pattern and the term have something in common.
// `whole` is the pattern of the term.
fn at_first(
    alloc: Global,
    cx: &mut Cx<'_>,
    setting: &Setting<'_>,
    pat: &RulePat,
    whole: &RulePat,
) -> Result<Thm, AllocError>
    requires setting { IsSetting cx.old setting.now }
    requires covered { (t : Tree) × (plain_pattern whole.now ≡ ground_pattern t)
        × IsPair cx.old.program.sig (sort_numbers setting.now.sorts.now)
        setting.now.given (plain_pattern pat.now) t }
    ensures says { IfOk result (λ r. (t : Tree) → plain_pattern whole.now ≡ ground_pattern t →
        SaysInCommon cx.new setting.now.given.hypothesis (in_common (plain_pattern pat.now) t)
        top r.conclusion) }
    ensures stays { IfOk result (StaysIn cx.new) }
    ensures grown { HasGrown cx.old cx.new }
{
    condition_laws();
    few_sorts(setting.sorts, setting.new.0);
    let left = cx.image(alloc, pat)?;
    let right = cx.image(alloc, whole)?;
    let both = MPat::and(alloc, &left, &right)?;
    let premise = MPat::and(alloc, &setting.given.hypothesis, &both)?;
    always(alloc, &premise)
}

// `p -> top`.
pub(crate) fn always(alloc: Global, p: &MPat) -> Result<Thm, AllocError>
    ensures conclusion { IfOk result (λ t. t.conclusion ≡ imp p.now logic.top) }
    ensures stays { IfOk result (StaysWithin (p.now ∷ []) []) }
{
    lift(alloc, p, &top(alloc)?)
}

// Proves that each of the variables equals its binding, if the hypothesis holds and the pattern and
// the term have something in common. `start` proves `top` from that. `whole` is the pattern of the
// term.
fn all_inverted(
    alloc: Global,
    cx: &mut Cx<'_>,
    setting: &Setting<'_>,
    variables: &[u32],
    subst: &Subst,
    pat: &RulePat,
    whole: &RulePat,
    term: &Term,
    start: Thm,
) -> Result<Thm, AllocError>
    requires setting { IsSetting cx.old setting.now }
    requires pair { IsPair cx.old.program.sig (sort_numbers setting.now.sorts.now)
        setting.now.given (plain_pattern pat.now) term.now }
    requires whole { plain_pattern whole.now ≡ ground_pattern term.now }
    requires come { AllCome cx.old.program.sig.subsorts subst.now (plain_pattern pat.now) term.now
        variables.now }
    requires start { IsInverting cx.old setting.now.given.hypothesis
        (in_common (plain_pattern pat.now) term.now) top start }
    ensures says { IfOk result (λ t. IsInverting cx.new setting.now.given.hypothesis
        (in_common (plain_pattern pat.now) term.now) (all_bound subst.now variables.now) t) }
    ensures grown { HasGrown cx.old cx.new }
{
    let mut present = start;
    let mut left = variables.len();
    while 0 < left {
        left -= 1;
        let x = variables[left];
        let Some(bound) = subst.get(x) else {
            unreachable!()
        };
        let equation = binding_under(alloc, cx, setting, x, bound, pat, whole, term)?;
        present = one_more(alloc, &equation, &present)?;
    }
    Ok(present)
}

// `h & w -> e & p`, from `h -> w -> e` and `h & w -> p`.
pub(crate) fn one_more(alloc: Global, equation: &Thm, present: &Thm) -> Result<Thm, AllocError>
    requires { AreJoinable equation.now.conclusion present.now.conclusion }
    ensures conclusion { IfOk result
        (λ t. IsJoined equation.now.conclusion present.now.conclusion t.conclusion) }
    ensures stays { IfOk result (StaysWithin [] (equation.now ∷ present.now ∷ [])) }
{
    let (h, rest) = sides(equation.conclusion());
    let (w, e) = sides(rest);
    let packed = pack(alloc, equation, h, w, e)?;
    let (premise, sofar) = sides(present.conclusion());
    both_under(alloc, &packed, present, premise, e, sofar)
}
