// Comparing a pattern with a term until they differ, or until a variable is met.
ghost use Rattle.std.specs.Prelude.{◌≡◌, ◌≢◌, ℕ, IfOk, Some, slice_get};
ghost use Rattle.term_core.specs.Terms.{Tree, node, inj};
ghost use Rattle.term_core.specs.Patterns.{variable, application, injection};
ghost use Rattle.term_core.specs.Patterns.{ground_pattern, ground_patterns};
ghost use Rattle.term_core.specs.Forests.{forest, children};
ghost use Rattle.term_core.specs.PatternLists.{plain_patterns};
ghost use Rattle.term_core.specs.RulePatterns.{plain_pattern, sort_numbers};
ghost use Rattle.term_core.specs.declared.rule_patterns.RulePat.{RulePat};
ghost use Rattle.rule_core.specs.Subsorts.{IsBelow};
ghost use Rattle.prove_term.specs.Contexts.{HasGrown};
ghost use Rattle.prove_open.specs.Differences.{DifferAtRoot};
ghost use Rattle.refute.specs.Refuting.{AreCovered, Denies, IsPair, IsRefuted, IsSetting};

use crate::meetings::{Meeting, met};
use crate::rising::{above_argument, above_injection, above_lowered, as_disjoint, as_unequal};
use crate::settings::{Goal, Setting};
use prove_open::{Difference, difference_under};
use prove_term::Cx;
use std::alloc::{AllocError, Global};
use term_core::{RulePat, SortId, SymId, Term, pattern_of};

// Denies a pattern and a term by the first place, from left to right, where they clash, or where
// comparing them comes to the goal. Without such a place there is no theorem. `whole` is the
// pattern of the term.
#[cycle(refuted)]
pub(crate) fn refuted(
    alloc: Global,
    cx: &mut Cx<'_>,
    setting: &Setting<'_>,
    pat: &RulePat,
    whole: &RulePat,
    term: &Term,
) -> Result<Option<Difference>, AllocError>
    requires setting { IsSetting cx.old setting.now }
    requires pair { IsPair cx.old.program.sig (sort_numbers setting.now.sorts.now)
        setting.now.given (plain_pattern pat.now) term.now }
    requires whole { plain_pattern whole.now ≡ ground_pattern term.now }
    ensures says { IfOk result
        (IsRefuted cx.new setting.now (plain_pattern pat.now) term.now) }
    ensures grown { HasGrown cx.old cx.new }
{
    match met(&cx.program().sig.subsorts, pat, whole, term) {
        Meeting::Ends => Ok(None),
        Meeting::Variable(x) => at_variable(alloc, cx, setting, x, term),
        Meeting::Clash => at_clash(alloc, cx, setting, pat, whole),
        Meeting::Arguments(symbol, args, wholes) => {
            arguments_refuted(alloc, cx, setting, symbol, args, wholes, term)
        }
        Meeting::Below(from, through, to, below, inner) => {
            if from == through {
                injected_refuted(alloc, cx, setting, through, to, below, inner, term)
            } else {
                lowered_refuted(alloc, cx, setting, from, through, to, below, term)
            }
        }
    }
}

// `refuted` for a variable.
fn at_variable(
    alloc: Global,
    cx: &Cx<'_>,
    setting: &Setting<'_>,
    x: u32,
    term: &Term,
) -> Result<Option<Difference>, AllocError>
    requires { IsSetting cx.now setting.now }
    ensures { IfOk result (IsRefuted cx.now setting.now (variable x) term.now) }
{
    match &setting.goal {
        Goal::Binding(y, bound, fact) => {
            if x == *y && bound.same(term) {
                let fact = fact.share(alloc)?;
                return Ok(Some(Difference::Unequal(fact)));
            }
            Ok(None)
        }
        Goal::Clash => Ok(None),
    }
}

// `refuted` for a clash.
fn at_clash(
    alloc: Global,
    cx: &mut Cx<'_>,
    setting: &Setting<'_>,
    pat: &RulePat,
    whole: &RulePat,
) -> Result<Option<Difference>, AllocError>
    requires setting { IsSetting cx.old setting.now }
    requires covered { AreCovered cx.old.program.sig (sort_numbers setting.now.sorts.now)
        setting.now.given (plain_pattern pat.now) (plain_pattern whole.now) }
    requires differ { DifferAtRoot cx.old.program.sig.subsorts (plain_pattern pat.now)
        (plain_pattern whole.now) }
    ensures says { IfOk result (λ d. (t : Tree) → plain_pattern whole.now ≡ ground_pattern t
        → IsRefuted cx.new setting.now (plain_pattern pat.now) t d) }
    ensures grown { HasGrown cx.old cx.new }
{
    let Setting { given, sorts, .. } = setting;
    let made = difference_under(alloc, cx, given, sorts, pat, whole)?;
    Ok(Some(made))
}

// `refuted` for a constructor of arguments.
#[cycle(refuted)]
fn arguments_refuted(
    alloc: Global,
    cx: &mut Cx<'_>,
    setting: &Setting<'_>,
    symbol: SymId,
    args: &[RulePat],
    wholes: &[RulePat],
    term: &Term,
) -> Result<Option<Difference>, AllocError>
    requires setting { IsSetting cx.old setting.now }
    requires pair { IsPair cx.old.program.sig (sort_numbers setting.now.sorts.now)
        setting.now.given (application symbol.0 (plain_patterns args.now)) term.now }
    requires term { term.now ≡ node symbol.0 (forest (children term.now)) }
    requires wholes { plain_patterns wholes.now ≡ ground_patterns (forest (children term.now)) }
    ensures says { IfOk result (IsRefuted cx.new setting.now
        (application symbol.0 (plain_patterns args.now)) term.now) }
    ensures grown { HasGrown cx.old cx.new }
{
    for i in 0..args.len() {
        let found = refuted(alloc, cx, setting, &args[i], &wholes[i], term.child(i))?;
        if let Some(difference) = found {
            return argument_denied(alloc, cx, setting, symbol, args, wholes, i, difference);
        }
    }
    Ok(None)
}

// Denies a constructor of arguments and one of other arguments, as the arguments at `i` are denied.
fn argument_denied(
    alloc: Global,
    cx: &mut Cx<'_>,
    setting: &Setting<'_>,
    symbol: SymId,
    args: &[RulePat],
    wholes: &[RulePat],
    i: usize,
    difference: Difference,
) -> Result<Option<Difference>, AllocError>
    requires setting { IsSetting cx.old setting.now }
    requires covered { AreCovered cx.old.program.sig (sort_numbers setting.now.sorts.now)
        setting.now.given (application symbol.0 (plain_patterns args.now))
        (application symbol.0 (plain_patterns wholes.now)) }
    requires denies { (p q : RulePat) × (slice_get args.now i ≡ Some p)
        × (slice_get wholes.now i ≡ Some q)
        × AreCovered cx.old.program.sig (sort_numbers setting.now.sorts.now)
        setting.now.given (plain_pattern p) (plain_pattern q)
        × Denies cx.old setting.now.given.hypothesis (plain_pattern p) (plain_pattern q)
        difference }
    ensures says { IfOk result (λ d. (t : Tree)
        → application symbol.0 (plain_patterns wholes.now) ≡ ground_pattern t
        → IsRefuted cx.new setting.now (application symbol.0 (plain_patterns args.now)) t d) }
    ensures grown { HasGrown cx.old cx.new }
{
    let none = as_disjoint(alloc, cx, setting, &args[i], &wholes[i], difference)?;
    let made = above_argument(alloc, cx, setting, symbol, args, wholes, i, &none)?;
    Ok(Some(Difference::Disjoint(made)))
}

// `refuted` for injections from one sort.
#[cycle(refuted)]
fn injected_refuted(
    alloc: Global,
    cx: &mut Cx<'_>,
    setting: &Setting<'_>,
    from: SortId,
    to: SortId,
    below: &RulePat,
    inner: &RulePat,
    term: &Term,
) -> Result<Option<Difference>, AllocError>
    requires setting { IsSetting cx.old setting.now }
    requires pair { IsPair cx.old.program.sig (sort_numbers setting.now.sorts.now)
        setting.now.given (injection from.0 to.0 (plain_pattern below.now)) term.now }
    requires term { (u : Tree) × (term.now ≡ inj from.0 to.0 u)
        × (plain_pattern inner.now ≡ ground_pattern u) }
    ensures says { IfOk result (IsRefuted cx.new setting.now
        (injection from.0 to.0 (plain_pattern below.now)) term.now) }
    ensures grown { HasGrown cx.old cx.new }
{
    match refuted(alloc, cx, setting, below, inner, term.child(0))? {
        None => Ok(None),
        Some(difference) => {
            injection_denied(alloc, cx, setting, from, to, below, inner, difference)
        }
    }
}

// Denies an injected pattern and another one, injected from the same sort, as the two are denied.
fn injection_denied(
    alloc: Global,
    cx: &mut Cx<'_>,
    setting: &Setting<'_>,
    from: SortId,
    to: SortId,
    below: &RulePat,
    inner: &RulePat,
    difference: Difference,
) -> Result<Option<Difference>, AllocError>
    requires setting { IsSetting cx.old setting.now }
    requires covered { AreCovered cx.old.program.sig (sort_numbers setting.now.sorts.now)
        setting.now.given (injection from.0 to.0 (plain_pattern below.now))
        (injection from.0 to.0 (plain_pattern inner.now)) }
    requires parts { AreCovered cx.old.program.sig (sort_numbers setting.now.sorts.now)
        setting.now.given (plain_pattern below.now) (plain_pattern inner.now) }
    requires denies { Denies cx.old setting.now.given.hypothesis (plain_pattern below.now)
        (plain_pattern inner.now) difference }
    ensures says { IfOk result (λ d. (t : Tree)
        → injection from.0 to.0 (plain_pattern inner.now) ≡ ground_pattern t
        → IsRefuted cx.new setting.now (injection from.0 to.0 (plain_pattern below.now)) t d) }
    ensures grown { HasGrown cx.old cx.new }
{
    let differ = as_unequal(alloc, cx, setting, below, inner, difference)?;
    let made = above_injection(alloc, cx, setting, from, to, below, inner, &differ)?;
    Ok(Some(Difference::Unequal(made)))
}

// `refuted` for an injected pattern and the injection of a term from a lower sort. The pattern is
// compared with the term, injected into its sort. This copies the pattern of the term.
#[cycle(refuted)]
fn lowered_refuted(
    alloc: Global,
    cx: &mut Cx<'_>,
    setting: &Setting<'_>,
    from: SortId,
    through: SortId,
    to: SortId,
    below: &RulePat,
    term: &Term,
) -> Result<Option<Difference>, AllocError>
    requires setting { IsSetting cx.old setting.now }
    requires pair { IsPair cx.old.program.sig (sort_numbers setting.now.sorts.now)
        setting.now.given (injection through.0 to.0 (plain_pattern below.now)) term.now }
    requires lower { IsBelow cx.old.program.sig.subsorts from.0 through.0 }
    requires other { from.0 ≢ through.0 }
    requires term { (u : Tree) × (term.now ≡ inj from.0 to.0 u) }
    ensures says { IfOk result (IsRefuted cx.new setting.now
        (injection through.0 to.0 (plain_pattern below.now)) term.now) }
    ensures grown { HasGrown cx.old cx.new }
{
    let lowered = lowered_term(alloc, from, through, term)?;
    let inner = pattern_of(alloc, &lowered)?;
    match refuted(alloc, cx, setting, below, &inner, &lowered)? {
        None => Ok(None),
        Some(difference) => {
            lowered_denied(
                alloc, cx, setting, from, through, to, below, &inner, term, difference,
            )
        }
    }
}

// What an injected term is before that, injected only up to the sort `through`.
fn lowered_term(
    alloc: Global,
    from: SortId,
    through: SortId,
    term: &Term,
) -> Result<Term, AllocError>
    requires { (to : ℕ) × (u : Tree) × (term.now ≡ inj from.0 to u) }
    ensures { IfOk result (λ r. (to : ℕ) (u : Tree) → term.now ≡ inj from.0 to u
        → r ≡ inj from.0 through.0 u) }
{
    // The term is normal and not too high. So its child, injected, is not too high either.
    let _high = term.height();
    Term::inj(alloc, from, through, term.child(0))
}

// Denies an injected pattern and the injection of a term from a lower sort. `difference` denies the
// pattern and the term, injected into the pattern's sort.
fn lowered_denied(
    alloc: Global,
    cx: &mut Cx<'_>,
    setting: &Setting<'_>,
    from: SortId,
    through: SortId,
    to: SortId,
    below: &RulePat,
    inner: &RulePat,
    term: &Term,
    difference: Difference,
) -> Result<Option<Difference>, AllocError>
    requires setting { IsSetting cx.old setting.now }
    requires pair { IsPair cx.old.program.sig (sort_numbers setting.now.sorts.now)
        setting.now.given (injection through.0 to.0 (plain_pattern below.now)) term.now }
    requires lower { IsBelow cx.old.program.sig.subsorts from.0 through.0 }
    requires term { (u : Tree) × (term.now ≡ inj from.0 to.0 u)
        × (plain_pattern inner.now ≡ injection from.0 through.0 (ground_pattern u)) }
    requires denies { Denies cx.old setting.now.given.hypothesis (plain_pattern below.now)
        (plain_pattern inner.now) difference }
    ensures says { IfOk result (IsRefuted cx.new setting.now
        (injection through.0 to.0 (plain_pattern below.now)) term.now) }
    ensures grown { HasGrown cx.old cx.new }
{
    let differ = as_unequal(alloc, cx, setting, below, inner, difference)?;
    let twice = above_injection(alloc, cx, setting, through, to, below, inner, &differ)?;
    let child = term.child(0);
    let made = above_lowered(alloc, cx, setting, from, through, to, below, child, &twice)?;
    Ok(Some(Difference::Unequal(made)))
}
