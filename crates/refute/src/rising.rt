// From what denies a part of a pattern to what denies the whole pattern: a refutation is carried up
// through the constructors and the injections above it.
ghost use Rattle.std.specs.Prelude.{◌≡◌, ◌<◌, ℕ, List, [], ◌∷◌, IfOk, Some, slice_get, length};
ghost use Rattle.ml_pat.specs.Patterns.{Pattern, bot, imp, and};
ghost use Rattle.ml_pat.specs.Judgements.{IsPredicate};
ghost use Rattle.ml_derived.specs.Scopes.{StaysWithin};
ghost use Rattle.term_core.specs.Patterns.{application, injection, ground_pattern};
ghost use Rattle.term_core.specs.PatternLists.{plain_patterns};
ghost use Rattle.term_core.specs.RulePatterns.{plain_pattern, sort_numbers};
ghost use Rattle.term_core.specs.declared.rule_patterns.RulePat.{RulePat};
ghost use Rattle.rule_core.specs.Sorting.{IsTermOf};
ghost use Rattle.rule_core.specs.Subsorts.{IsBelow};
ghost use Rattle.prove_term.specs.Applications.{applied_to};
ghost use Rattle.prove_term.specs.Contexts.{HasGrown};
ghost use Rattle.prove_open.specs.declared.differences.Difference.TheVariants.{Unequal, Disjoint};
ghost use Rattle.refute.specs.Refuting.{AreCovered, Denies, IsSetting};

use crate::parts::{conjuncts, denied, element_of, equals, sides};
use crate::settings::Setting;
use ml_derived::{
    chain_under, denied_by, disjoint, no_application, no_argument, unequal, unequal_to,
};
use ml_kernel::Thm;
use ml_pat::MPat;
use prove_open::{Difference, element_under, freedom_under, injective_under};
use prove_term::{Cx, Parts, collapse_eq, taken_apart};
use std::alloc::{AllocError, Global};
use term_core::{RulePat, SortId, SymId, Term};

// Proves that two patterns have nothing in common. `difference` denies them in one way or the other.
pub(crate) fn as_disjoint(
    alloc: Global,
    cx: &mut Cx<'_>,
    setting: &Setting<'_>,
    left: &RulePat,
    right: &RulePat,
    difference: Difference,
) -> Result<Thm, AllocError>
    requires setting { IsSetting cx.old setting.now }
    requires covered { AreCovered cx.old.program.sig (sort_numbers setting.now.sorts.now)
        setting.now.given (plain_pattern left.now) (plain_pattern right.now) }
    requires denies { Denies cx.old setting.now.given.hypothesis (plain_pattern left.now)
        (plain_pattern right.now) difference }
    ensures denies { IfOk result (λ t. Denies cx.new setting.now.given.hypothesis
        (plain_pattern left.now) (plain_pattern right.now) (Disjoint t)) }
    ensures grown { HasGrown cx.old cx.new }
{
    match difference {
        Difference::Disjoint(thm) => Ok(thm),
        Difference::Unequal(thm) => {
            let Setting { given, sorts, .. } = setting;
            let h = &given.hypothesis;
            let one = element_under(alloc, cx, given, sorts, left)?;
            let other = element_under(alloc, cx, given, sorts, right)?;
            disjoint(alloc, &thm, h, element_of(&one, h), element_of(&other, h))
        }
    }
}

// Proves that two patterns are not equal. `difference` denies them in one way or the other.
pub(crate) fn as_unequal(
    alloc: Global,
    cx: &mut Cx<'_>,
    setting: &Setting<'_>,
    left: &RulePat,
    right: &RulePat,
    difference: Difference,
) -> Result<Thm, AllocError>
    requires setting { IsSetting cx.old setting.now }
    requires covered { AreCovered cx.old.program.sig (sort_numbers setting.now.sorts.now)
        setting.now.given (plain_pattern left.now) (plain_pattern right.now) }
    requires denies { Denies cx.old setting.now.given.hypothesis (plain_pattern left.now)
        (plain_pattern right.now) difference }
    ensures denies { IfOk result (λ t. Denies cx.new setting.now.given.hypothesis
        (plain_pattern left.now) (plain_pattern right.now) (Unequal t)) }
    ensures grown { HasGrown cx.old cx.new }
{
    match difference {
        Difference::Unequal(thm) => Ok(thm),
        Difference::Disjoint(thm) => {
            let Setting {
                given,
                sorts,
                new,
                ..
            } = setting;
            let h = &given.hypothesis;
            let one = element_under(alloc, cx, given, sorts, left)?;
            let (_, none) = sides(thm.conclusion());
            let (both, _) = sides(none);
            let (_, other) = conjuncts(both);
            unequal(alloc, &thm, h, element_of(&one, h), other, *new)
        }
    }
}

// Proves that a constructor of arguments and one of other arguments have nothing in common, as the
// arguments at `i` have nothing in common.
pub(crate) fn above_argument(
    alloc: Global,
    cx: &mut Cx<'_>,
    setting: &Setting<'_>,
    symbol: SymId,
    args: &[RulePat],
    others: &[RulePat],
    i: usize,
    none: &Thm,
) -> Result<Thm, AllocError>
    requires setting { IsSetting cx.old setting.now }
    requires covered { AreCovered cx.old.program.sig (sort_numbers setting.now.sorts.now)
        setting.now.given (application symbol.0 (plain_patterns args.now))
        (application symbol.0 (plain_patterns others.now)) }
    requires denies { (p q : RulePat) × (slice_get args.now i ≡ Some p)
        × (slice_get others.now i ≡ Some q)
        × Denies cx.old setting.now.given.hypothesis (plain_pattern p) (plain_pattern q)
        (Disjoint none.now) }
    ensures denies { IfOk result (λ t. Denies cx.new setting.now.given.hypothesis
        (application symbol.0 (plain_patterns args.now))
        (application symbol.0 (plain_patterns others.now)) (Disjoint t)) }
    ensures grown { HasGrown cx.old cx.new }
{
    let Setting { given, sorts, .. } = setting;
    let free = freedom_under(alloc, cx, given, sorts, symbol, args, others)?;
    let (h, rest) = sides(free.conclusion());
    let (both, made) = sides(rest);
    let parts = taken_apart(alloc, made, args.len())?;
    let none = no_part(alloc, none, h, &parts, i)?;
    chain_under(alloc, &free, &none, h, both, made, &MPat::bot(alloc)?)
}

// `h -> f p .. -> bot`, where the parts are f and the patterns p, from `h -> p -> bot` for the one
// at `i`.
fn no_part(alloc: Global, none: &Thm, h: &MPat, parts: &Parts, i: usize) -> Result<Thm, AllocError>
    requires none { (p : Pattern) × (slice_get parts.now.arguments.items i ≡ Some p)
        × (none.now.conclusion ≡ imp h.now (imp p bot)) }
    requires predicate { IsPredicate h.now }
    ensures conclusion { IfOk result (λ t. t.conclusion
        ≡ imp h.now (imp (applied_to parts.now.head parts.now.arguments.items) bot)) }
    ensures stays { IfOk result
        (StaysWithin (parts.now.head ∷ parts.now.arguments.items) (none.now ∷ [])) }
{
    let mut function = parts.head.share()?;
    for j in 0..i {
        function = MPat::app(alloc, &function, &parts.arguments[j])?;
    }
    let argument = &parts.arguments[i];
    let at = no_argument(alloc, none, h, &function, argument)?;
    let made = MPat::app(alloc, &function, argument)?;
    no_application(alloc, at, h, &made, &parts.arguments[i + 1..])
}

// Proves that two injections are not equal, as what they inject is not equal.
pub(crate) fn above_injection(
    alloc: Global,
    cx: &mut Cx<'_>,
    setting: &Setting<'_>,
    from: SortId,
    to: SortId,
    left: &RulePat,
    right: &RulePat,
    differ: &Thm,
) -> Result<Thm, AllocError>
    requires setting { IsSetting cx.old setting.now }
    requires covered { AreCovered cx.old.program.sig (sort_numbers setting.now.sorts.now)
        setting.now.given (injection from.0 to.0 (plain_pattern left.now))
        (injection from.0 to.0 (plain_pattern right.now)) }
    requires denies { Denies cx.old setting.now.given.hypothesis (plain_pattern left.now)
        (plain_pattern right.now) (Unequal differ.now) }
    ensures denies { IfOk result (λ t. Denies cx.new setting.now.given.hypothesis
        (injection from.0 to.0 (plain_pattern left.now))
        (injection from.0 to.0 (plain_pattern right.now)) (Unequal t)) }
    ensures grown { HasGrown cx.old cx.new }
{
    let Setting { given, sorts, .. } = setting;
    let same = injective_under(alloc, cx, given, sorts, from, to, left, right)?;
    let (h, rest) = sides(same.conclusion());
    let (wholes, parts) = sides(rest);
    denied_by(alloc, &same, differ, h, wholes, parts)
}

// Proves that an injected pattern and the injection of a term from a lower sort are not equal, as
// this holds if the term is injected through the pattern's sort.
pub(crate) fn above_lowered(
    alloc: Global,
    cx: &mut Cx<'_>,
    setting: &Setting<'_>,
    from: SortId,
    through: SortId,
    to: SortId,
    pat: &RulePat,
    term: &Term,
    differ: &Thm,
) -> Result<Thm, AllocError>
    requires setting { IsSetting cx.old setting.now }
    requires covered { AreCovered cx.old.program.sig (sort_numbers setting.now.sorts.now)
        setting.now.given (injection through.0 to.0 (plain_pattern pat.now))
        (injection through.0 to.0 (injection from.0 through.0 (ground_pattern term.now))) }
    requires sorted { IsTermOf cx.old.program.sig term.now from.0 }
    requires denies { Denies cx.old setting.now.given.hypothesis
        (injection through.0 to.0 (plain_pattern pat.now))
        (injection through.0 to.0 (injection from.0 through.0 (ground_pattern term.now)))
        (Unequal differ.now) }
    ensures denies { IfOk result (λ t. Denies cx.new setting.now.given.hypothesis
        (injection through.0 to.0 (plain_pattern pat.now))
        (injection from.0 to.0 (ground_pattern term.now)) (Unequal t)) }
    ensures grown { HasGrown cx.old cx.new }
{
    let once = collapse_eq(alloc, cx, from, through, to, term)?;
    let (_, made) = equals(once.conclusion());
    let (h, rest) = sides(differ.conclusion());
    let (left, right) = equals(denied(rest));
    unequal_to(alloc, differ, &once, h, left, right, made, setting.new)
}
