// A pattern that does not match a term has nothing in common with it, whatever names its parts have.
ghost use Rattle.std.specs.Prelude.{◌≡◌, ℕ, IfOk, []};
ghost use Rattle.term_core.specs.Terms.{Tree, no_tree, more_trees};
ghost use Rattle.term_core.specs.Patterns.{no_pattern, more_patterns};
ghost use Rattle.term_core.specs.RulePatterns.{plain_pattern, sort_numbers};
ghost use Rattle.rule_core.specs.AcSymbols.{IsAcFree};
ghost use Rattle.rule_core.specs.Matching.{NoneMatches};
ghost use Rattle.rule_core.specs.ProgramView.{names_of, theory_of};
ghost use Rattle.rule_core.specs.Sorting.{AreSorts, HasSort, IsTermOf};
ghost use Rattle.rule_core.specs.WellSorted.{HasNoCall, HaveNames, IsWellSorted};
ghost use Rattle.ml_image.specs.NamedSides.{of_child};
ghost use Rattle.ml_image.specs.PartNames.{part_names};
ghost use Rattle.ml_image.specs.Sentences.{not};
ghost use Rattle.prove_term.specs.Contexts.{HasGrown, StaysIn};
ghost use Rattle.prove_open.specs.Under.{SaysUnder};
ghost use Rattle.refute.specs.NamedRefutations.{mismatched_named, named_in_common};
ghost use Rattle.refute.specs.NamedSettings.{AreParts};
ghost use Rattle.refute.specs.Refutations.{SaysSentence, in_common};
ghost use Rattle.refute.specs.Refuting.{IsSetting};

use crate::dropping::dropped;
use crate::laws::clash_laws;
use crate::mismatches::{mismatch, none_under};
use crate::settings::{Goal, Setting, new_variable};
use crate::sides::pattern_image;
use crate::without_names::denial_of_named;
use crate::written::variables_as_written;
use ml_image::{PartName, names_in, part_names};
use ml_kernel::Thm;
use prove_open::Given;
use prove_term::Cx;
use rule_core::Named;
use std::alloc::{AllocError, Global};
use term_core::{RulePat, SortId, Term, pattern_of};

/// Proves that a pattern that does not match a term has nothing in common with it, with the names of
/// its parts, if each of its variables and names is one element of its sort. `named` are the names,
/// whose places begin with 0. `sorts` has the sorts of the variables and names, by their numbers.
/// Without names this is `mismatch`. `AllocError`: out of memory, or there are so many variables or
/// arguments that new variables have no number below 2^32. After an error the context may have
/// grown. The recursion is as deep as the pattern is high.
pub fn mismatch_named(
    alloc: Global,
    cx: &mut Cx<'_>,
    sorts: &[SortId],
    pat: &RulePat,
    named: &[Named],
    term: &Term,
) -> Result<Thm, AllocError>
    requires well_sorted { IsWellSorted (theory_of cx.old.program) }
    requires no_ac { IsAcFree cx.old.program.sig }
    requires variables { AreSorts cx.old.program.sig (sort_numbers sorts.now) }
    requires sorted { (sort : ℕ)
        × HasSort cx.old.program.sig (sort_numbers sorts.now) (plain_pattern pat.now) sort
        × IsTermOf cx.old.program.sig term.now sort }
    requires no_call { HasNoCall (plain_pattern pat.now) }
    requires names { HaveNames cx.old.program.sig (sort_numbers sorts.now)
        (more_patterns (plain_pattern pat.now) no_pattern) (names_of named.now) }
    requires mismatch { NoneMatches cx.old.program.sig (sort_numbers sorts.now)
        (more_patterns (plain_pattern pat.now) no_pattern) (more_trees term.now no_tree) }
    ensures says { IfOk result (λ t. SaysSentence cx.new
        (mismatched_named (sort_numbers sorts.now) (of_child 0 (names_of named.now))
        (plain_pattern pat.now) term.now) t.conclusion) }
    ensures no_hypotheses { IfOk result (λ t. t.hypotheses ≡ []) }
    ensures stays { IfOk result (StaysIn cx.new) }
    ensures grown { HasGrown cx.old cx.new }
{
    if named.is_empty() {
        return mismatch(alloc, cx, sorts, pat, term);
    }
    // The term is normal. So there is a reason why the pattern does not match it.
    let _high = term.height();
    clash_laws();
    let names = names_in(alloc, &part_names(alloc, named)?, 0)?;
    let variables = variables_as_written(alloc, pat, &names)?;
    let given = Given::of(alloc, cx, sorts, &variables)?;
    let whole = pattern_of(alloc, term)?;
    let setting = Setting {
        given,
        sorts,
        new: new_variable(sorts)?,
        goal: Goal::Clash,
    };
    let none = none_under(alloc, cx, &setting, &variables, pat, &whole, term)?;
    with_names(alloc, cx, &setting, pat, &names, &none)
}

// Proves that under the hypothesis a pattern with the names of its parts and a term have nothing in
// common, as they have nothing in common without the names. No name is the new variable.
fn with_names(
    alloc: Global,
    cx: &mut Cx<'_>,
    setting: &Setting<'_>,
    pat: &RulePat,
    names: &[PartName<'_>],
    none: &Thm,
) -> Result<Thm, AllocError>
    requires setting { IsSetting cx.old setting.now }
    requires sorted { (sort : ℕ) × HasSort cx.old.program.sig
        (sort_numbers setting.now.sorts.now) (plain_pattern pat.now) sort }
    requires names { AreParts cx.old.program.sig (sort_numbers setting.now.sorts.now)
        (plain_pattern pat.now) (part_names names.now) }
    requires none { (t : Tree) × SaysUnder cx.old setting.now.given.hypothesis
        (not (in_common (plain_pattern pat.now) t)) none.now.conclusion }
    requires stays { StaysIn cx.old none.now }
    ensures says { IfOk result (λ r. (t : Tree) → SaysUnder cx.old setting.now.given.hypothesis
        (not (in_common (plain_pattern pat.now) t)) none.now.conclusion
        → SaysUnder cx.new setting.now.given.hypothesis
        (not (named_in_common (part_names names.now) (plain_pattern pat.now) t)) r.conclusion) }
    ensures stays { IfOk result (StaysIn cx.new) }
    ensures grown { HasGrown cx.old cx.new }
{
    let image = pattern_image(alloc, cx, setting, pat)?;
    let dropping = dropped(alloc, cx, pat, names, setting.new.0, &image)?;
    denial_of_named(alloc, none, &dropping)
}
