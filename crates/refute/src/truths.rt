// A pattern that equals something other than the value `true` is not `true`.
ghost use Rattle.std.specs.Prelude.{◌≡◌, ◌≢◌, ◌∷◌, ℕ, IfOk, [], true};
ghost use Rattle.ml_pat.specs.Patterns.{var};
ghost use Rattle.ml_derived.specs.Scopes.{StaysWithin};
ghost use Rattle.term_core.specs.Terms.{leaf, truth};
ghost use Rattle.rule_core.specs.AcSymbols.{IsAcFree};
ghost use Rattle.rule_core.specs.ProgramView.{theory_of};
ghost use Rattle.rule_core.specs.Sorting.{HasValue, IsTermOf};
ghost use Rattle.rule_core.specs.WellSorted.{IsWellSorted};
ghost use Rattle.prove_term.specs.Contexts.{HasGrown, StaysIn};
ghost use Rattle.refute.specs.Refutations.{EqualsTerm, SaysNotTrue};
ghost use Rattle.refute.specs.Bindings.{IsSwitched, CanSwitch};

use crate::mismatches::differ;
use crate::parts::{denied, equals};
use ml_derived::{mp, not_both, to_not};
use ml_kernel::Thm;
use ml_pat::{MPat, VarNo};
use prove_term::Cx;
use std::alloc::{AllocError, Global};
use term_core::{SortId, Term, Value};

/// Proves that a pattern does not equal the value `true` of a sort, from an equality of it with a
/// term of this sort other than that value. `AllocError`: out of memory, or there are so many
/// arguments that new variables have no number below 2^32. After an error the context may have
/// grown. The recursion is as deep as the term is high.
pub fn not_true(
    alloc: Global,
    cx: &mut Cx<'_>,
    eq: &Thm,
    term: &Term,
    sort: SortId,
) -> Result<Thm, AllocError>
    requires well_sorted { IsWellSorted (theory_of cx.old.program) }
    requires no_ac { IsAcFree cx.old.program.sig }
    requires truths { HasValue cx.old.program.sig sort.0 (truth true) }
    requires sorted { IsTermOf cx.old.program.sig term.now sort.0 }
    requires differs { term.now ≢ leaf sort.0 (truth true) }
    requires eq { EqualsTerm cx.old term.now eq.now.conclusion }
    requires eq_stays { StaysIn cx.old eq.now }
    ensures says { IfOk result (λ t. SaysNotTrue cx.new sort.0 eq.now.conclusion t.conclusion) }
    ensures no_hypotheses { IfOk result (λ t. t.hypotheses ≡ []) }
    ensures stays { IfOk result (StaysIn cx.new) }
    ensures grown { HasGrown cx.old cx.new }
{
    let truth = Term::value(alloc, sort, Value::Bool(true))?;
    let differ = differ(alloc, cx, term, &truth)?;
    switched(alloc, eq, &differ, VarNo(0))
}

// `~(b = d)`, from `b = t` and `~(t = d)`, where y is not free in d.
fn switched(alloc: Global, eq: &Thm, differ: &Thm, y: VarNo) -> Result<Thm, AllocError>
    requires { CanSwitch y.0 eq.now.conclusion differ.now.conclusion }
    ensures conclusion { IfOk result
        (λ t. IsSwitched eq.now.conclusion differ.now.conclusion t.conclusion) }
    ensures stays { IfOk result (StaysWithin (var y.0 ∷ []) (eq.now ∷ differ.now ∷ [])) }
{
    let (b, t) = equals(eq.conclusion());
    let (_, d) = equals(denied(differ.conclusion()));
    let clash = not_both(alloc, differ, b, t, d, y)?;
    let made = MPat::equal(alloc, b, d)?;
    let none = MPat::imp(alloc, &made, &MPat::bot(alloc)?)?;
    let denied = mp(alloc, eq, &clash, eq.conclusion(), &none)?;
    to_not(alloc, &denied, &made)
}
