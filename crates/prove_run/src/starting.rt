// The first theorem of a run: the initial term reaches its value.
ghost use Rattle.std.specs.Prelude.{◌≡◌, ◌∷◌, [], IfOk, IfSome, Some, option_copied};
ghost use Rattle.ml_pat.specs.Patterns.{Pattern, imp, equal, ev, var};
ghost use Rattle.ml_kernel.specs.Lemmas.{HasNoVariable};
ghost use Rattle.ml_derived.specs.Scopes.{StaysWithin};
ghost use Rattle.term_core.specs.RulePatterns.{plain_pattern};
ghost use Rattle.rule_core.specs.ProgramView.{theory_of};
ghost use Rattle.rule_core.specs.Records.{Records, result_of};
ghost use Rattle.rule_core.specs.RecordView.{plain_record};
ghost use Rattle.prove_term.specs.Contexts.{HasGrown, StaysIn};
ghost use Rattle.prove_run.specs.RunProof.{configuration};
ghost use Rattle.prove_run.specs.Proving.{value_told};
ghost use Rattle.prove_run.specs.Starting.{IsStarting, SaysReached};

use ml_derived::{carry, reach_here};
use ml_kernel::Thm;
use ml_pat::{MForm, MPat, VarNo};
use prove_step::Prover;
use rule_core::EvalRecord;
use std::alloc::{AllocError, Global};
use term_core::{RulePat, Subst};

// The variable that marks the place in the context of `to_other`.
const HOLE: VarNo = VarNo(0);

/// Proves that an initial term reaches its value, by the record of its evaluation. If there is no
/// record, it reaches itself. `AllocError`: out of memory. After an error the context may have
/// grown.
pub fn start_reaches(
    alloc: Global,
    prover: &mut Prover<'_>,
    start: &RulePat,
    value: Option<&EvalRecord>,
) -> Result<Thm, AllocError>
    requires start { IsStarting prover.old.program (plain_pattern start.now) }
    requires value { IfSome value
        (λ r. Records (theory_of prover.old.program) [] (plain_pattern start.now)
        (plain_record r.now)) }
    ensures says { IfOk result (SaysReached prover.new (plain_pattern start.now)
        (configuration (plain_pattern start.now) (value_told (option_copied value.entry)))) }
    ensures stays { IfOk result (StaysIn prover.new) }
    ensures grown { HasGrown prover.old prover.new }
{
    let here = prover.image(alloc, start)?;
    let itself = reach_here(alloc, &here)?;
    match value {
        Some(evaluation) => valued(alloc, prover, start, evaluation, itself),
        None => Ok(itself),
    }
}

// Proves that an initial term reaches its value, from the theorem that it reaches itself.
fn valued(
    alloc: Global,
    prover: &mut Prover<'_>,
    start: &RulePat,
    evaluation: &EvalRecord,
    itself: Thm,
) -> Result<Thm, AllocError>
    requires start { IsStarting prover.old.program (plain_pattern start.now) }
    requires recorded { Records (theory_of prover.old.program) [] (plain_pattern start.now)
        (plain_record evaluation.now) }
    requires says { SaysReached prover.old (plain_pattern start.now) (plain_pattern start.now)
        itself }
    requires stays { StaysIn prover.old itself }
    ensures says { IfOk result (SaysReached prover.new (plain_pattern start.now)
        (configuration (plain_pattern start.now)
        (Some (result_of (plain_record evaluation.now))))) }
    ensures stays { IfOk result (StaysIn prover.new) }
    ensures grown { HasGrown prover.old prover.new }
{
    let none = Subst::new(alloc, 0)?;
    match prover.eval_eq(alloc, start, &none, evaluation)? {
        Some(e) => to_other(alloc, &e, &itself),
        None => Ok(itself),
    }
}

// Proves `p -> ev q` from `r = q` and `p -> ev r`.
fn to_other(alloc: Global, e: &Thm, reached: &Thm) -> Result<Thm, AllocError>
    requires { (p r q : Pattern) × (e.now.conclusion ≡ equal r q)
        × (reached.now.conclusion ≡ imp p (ev r))
        × HasNoVariable p }
    ensures conclusion { IfOk result (λ t. (p r q : Pattern) → e.now.conclusion ≡ equal r q →
        reached.now.conclusion ≡ imp p (ev r) → t.conclusion ≡ imp p (ev q)) }
    ensures stays { IfOk result (StaysWithin (var 0 ∷ []) (e.now ∷ reached.now ∷ [])) }
{
    let MForm::Imp(before, _) = reached.conclusion().form() else {
        unreachable!()
    };
    let place = MPat::ev(alloc, &MPat::var(alloc, HOLE)?)?;
    let context = MPat::imp(alloc, before, &place)?;
    carry(alloc, e, &context, HOLE, reached)
}
