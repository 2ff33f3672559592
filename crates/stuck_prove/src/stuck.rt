// All rules, none of which is used at a configuration.
ghost use Rattle.std.specs.Prelude.{◌≡◌, IfOk};
ghost use Rattle.rule_core.specs.AcSymbols.{IsAcFree};
ghost use Rattle.rule_core.specs.BoundVariables.{HasBoundVariables};
ghost use Rattle.rule_core.specs.ProgramView.{theory_of};
ghost use Rattle.rule_core.specs.Runs.{Steps, stays};
ghost use Rattle.rewriter.specs.Configurations.{IsConfiguration};
ghost use Rattle.prove_term.specs.Contexts.{HasGrown};
ghost use Rattle.prove_fun.specs.KeptLemmas.{IsKeptIn};
ghost use Rattle.stuck_prove.specs.RefutedRules.{SayNoneMet};

use crate::rules::rule_not_met;
use fun_eval::{Budget, Engine};
use ml_kernel::Thm;
use prove_fun::LemmaPlaces;
use prove_term::Cx;
use rewriter::Run;
use std::alloc::{AllocError, Global};

/// Proves of each rewrite rule, in the order of trial, that the configuration of a stuck run does not
/// meet it. No constructor of the program is AC. The conditions are evaluated again, with the calls
/// that the run has left, so they give what they gave the run. What is stated and proved once is kept
/// in the context, and `kept` has the places of the equations' lemmas there. `AllocError`: out of
/// memory, or a rule has so many variables that new ones have no number below 2^32. After an error
/// the context may have grown.
///
/// The recursion is as deep as the left sides and the records of conditions are high, and as a rule
/// has variables. A rule whose left side does not match costs the part that is compared. Each variable
/// costs a quantifier.
pub fn not_met(
    alloc: Global,
    cx: &mut Cx<'_>,
    kept: &mut LemmaPlaces,
    engine: &Engine<'_>,
    run: &Run,
) -> Result<Vec<Thm>, AllocError>
    requires program { cx.old.program ≡ engine.now }
    requires bound { HasBoundVariables cx.old.program }
    requires no_ac { IsAcFree cx.old.program.sig }
    requires config { IsConfiguration (theory_of engine.now) run.now.config }
    requires stuck { Steps (theory_of engine.now) run.now.config run.now.calls stays }
    requires kept { IsKeptIn cx.old kept.old }
    ensures shown { IfOk result (λ v. SayNoneMet cx.new run.now.config
        (theory_of cx.new.program).rules v.items) }
    ensures grown { HasGrown cx.old cx.new }
    ensures kept { IsKeptIn cx.new kept.new }
{
    let program = engine.program();
    let mut budget = Budget {
        calls: run.calls_left(),
    };
    let mut shown = Vec::with_capacity(alloc, program.rules.len())?;
    for i in 0..program.rules.len() {
        let rule = &program.rules[i];
        let config = run.config();
        shown.push(rule_not_met(alloc, cx, kept, engine, rule, config, &mut budget)?)?;
    }
    Ok(shown)
}
