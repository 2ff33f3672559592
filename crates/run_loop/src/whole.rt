// The loop of a run.
ghost use Rattle.std.specs.Prelude.{◌≡◌, ◌≤◌, IfOk};
ghost use Rattle.term_core.specs.RulePatterns.{plain_pattern};
ghost use Rattle.rule_core.specs.ProgramView.{theory_of};
ghost use Rattle.rule_core.specs.Runs.{IsRunOf};
ghost use Rattle.rule_core.specs.WellSorted.{IsStart};
ghost use Rattle.hint_file.specs.RunTexts.{AddsHintTextOf};
ghost use Rattle.run_loop.specs.RunEnds.{plain_run, IsSortedEnd};

use crate::ends::RunEnd;
use fun_eval::{Engine, EvalEnd, Unrecorded};
use hint_file::{Hints, hint_laws};
use kore_show::shown_laws;
use match_tree::Slots;
use rewriter::{Next, Run};
use std::alloc::{AllocError, Global};
use term_core::RulePat;

/// The run of an initial term, with at most this many steps and this many calls of functions. If
/// there are rules, the term has their sort. If hints are wanted, they get the hint text of the run.
/// `AllocError`: out of memory.
///
/// The rules' tree is made once. The cost of a step is stated at `Run::step_as`. With hints a step
/// costs the text of its configuration too. Without hints, memory does not grow with the number of
/// steps.
pub fn run(
    alloc: Global,
    engine: &Engine<'_>,
    start: &RulePat,
    limit: u32,
    calls: u32,
    hints: &mut Hints,
) -> Result<RunEnd, AllocError>
    requires { IsStart (theory_of engine.now) (plain_pattern start.now) }
    ensures run { IfOk result
        (λ end. IsRunOf (theory_of engine.now) limit calls (plain_pattern start.now)
        (plain_run end)) }
    ensures sorted { IfOk result (λ end. IsSortedEnd (theory_of engine.now) (plain_run end)) }
    ensures hints { IfOk result (λ end. AddsHintTextOf (theory_of engine.now) calls
        (plain_pattern start.now) (plain_run end) hints.old hints.new) }
{
    shown_laws();
    hint_laws();
    hints.start(alloc, engine.program(), start)?;
    let mut run = match Run::new_as::<Unrecorded>(alloc, engine, start, calls) {
        Ok((run, _)) => run,
        Err(EvalEnd::Blocked(why)) => return Ok(RunEnd::Unstarted(why)),
        Err(EvalEnd::Memory) => return Err(AllocError),
    };
    let tree = engine.rule_tree(alloc)?;
    let mut slots = Slots::for_tree(alloc, &tree)?;
    for made in 0..limit {
        match run.step_as::<Unrecorded>(alloc, engine, &tree, &mut slots)? {
            Next::Made(step) => {
                hints.push(alloc, engine.program(), step.rule, run.config())?;
            }
            Next::Stuck => return Ok(RunEnd::Stuck(made, run.config().share()?)),
            Next::Blocked(why) => return Ok(RunEnd::Blocked(made, why, run.config().share()?)),
        }
    }
    Ok(RunEnd::Limit(limit, run.config().share()?))
}
