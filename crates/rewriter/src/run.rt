// A run, step by step.
ghost use Rattle.std.specs.Prelude.{◌≡◌, [], IfOk, IfErr, OnErr};
ghost use Rattle.term_core.specs.RulePatterns.{plain_pattern};
ghost use Rattle.rule_core.specs.Evaluation.{Evaluates};
ghost use Rattle.rule_core.specs.FirstRule.{most_nesting};
ghost use Rattle.rule_core.specs.ProgramView.{theory_of};
ghost use Rattle.rule_core.specs.Records.{Records, result_of};
ghost use Rattle.rule_core.specs.RecordView.{plain_record};
ghost use Rattle.rule_core.specs.Runs.{Reaches};
ghost use Rattle.match_tree.specs.Programs.{IsRuleTree};
ghost use Rattle.match_tree.specs.SlotView.{HasRoom};
ghost use Rattle.fun_eval.specs.EvalEnds.{EndsBy};
ghost use Rattle.fun_eval.specs.Recorded.{IsRecorded};
ghost use Rattle.rewriter.specs.Configurations.{IsConfiguration};
ghost use Rattle.rule_core.specs.WellSorted.{IsStart};
ghost use Rattle.rewriter.specs.NextSteps.{TakesStep, RecordsNext, RecordedNext};
ghost use Rattle.rewriter.specs.KeptRules.{KeepsRule, KeepsMadeRule};
ghost use Rattle.rewriter.specs.WithRecords.{IsWithRecord};

use crate::step::{Made, advance};
use fun_eval::{Answer, Budget, Engine, EvalEnd, MAX_NESTING, Recording};
use match_tree::{Slots, Tree};
use rule_core::{Blocked, EvalRecord, StepRecord};
use std::alloc::{AllocError, Global};
use std::marker::Model;
use term_core::{RulePat, Subst, Term};

/// The last configuration of a run, and how many calls of functions are left.
#[derive(Drop)]
pub struct Run {
    config: Term,
    calls: u32,
}

impl Model for Run {
    ghost use Rattle.rewriter.specs.Configurations.{RunState};
    ghost use Rattle.rewriter.specs.RunCode.{run_state_code};

    ghost Value = { RunState };

    ghost coded = { run_state_code };

    ghost view = { λ r. record { config = r.config; calls = r.calls } };
}

/// The result of a step.
#[derive(Drop)]
pub enum Next<S> {
    /// The step was made.
    Made(S),
    /// No rule applies.
    Stuck,
    /// The condition of a rule that was tried, or the right side, has no value.
    Blocked(Blocked),
}

impl Run {
    /// The run of an initial term, with at most this many calls of functions, and the record of the
    /// term's evaluation. If there are rules, the term has their sort. `Blocked` states why the
    /// term has no value: its run is blocked at step 0.
    pub fn new(
        alloc: Global,
        engine: &Engine<'_>,
        start: &RulePat,
        calls: u32,
    ) -> Result<(Run, EvalRecord), EvalEnd>
        requires { IsStart (theory_of engine.now) (plain_pattern start.now) }
        ensures starts { IfOk result
            (λ r. Reaches (theory_of engine.now) (plain_pattern start.now) calls 0 r.0.config
            r.0.calls) }
        ensures recorded { IfOk result
            (λ r. Records (theory_of engine.now) [] (plain_pattern start.now) (plain_record r.1)) }
        ensures value { IfOk result (λ r. result_of (plain_record r.1) ≡ r.0.config) }
        ensures sorted { IfOk result (λ r. IsConfiguration (theory_of engine.now) r.0.config) }
        ensures blocked { IfErr result
            (EndsBy (Evaluates (theory_of engine.now) most_nesting [] (plain_pattern start.now)
            calls)) }
    {
        Run::new_as::<EvalRecord>(alloc, engine, start, calls)
    }

    /// Begins a run as `new` does, with another recording of the evaluation.
    pub fn new_as<R: Recording>(
        alloc: Global,
        engine: &Engine<'_>,
        start: &RulePat,
        calls: u32,
    ) -> Result<(Run, R), EvalEnd>
        requires { IsStart (theory_of engine.now) (plain_pattern start.now) }
        ensures starts { IfOk result
            (λ r. Reaches (theory_of engine.now) (plain_pattern start.now) calls 0 r.0.config
            r.0.calls) }
        ensures recorded { IfOk result
            (λ r. IsRecorded (R.tells r.1) (theory_of engine.now) [] (plain_pattern start.now)
            r.0.config) }
        ensures sorted { IfOk result (λ r. IsConfiguration (theory_of engine.now) r.0.config) }
        ensures blocked { IfErr result
            (EndsBy (Evaluates (theory_of engine.now) most_nesting [] (plain_pattern start.now)
            calls)) }
    {
        let _program = engine.program();
        let subst = Subst::new(alloc, 0)?;
        let mut budget = Budget { calls };
        let answer = engine.eval_as::<R>(alloc, start, &subst, &mut budget, MAX_NESTING)?;
        let Answer { term, recorded } = answer;
        let run = Run {
            config: term,
            calls: budget.calls,
        };
        Ok((run, recorded))
    }

    /// The last configuration.
    pub fn config(&self) -> &Term
        ensures { result.now ≡ self.now.config }
    {
        &self.config
    }

    /// How many calls of functions the next step may take.
    pub fn calls_left(&self) -> u32
        ensures { result ≡ self.now.calls }
    {
        self.calls
    }

    /// One step, by the engine with which the run was made, and the tree of its program's rules.
    /// After `Stuck`, `Blocked` or an error the run is as before, and a further call returns the
    /// same. `AllocError`: out of memory.
    ///
    /// The slots have room for the tree. After a step they keep the rule that was used, and fit the
    /// tree and the configuration before the step. They keep their room after every answer.
    ///
    /// The tree is walked from one rule that matches to the next, until a condition holds. Memory
    /// is taken only for the rules that match, and for what is evaluated.
    pub fn step(
        &mut self,
        alloc: Global,
        engine: &Engine<'_>,
        tree: &Tree<'_>,
        slots: &mut Slots,
    ) -> Result<Next<StepRecord>, AllocError>
        requires config { IsConfiguration (theory_of engine.now) self.old.config }
        requires tree { IsRuleTree (theory_of engine.now) tree.now }
        requires room { HasRoom tree.now slots.old }
        ensures next { IfOk result (TakesStep (theory_of engine.now) self.old self.new) }
        ensures recorded { IfOk result
            (RecordsNext (theory_of engine.now) self.old.config self.new.config) }
        ensures sorted { IsConfiguration (theory_of engine.now) self.new.config }
        ensures err { OnErr result (self.new ≡ self.old) }
        ensures kept { IfOk result (KeepsRule tree.now self.old.config slots.new) }
        ensures room { HasRoom tree.now slots.new }
    {
        let next = self.step_as::<EvalRecord>(alloc, engine, tree, slots)?;
        Ok(with_record(next))
    }

    /// Makes a step as `step` does, with another recording of the evaluations.
    pub fn step_as<R: Recording>(
        &mut self,
        alloc: Global,
        engine: &Engine<'_>,
        tree: &Tree<'_>,
        slots: &mut Slots,
    ) -> Result<Next<Made<R>>, AllocError>
        requires config { IsConfiguration (theory_of engine.now) self.old.config }
        requires tree { IsRuleTree (theory_of engine.now) tree.now }
        requires room { HasRoom tree.now slots.old }
        ensures next { IfOk result (TakesStep (theory_of engine.now) self.old self.new) }
        ensures recorded { IfOk result
            (RecordedNext R.tells (theory_of engine.now) self.old.config self.new.config) }
        ensures sorted { IsConfiguration (theory_of engine.now) self.new.config }
        ensures err { OnErr result (self.new ≡ self.old) }
        ensures kept { IfOk result (KeepsMadeRule tree.now self.old.config slots.new) }
        ensures room { HasRoom tree.now slots.new }
    {
        match advance::<R>(alloc, engine, tree, slots, &self.config, self.calls) {
            Ok(Some(further)) => {
                self.config = further.config;
                self.calls = further.calls;
                Ok(Next::Made(further.made))
            }
            Ok(None) => Ok(Next::Stuck),
            Err(EvalEnd::Blocked(why)) => Ok(Next::Blocked(why)),
            Err(EvalEnd::Memory) => Err(AllocError),
        }
    }
}

// The record of a step, with the records of its evaluations.
fn with_record(next: Next<Made<EvalRecord>>) -> Next<StepRecord>
    ensures { IsWithRecord next result }
{
    match next {
        Next::Made(made) => {
            let Made {
                rule,
                subst,
                cond,
                right,
            } = made;
            Next::Made(StepRecord {
                rule,
                subst,
                cond,
                right,
            })
        }
        Next::Stuck => Next::Stuck,
        Next::Blocked(why) => Next::Blocked(why),
    }
}
