// Reading a hint file.
ghost use Rattle.std.specs.Prelude.{◌≡◌, ◌<◌, ◌^◌, ◌↔◌, IfOk, IfErr, IsSome, IsTrue, Some, length};
ghost use Rattle.std.specs.Prelude.{map};
ghost use Rattle.term_core.specs.Patterns.{ground_pattern};
ghost use Rattle.rule_core.specs.ProgramView.{theory_of};
ghost use Rattle.rule_core.specs.RecordView.{plain_step};
ghost use Rattle.kore_sig.specs.Numbered.{IsNumbered};
ghost use Rattle.kore_rules.specs.RefusedTexts.{top_of, IsSortOfRules};
ghost use Rattle.kore_show.specs.KorePatterns.{kore_pattern};
ghost use Rattle.rewriter.specs.Configurations.{IsConfiguration};
ghost use Rattle.hint_file.specs.HintTexts.{first_line, shown_text};
ghost use Rattle.hint_file.specs.HintFiles.{ReadsHints, ReadsSteps, RecordsLines, no_bad_line};
ghost use Rattle.hint_file.specs.ReadPaths.{IsFirstBad, IsPathOf};
ghost use Rattle.hint_file.specs.ReadAnswers.{AnswersLine, NumbersRules};

use crate::ends::{HintEnd, LineEnd};
use crate::lines::{cut_at, line_parts};
use crate::places::{rule_numbers, rule_of};
use crate::sizes::has_at_most;
use crate::steps::step_by;
use crate::writing::text_of;
use fun_eval::{Engine, EvalEnd};
use kore_rules::{Refusal, accept_term};
use rewriter::Run;
use rule_core::{EvalRecord, Program, Signature, StepRecord};
use std::alloc::{AllocError, Global};
use std::collections::BTreeMap;
use term_core::{RulePat, Term, pattern_of};

/// A path that was read from a hint file.
#[derive(Drop)]
pub struct HintPath {
    /// The initial term, as it was read.
    pub start: RulePat,
    /// The record of its evaluation.
    pub first: EvalRecord,
    /// The records of the steps, in order.
    pub steps: Vec<StepRecord>,
}

impl HintPath {
    /// The path that a hint file lists, by the engine of the program, with at most this many calls
    /// of functions. The error is the first bad line, or that memory ran out.
    ///
    /// It goes through the bytes once, line by line. For each line it takes the step, and compares
    /// the configuration after it with the line's text, at a cost that is linear in that text, plus
    /// one pass over the symbols. What is kept are the records of the steps: what the values of
    /// variables, conditions and right sides are made of, which share their terms.
    pub fn read(
        alloc: Global,
        program: &Program,
        engine: &Engine<'_>,
        bytes: &[u8],
        calls: u32,
    ) -> Result<HintPath, HintEnd>
        requires engine { engine.now ≡ program.now }
        requires few { length bytes.now < 2 ^ 32 }
        requires numbered { IsNumbered program.now.sig }
        requires top { IsSortOfRules (theory_of program.now) (top_of program.now) }
        ensures read { IfOk result
            (IsPathOf (theory_of program.now) (top_of program.now) calls bytes.now) }
        ensures bad { IfErr result (IsFirstBad
            (ReadsHints (theory_of program.now) (top_of program.now) calls bytes.now)) }
    {
        let _program = engine.program();
        let Some((line, rest)) = cut_at(b'\n', bytes) else {
            return Err(HintEnd::Bad(1, 1));
        };
        if !is_first_line(line) {
            return Err(HintEnd::Bad(1, 1));
        }
        let Some((line, more)) = cut_at(b'\n', rest) else {
            return Err(HintEnd::Bad(2, 1));
        };
        let start = match accept_term(alloc, program, line) {
            Ok(start) => start,
            Err(Refusal::Refused(_, _)) => return Err(HintEnd::Bad(2, 1)),
            Err(Refusal::Memory) => return Err(HintEnd::Memory),
        };
        let (run, first) = match Run::new(alloc, engine, &start, calls) {
            Ok(begun) => begun,
            Err(EvalEnd::Blocked(_)) => return Err(HintEnd::Bad(2, 4)),
            Err(EvalEnd::Memory) => return Err(HintEnd::Memory),
        };
        let steps = read_steps(alloc, engine, run.config(), run.calls_left(), more)?;
        Ok(HintPath {
            start,
            first,
            steps,
        })
    }
}

// Whether the line is line 1 of a hint file.
fn is_first_line(line: &[u8]) -> bool
    ensures { IsTrue result ↔ (line.now ≡ first_line) }
{
    line == "kore-hints 1".as_bytes()
}

// The steps of the lines after line 2.
fn read_steps(
    alloc: Global,
    engine: &Engine<'_>,
    config: &Term,
    calls: u32,
    bytes: &[u8],
) -> Result<Vec<StepRecord>, HintEnd>
    requires config { IsConfiguration (theory_of engine.now) config.now }
    requires few { length bytes.now < 2 ^ 32 }
    ensures read { IfOk result
        (λ steps. ReadsSteps (theory_of engine.now) 3 config.now calls bytes.now no_bad_line) }
    ensures recorded { IfOk result
        (λ steps. RecordsLines (theory_of engine.now) config.now calls bytes.now
        (map plain_step steps.items)) }
    ensures bad { IfErr result
        (IsFirstBad (ReadsSteps (theory_of engine.now) 3 config.now calls bytes.now)) }
{
    let numbers = rule_numbers(alloc, engine.program())?;
    let mut steps = Vec::new(alloc);
    let mut last = config.share()?;
    let mut left = calls;
    let mut rest = bytes;
    let mut number: u64 = 3;
    while !rest.is_empty() {
        let Some((line, more)) = cut_at(b'\n', rest) else {
            return Err(HintEnd::Bad(number, 1));
        };
        match read_line(alloc, engine, &numbers, &last, left, line) {
            Ok((step, fewer)) => {
                last = step.right.result().share()?;
                steps.push(step)?;
                left = fewer;
            }
            Err(LineEnd::Bad(k)) => return Err(HintEnd::Bad(number, k)),
            Err(LineEnd::Memory) => return Err(HintEnd::Memory),
        }
        rest = more;
        number += 1;
    }
    Ok(steps)
}

// The step of a line, from a configuration with so many calls left, and the calls that it leaves.
fn read_line(
    alloc: Global,
    engine: &Engine<'_>,
    numbers: &BTreeMap<u64, u32>,
    config: &Term,
    calls: u32,
    line: &[u8],
) -> Result<(StepRecord, u32), LineEnd>
    requires config { IsConfiguration (theory_of engine.now) config.now }
    requires numbers { NumbersRules (theory_of engine.now) numbers.now }
    ensures { AnswersLine (theory_of engine.now) config.now calls line.now result }
{
    let Some((byte, text)) = line_parts(line) else {
        return Err(LineEnd::Bad(1));
    };
    let Some(number) = numbers.get(&byte) else {
        return Err(LineEnd::Bad(2));
    };
    let program = engine.program();
    let rule = rule_of(program, *number);
    match step_by(alloc, engine, *number, rule, config, calls) {
        Ok(Some((step, left))) => {
            if has_text(alloc, &program.sig, step.right.result(), text)? {
                Ok((step, left))
            } else {
                Err(LineEnd::Bad(5))
            }
        }
        Ok(None) => Err(LineEnd::Bad(3)),
        Err(EvalEnd::Blocked(_)) => Err(LineEnd::Bad(4)),
        Err(EvalEnd::Memory) => Err(LineEnd::Memory),
    }
}

// Whether this is the canonical text of a term. A term with more nodes than the text has bytes is
// not written, so that the time is linear in the text, even if parts of the term are shared.
fn has_text(alloc: Global, sig: &Signature, term: &Term, text: &[u8]) -> Result<bool, AllocError>
    requires { IsSome (kore_pattern sig.now (ground_pattern term.now)) }
    ensures { IfOk result
        (λ yes. IsTrue yes ↔ (shown_text sig.now (ground_pattern term.now) ≡ Some text.now)) }
{
    if !has_at_most(term, text.len()) {
        return Ok(false);
    }
    let own = text_of(alloc, sig, &pattern_of(alloc, term)?)?;
    Ok(own.as_bytes() == text)
}
