// Terms that are not true.
ghost use Rattle.std.specs.Prelude.{◌≡◌, [], false, IfOk, IfSome};
ghost use Rattle.term_core.specs.Terms.{leaf, truth};
ghost use Rattle.term_core.specs.RulePatterns.{plain_pattern};
ghost use Rattle.rule_core.specs.AcSymbols.{IsAcFree};
ghost use Rattle.rule_core.specs.BoundVariables.{HasBoundVariables};
ghost use Rattle.rule_core.specs.ProgramView.{theory_of};
ghost use Rattle.rule_core.specs.Records.{Records, result_of};
ghost use Rattle.rule_core.specs.RecordView.{plain_record};
ghost use Rattle.rule_core.specs.WellSorted.{IsStart, IsWellSorted};
ghost use Rattle.fun_eval.specs.Evaluable.{HasNumbers};
ghost use Rattle.kore_rules.specs.Names.{HasIdentifierNames};
ghost use Rattle.prove_term.specs.Contexts.{HasGrown, StaysIn};
ghost use Rattle.refute.specs.Refutations.{EqualsTerm};

use crate::accepted::{program_of, start_of};
use crate::definitions::TRUTHS;
use crate::proof_files::{add_lemma, last_stated};
use fun_eval::Engine;
use ml_kernel::Thm;
use mm_verify::verify;
use proof_writer::Writer;
use prove_fun::{LemmaPlaces, value_eq};
use prove_term::Cx;
use refute::not_true;
use rewriter::Run;
use rule_core::{EvalRecord, Program};
use std::alloc::{AllocError, Global};
use term_core::{RulePat, SortId, Subst, Term, Value, pattern_of};

/// Terms whose value is `false`, and what is stated of each: the value itself, a call, and a call
/// of a call.
static FALSE: [(&str, &str); 3] = [
    (
        r#"\dv{SortBool{}}("false")"#,
        "p |- ( \\not ( \\eq d:SortBool:66616c7365 d:SortBool:74727565 ) ) ",
    ),
    (
        r#"gt{}(\dv{SortInt{}}("1"),\dv{SortInt{}}("2"))"#,
        "p |- ( \\not ( \\eq ( \\app ( \\app f:gt d:SortInt:31 ) d:SortInt:32 ) \
         d:SortBool:74727565 ) ) ",
    ),
    (
        r#"gt{}(sub{}(\dv{SortInt{}}("1"),\dv{SortInt{}}("3")),\dv{SortInt{}}("2"))"#,
        "p |- ( \\not ( \\eq ( \\app ( \\app f:gt ( \\app ( \\app f:sub d:SortInt:31 ) \
         d:SortInt:33 ) ) d:SortInt:32 ) d:SortBool:74727565 ) ) ",
    ),
];

/// A term whose value is `false` does not equal `true`.
#[test]
fn a_false_term_is_not_true(rt: HostRuntime) {
    let alloc = rt.alloc();
    for (term, stated) in &FALSE {
        match proof_file(alloc, term) {
            None => panic!(rt; "{} is not proved", *term),
            Some(text) => {
                assert_eq!(rt; last_stated(&text), Some(*stated));
                assert!(rt; verify(alloc, &text).is_ok());
            }
        }
    }
}

/// The proof file of what `denied` proves of a term.
fn proof_file(alloc: Global, term: &str) -> Option<Vec<u8>> {
    let program = program_of(alloc, TRUTHS)?;
    let start = start_of(alloc, &program, term)?;
    match written(alloc, &program, &start) {
        Ok(text) => text,
        Err(_) => None,
    }
}

/// The same, for an accepted term.
fn written(alloc: Global, program: &Program, start: &RulePat) -> Result<Option<Vec<u8>>, AllocError>
    requires well_sorted { IsWellSorted (theory_of program.now) }
    requires no_ac { IsAcFree program.now.sig }
    requires bound { HasBoundVariables program.now }
    requires numbers { HasNumbers (theory_of program.now) }
    requires names { HasIdentifierNames program.now.sig }
    requires start { IsStart (theory_of program.now) (plain_pattern start.now) }
{
    let mut cx = Cx::new(alloc, program);
    let Some(thm) = denied(alloc, &mut cx, start)? else {
        return Ok(None);
    };
    let mut text = Vec::new(alloc);
    let mut writer = Writer::begin(alloc, program, &mut text)?;
    add_lemma(alloc, &mut cx, &mut writer, &mut text, thm)?;
    Ok(Some(text))
}

/// Proves that a term does not equal `true`, if its value is `false`.
fn denied(alloc: Global, cx: &mut Cx<'_>, start: &RulePat) -> Result<Option<Thm>, AllocError>
    requires well_sorted { IsWellSorted (theory_of cx.old.program) }
    requires no_ac { IsAcFree cx.old.program.sig }
    requires bound { HasBoundVariables cx.old.program }
    requires numbers { HasNumbers (theory_of cx.old.program) }
    requires start { IsStart (theory_of cx.old.program) (plain_pattern start.now) }
    ensures no_hypotheses { IfOk result (λ o. IfSome o (λ t. t.hypotheses ≡ [])) }
    ensures stays { IfOk result (λ o. IfSome o (StaysIn cx.new)) }
    ensures grown { HasGrown cx.old cx.new }
{
    let engine = Engine::new(alloc, cx.program())?;
    let Ok((run, evaluation)) = Run::new(alloc, &engine, start, 1_000) else {
        return Ok(None);
    };
    let Some(sort) = sort_of_false(alloc, run.config())? else {
        return Ok(None);
    };
    let eq = equality(alloc, cx, start, &evaluation)?;
    Ok(Some(not_true(alloc, cx, &eq, run.config(), sort)?))
}

/// The sort of the value, if it is `false`.
fn sort_of_false(alloc: Global, value: &Term) -> Result<Option<SortId>, AllocError>
    ensures { IfOk result (λ o. IfSome o (λ sort. value.now ≡ leaf sort.0 (truth false))) }
{
    match pattern_of(alloc, value)? {
        RulePat::Value(sort, Value::Bool(false)) => Ok(Some(sort)),
        _ => Ok(None),
    }
}

/// Proves that a term equals its value.
fn equality(
    alloc: Global,
    cx: &mut Cx<'_>,
    start: &RulePat,
    evaluation: &EvalRecord,
) -> Result<Thm, AllocError>
    requires well_sorted { IsWellSorted (theory_of cx.old.program) }
    requires bound { HasBoundVariables cx.old.program }
    requires start { IsStart (theory_of cx.old.program) (plain_pattern start.now) }
    requires recorded { Records (theory_of cx.old.program) [] (plain_pattern start.now)
        (plain_record evaluation.now) }
    ensures says { IfOk result
        (λ t. EqualsTerm cx.new (result_of (plain_record evaluation.now)) t.conclusion) }
    ensures stays { IfOk result (StaysIn cx.new) }
    ensures grown { HasGrown cx.old cx.new }
{
    let none = Subst::new(alloc, 0)?;
    let mut kept = LemmaPlaces::new(alloc);
    value_eq(alloc, cx, &mut kept, start, &none, evaluation)
}
