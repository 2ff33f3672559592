// One call of each function that allocates.
ghost use Rattle.std.specs.Prelude.{◌≡◌, [], IfOk, Some};
ghost use Rattle.rule_core.specs.ProgramView.{theory_of};
ghost use Rattle.rule_core.specs.WellSorted.{IsWellSorted};
ghost use Rattle.fun_eval.specs.Evaluable.{HasNumbers};
ghost use Rattle.fun_eval.specs.TestPrograms.{HasIntegers};

use fun_eval::{Engine, Unrecorded};
use match_tree::Slots;
use rewriter::{Next, Run};
use rule_core::{Program, Signature, SortInfo, SortKind, Subsorts, Table};
use std::alloc::{AllocError, Global};
use std::test::Fail;
use term_core::{RulePat, SortId, Value};

const INT: SortId = SortId(0);

// A program with the sort of whole numbers, no symbol and no rule.
fn integers(alloc: Global) -> Result<Option<Program>, AllocError>
    ensures sorted { IfOk result (λ found. (p : _) → found ≡ Some p → IsWellSorted (theory_of p)) }
    ensures numbers { IfOk result (λ found. (p : _) → found ≡ Some p → HasNumbers (theory_of p)) }
    ensures integers { IfOk result (λ found. (p : _) → found ≡ Some p → HasIntegers p.sig) }
    ensures rules { IfOk result (λ found. (p : _) → found ≡ Some p → p.rules.items ≡ []) }
{
    let mut sorts = Table::new(alloc);
    let kind = SortKind::Int;
    if !sorts.insert(String::from_str(alloc, "Int")?, SortInfo { kind })? {
        return Ok(None);
    }
    Ok(Some(Program {
        sig: Signature {
            sorts,
            symbols: Table::new(alloc),
            subsorts: Subsorts::new(alloc),
        },
        top: None,
        rules: Vec::new(alloc),
        equations: Vec::new(alloc),
    }))
}

// Without a rule, a run is stuck at its start, each time that it is asked, and keeps its calls.
#[test]
fn is_stuck_without_a_rule(rt: HostRuntime) -> Result<(), Fail> {
    let alloc = rt.alloc();
    let Some(program) = integers(alloc)? else {
        return Err(Fail::from("a sort twice"));
    };
    let engine = Engine::new(alloc, &program)?;
    let five = RulePat::Value(INT, Value::Int(5));
    let Ok((mut run, record)) = Run::new(alloc, &engine, &five, 3) else {
        return Err(Fail::from("blocked"));
    };
    let tree = engine.rule_tree(alloc)?;
    let mut slots = Slots::for_tree(alloc, &tree)?;
    let slots = &mut slots;
    assert!(rt; matches!(run.step(alloc, &engine, &tree, slots)?, Next::Stuck));
    assert!(rt;
        matches!(
            run.step_as::<Unrecorded>(alloc, &engine, &tree, slots)?,
            Next::Stuck
        )
    );
    assert!(rt; run.config().same(record.result()));
    assert_eq!(rt; run.calls_left(), 3);
    Ok(())
}
