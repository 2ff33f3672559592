// One call of each function that allocates.
ghost use Rattle.std.specs.Prelude.{◌≡◌, ℕ, [], List, IfOk};
ghost use Rattle.rule_core.specs.ProgramView.{theory_of};
ghost use Rattle.rule_core.specs.WellSorted.{IsWellSorted};
ghost use Rattle.fun_eval.specs.Evaluable.{HasNumbers};
ghost use Rattle.fun_eval.specs.TestPrograms.{HasIntegers};

use fun_eval::{Budget, Engine, MAX_NESTING, Unrecorded};
use rule_core::{Program, Signature, SortInfo, SortKind, Subsorts, Table};
use std::alloc::{AllocError, Global};
use std::test::Fail;
use term_core::{RulePat, SortId, Subst, Value};

const INT: SortId = SortId(0);

// A program with the sort of whole numbers and no symbol.
fn integers(alloc: Global) -> Result<Option<Program>, AllocError>
    ensures sorted { IfOk result (λ found. (p : _) → found ≡ Some p → IsWellSorted (theory_of p)) }
    ensures numbers { IfOk result (λ found. (p : _) → found ≡ Some p → HasNumbers (theory_of p)) }
    ensures integers { IfOk result (λ found. (p : _) → found ≡ Some p → HasIntegers p.sig) }
{
    let mut sorts = Table::new(alloc);
    let kind = SortKind::Int;
    if !sorts.insert(String::from_str(alloc, "Int")?, SortInfo { kind })? {
        return Ok(None);
    }
    Ok(Some(Program {
        sig: Signature {
            sorts,
            symbols: Table::new(alloc),
            subsorts: Subsorts::new(alloc),
        },
        top: None,
        rules: Vec::new(alloc),
        equations: Vec::new(alloc),
    }))
}

// A domain value has itself as its value, and uses no call and no nesting, with or without a
// record.
#[test]
fn evaluates_a_domain_value(rt: HostRuntime) -> Result<(), Fail> {
    let alloc = rt.alloc();
    let Some(program) = integers(alloc)? else {
        return Err(Fail::from("a sort twice"));
    };
    let engine = Engine::new(alloc, &program)?;
    let five = RulePat::Value(INT, Value::Int(5));
    let subst = Subst::new(alloc, 0)?;
    let mut budget = Budget { calls: 3 };
    let Ok(record) = engine.eval(alloc, &five, &subst, &mut budget, 0) else {
        return Err(Fail::from("no value"));
    };
    let Ok(answer) = engine.eval_as::<Unrecorded>(alloc, &five, &subst, &mut budget, MAX_NESTING)
    else {
        return Err(Fail::from("no value"));
    };
    assert_eq!(rt; budget.calls, 3);
    assert!(rt; record.result().same(&answer.term));
    Ok(())
}
