// One call with ample memory.
ghost use Rattle.std.specs.Prelude.{IsSome, IfOk};
ghost use Rattle.kore_show.specs.KorePatterns.{declared_name};

use kore_ast::{PatForm, Sort, SortForm};
use kore_show::shown;
use rule_core::{Signature, SortInfo, SortKind, Subsorts, Table};
use std::alloc::{AllocError, Global};
use std::test::Fail;
use term_core::{RulePat, SortId, Value};

// A signature with only one sort, which is of integers.
fn numbers(alloc: Global) -> Result<Signature, AllocError>
    ensures { IfOk result (λ sig. IsSome (declared_name sig.sorts 0)) }
{
    let mut sorts = Table::new(alloc);
    let name = String::from_str(alloc, "SortInt")?;
    let _added = sorts.insert(
        name,
        SortInfo {
            kind: SortKind::Int,
        },
    )?;
    Ok(Signature {
        sorts,
        symbols: Table::new(alloc),
        subsorts: Subsorts::new(alloc),
    })
}

#[test]
fn shows_a_number_by_the_name_of_its_sort(rt: HostRuntime) -> Result<(), Fail> {
    let alloc = rt.alloc();
    let sig = numbers(alloc)?;
    let pattern = shown(alloc, &sig, &RulePat::Value(SortId(0), Value::Int(-7)))?;
    assert_eq!(rt; pattern.at, 0);
    if let PatForm::Value(sort, text, place) = &pattern.form {
        assert_eq!(rt; *place, 0);
        assert_eq!(rt; text.as_str(), "-7");
        assert!(rt; is_named(sort, "SortInt"));
    } else {
        assert!(rt; false);
    }
    Ok(())
}

// Whether the sort has this name and no arguments.
fn is_named(sort: &Sort, expected: &str) -> bool {
    match &sort.form {
        SortForm::App(name, sorts) => name.as_str() == expected && sorts.is_empty(),
        SortForm::Param(_) => false,
    }
}
