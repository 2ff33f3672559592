// Worked runs.
use crate::test_calls::{BASE, Case, first_failing};
use crate::test_definitions::*;
use std::test::Fail;

static CONSTRUCTED: [Case<'static>; 8] = [
    Case {
        words: &["run", "d.kore", "t.kore", "--limit", "0"],
        code: 10,
        out: "limit 0\na{}()\n",
        ..BASE
    },
    Case {
        words: &["run", "d.kore", "t.kore", "--limit", "2"],
        code: 10,
        out: "limit 2\nc{}()\n",
        ..BASE
    },
    Case {
        definition: BY_PRIORITY,
        code: 0,
        out: "stuck 1\nc{}()\n",
        ..BASE
    },
    Case {
        definition: IN_FILE_ORDER,
        code: 0,
        out: "stuck 1\nb{}()\n",
        ..BASE
    },
    Case {
        definition: SAME_PAIR,
        term: "pair{}(p{}(),p{}())",
        code: 0,
        out: "stuck 1\nok{}()\n",
        ..BASE
    },
    Case {
        definition: SAME_PAIR,
        term: "pair{}(p{}(),q{}())",
        code: 0,
        out: "stuck 0\npair{}(p{}(),q{}())\n",
        ..BASE
    },
    Case {
        definition: NESTED_INJECTIONS,
        term: r#"k{}(inj{SortInt{},SortKItem{}}(\dv{SortInt{}}("5")))"#,
        code: 0,
        out: "stuck 1\ndone{}(inj{SortInt{},SortStmt{}}(\\dv{SortInt{}}(\"5\")))\n",
        ..BASE
    },
    Case {
        definition: INTEGER_FUNCTIONS,
        term: r#"n{}(add{}(\dv{SortInt{}}("170141183460469231731687303715884105727"),\dv{SortInt{}}("1")))"#,
        code: 11,
        out: "blocked 0 NoValue INT.add\n\
            n{}(add{}(\\dv{SortInt{}}(\"170141183460469231731687303715884105727\"\
            ),\\dv{SortInt{}}(\"1\")))\n",
        ..BASE
    },
];

static COMPUTED: [Case<'static>; 7] = [
    Case {
        definition: INTEGER_FUNCTIONS,
        term: r#"n{}(tdiv{}(\dv{SortInt{}}("-7"),\dv{SortInt{}}("2")))"#,
        code: 0,
        out: "stuck 0\nn{}(\\dv{SortInt{}}(\"-3\"))\n",
        ..BASE
    },
    Case {
        definition: INTEGER_FUNCTIONS,
        term: r#"n{}(tmod{}(\dv{SortInt{}}("-7"),\dv{SortInt{}}("2")))"#,
        code: 0,
        out: "stuck 0\nn{}(\\dv{SortInt{}}(\"-1\"))\n",
        ..BASE
    },
    Case {
        definition: INTEGER_FUNCTIONS,
        term: r#"n{}(ediv{}(\dv{SortInt{}}("-7"),\dv{SortInt{}}("2")))"#,
        code: 0,
        out: "stuck 0\nn{}(\\dv{SortInt{}}(\"-4\"))\n",
        ..BASE
    },
    Case {
        definition: INTEGER_FUNCTIONS,
        term: r#"n{}(emod{}(\dv{SortInt{}}("-7"),\dv{SortInt{}}("2")))"#,
        code: 0,
        out: "stuck 0\nn{}(\\dv{SortInt{}}(\"1\"))\n",
        ..BASE
    },
    Case {
        definition: INTEGER_FUNCTIONS,
        term: "n{}(tdiv{}(\\dv{SortInt{}}(\"-170141183460469231731687303715884105728\"),\
            \\dv{SortInt{}}(\"-1\")))",
        code: 11,
        out: "blocked 0 NoValue INT.tdiv\n\
            n{}(tdiv{}(\\dv{SortInt{}}(\"-17014118346046923173168730371588410572\
            8\"),\\dv{SortInt{}}(\"-1\")))\n",
        ..BASE
    },
    Case {
        definition: INTEGER_FUNCTIONS,
        term: "n{}(tmod{}(\\dv{SortInt{}}(\"-170141183460469231731687303715884105728\"),\
            \\dv{SortInt{}}(\"-1\")))",
        code: 0,
        out: "stuck 0\nn{}(\\dv{SortInt{}}(\"0\"))\n",
        ..BASE
    },
    Case {
        definition: INTEGER_FUNCTIONS,
        term: "n{}(emod{}(\\dv{SortInt{}}(\"-170141183460469231731687303715884105728\"),\
            \\dv{SortInt{}}(\"-1\")))",
        code: 0,
        out: "stuck 0\nn{}(\\dv{SortInt{}}(\"0\"))\n",
        ..BASE
    },
];

static CONDITIONAL: [Case<'static>; 7] = [
    Case {
        definition: GUARDED_RULES,
        term: r#"t{}(\dv{SortInt{}}("3"))"#,
        code: 0,
        out: "stuck 1\nv{}(\\dv{SortInt{}}(\"3\"))\n",
        ..BASE
    },
    Case {
        definition: BLOCKED_CONDITION,
        term: r#"t{}(\dv{SortInt{}}("3"))"#,
        code: 0,
        out: "stuck 1\nv{}(\\dv{SortInt{}}(\"3\"))\n",
        ..BASE
    },
    Case {
        definition: BLOCKED_CONDITION,
        term: r#"t{}(\dv{SortInt{}}("0"))"#,
        code: 11,
        out: "blocked 0 NoValue INT.tdiv\nt{}(\\dv{SortInt{}}(\"0\"))\n",
        ..BASE
    },
    Case {
        words: &["run", "d.kore", "t.kore", "--limit", "5", "--calls", "3"],
        definition: APPEND_LIST,
        term: "k{}(append{}(kseq{}(p{}(),kseq{}(p{}(),kseq{}(q{}(),dotk{}()))),dotk{}()))",
        code: 11,
        out: "blocked 0 Calls append\nk{}(append{}(kseq{}(p{}(),kseq{}(p{}(),kseq{}(q{}(),\
            dotk{}()))),dotk{}()))\n",
        ..BASE
    },
    Case {
        words: &["run", "d.kore", "t.kore", "--limit", "5", "--calls", "4"],
        definition: APPEND_LIST,
        term: "k{}(append{}(kseq{}(p{}(),kseq{}(p{}(),kseq{}(q{}(),dotk{}()))),dotk{}()))",
        code: 0,
        out: "stuck 0\nk{}(kseq{}(p{}(),kseq{}(p{}(),kseq{}(q{}(),dotk{}()))))\n",
        ..BASE
    },
    Case {
        definition: INTEGER_FUNCTIONS,
        term: r#"n{}(\dv{SortInt{}}("1"))"#,
        code: 0,
        out: "stuck 0\nn{}(\\dv{SortInt{}}(\"1\"))\n",
        ..BASE
    },
    Case {
        definition: INTEGER_FUNCTIONS,
        term: r#"n{}(len{}(\dv{SortString{}}("ab")))"#,
        code: 11,
        out: "blocked 0 Closed len\nn{}(len{}(\\dv{SortString{}}(\"ab\")))\n",
        ..BASE
    },
];

static BLOCKED: [Case<'static>; 6] = [
    Case {
        words: &["run", "d.kore", "t.kore", "--limit", "100"],
        definition: ADDITION,
        term: "Lbl'-LT-'k'-GT-'{}(kseq{}(inj{SortExp{},\
            SortKItem{}}(Lbl'UndsPlusUnds'{}(inj{SortInt{},SortExp{}\
            }(\\dv{SortInt{}}(\"2\")),inj{SortInt{},SortExp{}}(\\dv{SortInt{}}(\"3\")))),\
            dotk{}()))",
        code: 0,
        out: "stuck 1\nLbl'-LT-'k'-GT-'{}(kseq{}(inj{SortInt{},\
            SortKItem{}}(\\dv{SortInt{}}(\"5\")),dotk{}()))\n",
        ..BASE
    },
    Case {
        definition: INTEGER_FUNCTIONS,
        term: r#"n{}(\dv{SortInt{}}("007"))"#,
        code: 0,
        out: "stuck 0\nn{}(\\dv{SortInt{}}(\"7\"))\n",
        ..BASE
    },
    Case {
        definition: OTHERWISE,
        term: r#"n{}(isInt{}(kseq{}(inj{SortInt{},SortKItem{}}(\dv{SortInt{}}("5")),dotk{}())))"#,
        code: 11,
        out: "blocked 0 Closed isInt\nn{}(isInt{}(kseq{}(inj{SortInt{},\
            SortKItem{}}(\\dv{SortInt{}}(\"5\")),do\
            tk{}())))\n",
        ..BASE
    },
    Case {
        words: &["run", "d.kore", "t.kore", "--limit", "5", "--calls", "0"],
        definition: NO_EQUATION,
        term: "n{}(loop{}())",
        code: 11,
        out: "blocked 0 Calls loop\nn{}(loop{}())\n",
        ..BASE
    },
    Case {
        definition: NO_EQUATION,
        term: "n{}(loop{}())",
        code: 11,
        out: "blocked 0 NoEquation loop\nn{}(loop{}())\n",
        ..BASE
    },
    Case {
        definition: LOOP,
        term: "n{}(loop{}())",
        code: 11,
        out: "blocked 0 Nest loop\nn{}(loop{}())\n",
        ..BASE
    },
];

/// Each run ends as its definition says, and prints its two lines.
#[test]
fn runs_print_their_two_lines(rt: HostRuntime) -> Result<(), Fail> {
    assert_eq!(rt; first_failing(rt.alloc(), &CONSTRUCTED)?, None);
    Ok(())
}

/// So do runs with hooks.
#[test]
fn values_are_computed(rt: HostRuntime) -> Result<(), Fail> {
    assert_eq!(rt; first_failing(rt.alloc(), &COMPUTED)?, None);
    Ok(())
}

/// So do runs with conditions and equations.
#[test]
fn conditions_and_equations_are_tried_in_order(rt: HostRuntime) -> Result<(), Fail> {
    assert_eq!(rt; first_failing(rt.alloc(), &CONDITIONAL)?, None);
    Ok(())
}

/// So do runs that are blocked, and runs of definitions as kompile writes them.
#[test]
fn what_is_blocked_tells_why(rt: HostRuntime) -> Result<(), Fail> {
    assert_eq!(rt; first_failing(rt.alloc(), &BLOCKED)?, None);
    Ok(())
}
