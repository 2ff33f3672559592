// Runs of definitions with equations of the last resort (`owise`).
use crate::last_resort_definitions::{IS_INT, IS_INT_OF_ANOTHER_SORT, IS_RESULT, LOOK_UP};
use crate::proof_tests::first_unproved;
use crate::test_calls::{BASE, Case, PROVES, first_failing};
use std::test::Fail;

const NUMBER: &str =
    r#"n{}(isInt{}(kseq{}(inj{SortInt{},SortKItem{}}(\dv{SortInt{}}("5")),dotk{}())))"#;

const IDENTIFIER: &str =
    r#"n{}(isInt{}(kseq{}(inj{SortId{},SortKItem{}}(\dv{SortId{}}("x")),dotk{}())))"#;

const IS_INT_PROVED: Case<'static> = Case {
    definition: IS_INT,
    ..PROVES
};

const IS_RESULT_PROVED: Case<'static> = Case {
    definition: IS_RESULT,
    ..PROVES
};

const LOOK_UP_PROVED: Case<'static> = Case {
    definition: LOOK_UP,
    ..PROVES
};

/// Runs, and what they print.
static RUNS: [Case<'static>; 2] = [
    Case {
        definition: IS_INT,
        term: IDENTIFIER,
        out: "stuck 0\nn{}(\\dv{SortBool{}}(\"false\"))\n",
        ..BASE
    },
    // no equation is a guard's, so the function is closed
    Case {
        definition: IS_INT_OF_ANOTHER_SORT,
        term: NUMBER,
        out: "blocked 0 Closed isInt\nn{}(isInt{}(kseq{}(inj{SortInt{},SortKItem{}}(\\dv{SortInt{}}(\
            \"5\")),dotk{}())))\n",
        code: 11,
        ..BASE
    },
];

/// Runs that are proved, and what the last theorem of each states.
static PROOFS: [(Case<'static>, &str); 8] = [
    (
        Case {
            term: NUMBER,
            out: "stuck 0\nn{}(\\dv{SortBool{}}(\"true\"))\n",
            ..IS_INT_PROVED
        },
        "p |- ( \\imp ( \\app f:n ( \\app f:isInt ( \\app ( \\app f:kseq ( \\app ( \\at ( \
            \\at f:inj s:SortInt ) s:SortKItem ) d:SortInt:35 ) ) f:dotk ) ) ) ( \\ev ( \\app \
            f:n d:SortBool:74727565 ) ) ) ",
    ),
    (
        Case {
            term: IDENTIFIER,
            out: "stuck 0\nn{}(\\dv{SortBool{}}(\"false\"))\n",
            ..IS_INT_PROVED
        },
        "p |- ( \\imp ( \\app f:n ( \\app f:isInt ( \\app ( \\app f:kseq ( \\app ( \\at ( \
            \\at f:inj s:SortId ) s:SortKItem ) d:SortId:78 ) ) f:dotk ) ) ) ( \\ev ( \\app f:n \
            d:SortBool:66616c7365 ) ) ) ",
    ),
    (
        Case {
            term: r#"n{}(isResult{}(inj{SortBool{},Item{}}(\dv{SortBool{}}("true"))))"#,
            out: "stuck 0\nn{}(\\dv{SortBool{}}(\"true\"))\n",
            ..IS_RESULT_PROVED
        },
        "p |- ( \\imp ( \\app f:n ( \\app f:isResult ( \\app ( \\at ( \\at f:inj s:SortBool \
            ) s:Item ) d:SortBool:74727565 ) ) ) ( \\ev ( \\app f:n d:SortBool:74727565 ) ) ) ",
    ),
    (
        Case {
            term: r#"n{}(isResult{}(inj{Exp{},Item{}}(plus{}(
                inj{SortInt{},Exp{}}(\dv{SortInt{}}("1")),
                inj{SortInt{},Exp{}}(\dv{SortInt{}}("2"))))))"#,
            out: "stuck 0\nn{}(\\dv{SortBool{}}(\"false\"))\n",
            ..IS_RESULT_PROVED
        },
        "p |- ( \\imp ( \\app f:n ( \\app f:isResult ( \\app ( \\at ( \\at f:inj s:Exp ) \
            s:Item ) ( \\app ( \\app f:plus ( \\app ( \\at ( \\at f:inj s:SortInt ) s:Exp ) \
            d:SortInt:31 ) ) ( \\app ( \\at ( \\at f:inj s:SortInt ) s:Exp ) d:SortInt:32 ) ) ) \
            ) ) ( \\ev ( \\app f:n d:SortBool:66616c7365 ) ) ) ",
    ),
    (
        Case {
            term: r#"t{}(at{}(\dv{SortInt{}}("3"),pair{}(\dv{SortInt{}}("3"),\dv{SortInt{}}("7"),nil{}())))"#,
            out: "stuck 0\nt{}(\\dv{SortInt{}}(\"7\"))\n",
            ..LOOK_UP_PROVED
        },
        "p |- ( \\imp ( \\app f:t ( \\app ( \\app f:at d:SortInt:33 ) ( \\app ( \\app ( \
            \\app f:pair d:SortInt:33 ) d:SortInt:37 ) f:nil ) ) ) ( \\ev ( \\app f:t \
            d:SortInt:37 ) ) ) ",
    ),
    // two guards are denied, since the variable of both arguments would be two numbers
    (
        Case {
            term: r#"t{}(at{}(\dv{SortInt{}}("3"),
                pair{}(\dv{SortInt{}}("1"),\dv{SortInt{}}("5"),
                pair{}(\dv{SortInt{}}("2"),\dv{SortInt{}}("6"),
                pair{}(\dv{SortInt{}}("3"),\dv{SortInt{}}("7"),nil{}())))))"#,
            out: "stuck 0\nt{}(\\dv{SortInt{}}(\"7\"))\n",
            ..LOOK_UP_PROVED
        },
        "p |- ( \\imp ( \\app f:t ( \\app ( \\app f:at d:SortInt:33 ) ( \\app ( \\app ( \
            \\app f:pair d:SortInt:31 ) d:SortInt:35 ) ( \\app ( \\app ( \\app f:pair \
            d:SortInt:32 ) d:SortInt:36 ) ( \\app ( \\app ( \\app f:pair d:SortInt:33 ) \
            d:SortInt:37 ) f:nil ) ) ) ) ) ( \\ev ( \\app f:t d:SortInt:37 ) ) ) ",
    ),
    (
        Case {
            term: r#"t{}(sign{}(\dv{SortInt{}}("4")))"#,
            out: "stuck 0\nt{}(\\dv{SortInt{}}(\"1\"))\n",
            ..LOOK_UP_PROVED
        },
        "p |- ( \\imp ( \\app f:t ( \\app f:sign d:SortInt:34 ) ) ( \\ev ( \\app f:t \
            d:SortInt:31 ) ) ) ",
    ),
    // the condition is not true
    (
        Case {
            term: r#"t{}(sign{}(\dv{SortInt{}}("-4")))"#,
            out: "stuck 0\nt{}(\\dv{SortInt{}}(\"0\"))\n",
            ..LOOK_UP_PROVED
        },
        "p |- ( \\imp ( \\app f:t ( \\app f:sign d:SortInt:2d34 ) ) ( \\ev ( \\app f:t \
            d:SortInt:30 ) ) ) ",
    ),
];

/// An equation of the last resort is used if no other equation is, and not read if a guard repeats
/// none of them.
#[test]
fn the_last_resort_is_used_last(rt: HostRuntime) -> Result<(), Fail> {
    assert_eq!(rt; first_failing(rt.alloc(), &RUNS)?, None);
    Ok(())
}

/// The proof of such a run is valid, and its last theorem states the run.
#[test]
fn a_run_with_the_last_resort_leaves_its_proof(rt: HostRuntime) -> Result<(), Fail> {
    assert_eq!(rt; first_unproved(rt.alloc(), &PROOFS)?, None);
    Ok(())
}
