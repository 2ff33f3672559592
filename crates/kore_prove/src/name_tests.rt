// Runs of definitions whose left sides have names of parts.
use crate::proof_tests::first_unproved;
use crate::test_calls::{BASE, Case, PROVES, first_failing};
use crate::test_definitions::{NAMED_ARGUMENTS, NAMED_PART, NESTED_NAMES};
use std::test::Fail;

const NAMED: Case<'static> = Case {
    definition: NAMED_PART,
    term: "g{}(f{}(p{}()))",
    out: "stuck 1\nh{}(p{}(),f{}(p{}()))\n",
    ..BASE
};

const ARGUMENTS: Case<'static> = Case {
    definition: NAMED_ARGUMENTS,
    ..BASE
};

/// Runs, and what they print.
static RUNS: [Case<'static>; 4] = [
    NAMED,
    Case {
        term: "g{}(p{}())",
        out: "stuck 0\ng{}(p{}())\n",
        ..NAMED
    },
    Case {
        term: "t{}(tail{}(cons{}(\\dv{SortInt{}}(\"2\"),cons{}(\\dv{SortInt{}}(\"5\"),nil{}())),\
            \\dv{SortInt{}}(\"1\")))",
        out: "stuck 0\nt{}(cons{}(\\dv{SortInt{}}(\"5\"),cons{}(\\dv{SortInt{}}(\"5\"),nil{}(\
            ))))\n",
        ..ARGUMENTS
    },
    Case {
        term: "t{}(tail{}(cons{}(\\dv{SortInt{}}(\"2\"),cons{}(\\dv{SortInt{}}(\"5\"),nil{}())),\
            \\dv{SortInt{}}(\"2\")))",
        out: "stuck 0\nt{}(cons{}(\\dv{SortInt{}}(\"2\"),cons{}(\\dv{SortInt{}}(\"5\"),nil{}(\
            ))))\n",
        ..ARGUMENTS
    },
];

/// Runs that are proved, and what the last theorem of each states.
static PROOFS: [(Case<'static>, &str); 5] = [
    (
        Case {
            definition: NAMED_PART,
            term: "g{}(f{}(p{}()))",
            out: "stuck 1\nh{}(p{}(),f{}(p{}()))\n",
            ..PROVES
        },
        "p |- ( \\imp ( \\app f:g ( \\app f:f f:p ) ) \
         ( \\ev ( \\app ( \\app f:h f:p ) ( \\app f:f f:p ) ) ) ) ",
    ),
    (
        Case {
            definition: NAMED_PART,
            term: "g{}(p{}())",
            out: "stuck 0\ng{}(p{}())\n",
            ..PROVES
        },
        "p |- ( \\imp ( \\app f:g f:p ) ( \\ev ( \\app f:g f:p ) ) ) ",
    ),
    (
        Case {
            definition: NESTED_NAMES,
            term: "in{}(inj{A{},B{}}(s{}(s{}(a{}()))),inj{A{},B{}}(a{}()))",
            out: "stuck 1\nout{}(s{}(s{}(a{}())),s{}(a{}()),s{}(a{}()),inj{A{},B{}}(a{}()),\
                inj{A{},B{}}(a{}()))\n",
            ..PROVES
        },
        "p |- ( \\imp ( \\app ( \\app f:in ( \\app ( \\at ( \\at f:inj s:A ) s:B ) ( \\app f:s ( \
            \\app f:s f:a ) ) ) ) \
         ( \\app ( \\at ( \\at f:inj s:A ) s:B ) f:a ) ) ( \\ev ( \\app ( \\app ( \\app ( \\app \
         ( \\app f:out ( \\app f:s ( \\app f:s f:a ) ) ) \
         ( \\app f:s f:a ) ) ( \\app f:s f:a ) ) ( \\app ( \\at ( \\at f:inj s:A ) s:B ) f:a ) ) ( \
            \\app ( \\at ( \\at f:inj s:A ) s:B ) f:a ) ) ) ) ",
    ),
    (
        Case {
            definition: NAMED_ARGUMENTS,
            term: r#"t{}(twice{}(cons{}(\dv{SortInt{}}("2"),nil{}())))"#,
            out: "stuck 0\nt{}(cons{}(\\dv{SortInt{}}(\"2\"),cons{}(\\dv{SortInt{}}(\"2\"),nil{}(\
                ))))\n",
            ..PROVES
        },
        "p |- ( \\imp ( \\app f:t ( \\app f:twice ( \\app ( \\app f:cons d:SortInt:32 ) f:nil ) ) \
            ) \
         ( \\ev ( \\app f:t ( \\app ( \\app f:cons d:SortInt:32 ) ( \\app ( \\app f:cons \
             d:SortInt:32 ) f:nil ) ) ) ) ) ",
    ),
    (
        Case {
            definition: NAMED_ARGUMENTS,
            term: "t{}(tail{}(cons{}(\\dv{SortInt{}}(\"2\"),cons{}(\\dv{SortInt{}}(\"5\"),nil{}(\
                ))),\\dv{SortInt{}}(\"1\")))",
            out: "stuck 0\nt{}(cons{}(\\dv{SortInt{}}(\"5\"),cons{}(\\dv{SortInt{}}(\"5\"),nil{}(\
                ))))\n",
            ..PROVES
        },
        "p |- ( \\imp ( \\app f:t ( \\app ( \\app f:tail ( \\app ( \\app f:cons d:SortInt:32 ) ( \
            \\app ( \\app f:cons d:SortInt:35 ) f:nil ) ) ) d:SortInt:31 ) ) \
         ( \\ev ( \\app f:t ( \\app ( \\app f:cons d:SortInt:35 ) ( \\app ( \\app f:cons \
             d:SortInt:35 ) f:nil ) ) ) ) ) ",
    ),
];

/// A name stands for what its part matches, in rules and in equations.
#[test]
fn names_stand_for_what_their_parts_match(rt: HostRuntime) -> Result<(), Fail> {
    assert_eq!(rt; first_failing(rt.alloc(), &RUNS)?, None);
    Ok(())
}

/// The proof of such a run is valid, and its last theorem states the run.
#[test]
fn a_run_with_names_leaves_its_proof(rt: HostRuntime) -> Result<(), Fail> {
    assert_eq!(rt; first_unproved(rt.alloc(), &PROOFS)?, None);
    Ok(())
}
