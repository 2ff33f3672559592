// Proofs that a stuck run is stuck.
use crate::check_tests::is_justified;
use crate::test_calls::{BASE, Case, call, first_failing};
use crate::test_definitions::*;
use mm_verify::verify;
use std::alloc::{AllocError, Global};
use std::test::Fail;

/// A run whose proof shows that it is stuck.
const STUCK: Case<'static> = Case {
    words: &[
        "run",
        "d.kore",
        "t.kore",
        "--limit=5",
        "--proof=p.mm",
        "--stuck",
    ],
    ..BASE
};

/// A constructor with a unit.
const WITH_UNIT: &str = r#"[] module M sort S{} [] symbol a{}() : S{} [constructor{}()]
symbol b{}() : S{} [constructor{}()] symbol m{}(S{},S{}) : S{} [constructor{}(),unit{}(a{}())]
axiom{} \rewrites{S{}}(a{}(),b{}()) [] endmodule []"#;

/// No rule at all.
const NO_RULE: &str = "[] module M sort S{} [] symbol a{}() : S{} [constructor{}()] endmodule []";

/// The condition of the rule calls a function that has an equation of the last resort.
const ASKS_OTHERWISE: &str = r#"[] module M hooked-sort Bool{} [hook{}("BOOL.Bool")] sort S{} []
sort T{} [] symbol a{}() : S{} [constructor{}()] symbol b{}() : S{} [constructor{}()]
symbol t{}(S{}) : T{} [constructor{}()] symbol isA{}(S{}) : Bool{} [function{}()]
axiom{R} \implies{R}(\and{R}(\top{R}(),\and{R}(\in{S{},R}(X0:S{},a{}()),\top{R}())),
  \equals{Bool{},R}(isA{}(X0:S{}),\and{Bool{}}(\dv{Bool{}}("true"),\top{Bool{}}()))) []
axiom{R} \implies{R}(\and{R}(\not{R}(\or{R}(\and{R}(\top{R}(),
  \and{R}(\in{S{},R}(X0:S{},a{}()),\top{R}())),\bottom{R}())),
  \and{R}(\top{R}(),\and{R}(\in{S{},R}(X0:S{},G:S{}),\top{R}()))),
  \equals{Bool{},R}(isA{}(X0:S{}),\and{Bool{}}(\dv{Bool{}}("false"),\top{Bool{}}()))) [owise{}()]
axiom{} \rewrites{T{}}(\and{T{}}(t{}(X:S{}),\equals{Bool{},T{}}(isA{}(X:S{}),\dv{Bool{}}("true"))),
  \and{T{}}(t{}(b{}()),\top{T{}}())) [] endmodule []"#;

/// Stuck runs, and what the proof of each states of the rules, in the order of trial.
static SHOWN: [(Case<'static>, &[&str]); 7] = [
    (
        Case {
            definition: SAME_PAIR,
            term: "pair{}(p{}(),q{}())",
            out: "stuck 0\npair{}(p{}(),q{}())\nshown 1\n",
            ..STUCK
        },
        &[
            "p |- ( \\not ( \\ex x:0 s:S ( \\and ( \\and ( \\app ( \\app f:pair f:p ) f:q ) \
             ( \\app ( \\app f:pair x:0 ) x:0 ) ) \\top ) ) ) ",
        ],
    ),
    (
        Case {
            definition: TWO_STEPS,
            out: "stuck 2\nc{}()\nshown 2\n",
            ..STUCK
        },
        &[
            "p |- ( \\not ( \\and ( \\and f:c f:a ) \\top ) ) ",
            "p |- ( \\not ( \\and ( \\and f:c f:b ) \\top ) ) ",
        ],
    ),
    (
        Case {
            definition: BY_PRIORITY,
            term: "b{}()",
            out: "stuck 0\nb{}()\nshown 2\n",
            ..STUCK
        },
        &[
            "p |- ( \\not ( \\and ( \\and f:b f:a ) \\top ) ) ",
            "p |- ( \\not ( \\and ( \\and f:b f:a ) \\top ) ) ",
        ],
    ),
    (
        Case {
            definition: GUARDED_RULES,
            term: "t{}(\\dv{SortInt{}}(\"10\"))",
            out: "stuck 0\nt{}(\\dv{SortInt{}}(\"10\"))\nshown 2\n",
            ..STUCK
        },
        &[
            "p |- ( \\not ( \\ex x:0 s:SortInt ( \\and ( \\and ( \\app f:t d:SortInt:3130 ) \
             ( \\app f:t x:0 ) ) ( \\eq ( \\app ( \\app f:gt x:0 ) d:SortInt:3130 ) \
             d:SortBool:74727565 ) ) ) ) ",
            "p |- ( \\not ( \\ex x:0 s:SortInt ( \\and ( \\and ( \\app f:t d:SortInt:3130 ) \
             ( \\app f:t x:0 ) ) ( \\eq ( \\app ( \\app f:gt d:SortInt:3130 ) x:0 ) \
             d:SortBool:74727565 ) ) ) ) ",
        ],
    ),
    (
        Case {
            definition: NAMED_PART,
            term: "g{}(p{}())",
            out: "stuck 0\ng{}(p{}())\nshown 1\n",
            ..STUCK
        },
        &[
            "p |- ( \\not ( \\ex x:0 s:S ( \\ex x:1 s:S ( \\and ( \\and ( \\app f:g f:p ) \
             ( \\app f:g ( \\and ( \\app f:f x:0 ) x:1 ) ) ) \\top ) ) ) ) ",
        ],
    ),
    (
        Case {
            definition: ASKS_OTHERWISE,
            term: "t{}(b{}())",
            out: "stuck 0\nt{}(b{}())\nshown 1\n",
            ..STUCK
        },
        &[
            "p |- ( \\not ( \\ex x:0 s:S ( \\and ( \\and ( \\app f:t f:b ) ( \\app f:t x:0 ) ) \
             ( \\eq ( \\app f:isA x:0 ) d:Bool:74727565 ) ) ) ) ",
        ],
    ),
    (
        Case {
            definition: NO_RULE,
            out: "stuck 0\na{}()\nshown 0\n",
            ..STUCK
        },
        &[],
    ),
];

/// The proof of a stuck run states, and proves, of each rule that the last configuration does not
/// meet it. It is a proof of the run as before.
#[test]
fn a_stuck_run_is_shown_stuck(rt: HostRuntime) -> Result<(), Fail> {
    for (case, statements) in &SHOWN {
        assert!(rt; shows(rt.alloc(), case, statements)?, "{}", case.out);
    }
    Ok(())
}

/// Whether the run prints its lines, and its proof is valid, justified, and states this.
fn shows(alloc: Global, case: &Case<'_>, statements: &[&str]) -> Result<bool, AllocError> {
    let (desk, holds) = call(alloc, case)?;
    let database = desk.file("p.mm").unwrap_or_default();
    if !holds || !states(database, statements) || verify(alloc, database).is_err() {
        return Ok(false);
    }
    is_justified(alloc, case.definition, database)
}

/// Whether these are what the `$p` statements before the last one state, from the last one back.
/// Each piece between two `$` begins with the letter of its keyword.
fn states(database: &[u8], statements: &[&str]) -> bool {
    let Ok(text) = str::from_utf8(database) else {
        return false;
    };
    let mut expected = statements.iter().rev();
    let mut is_last = true;
    for piece in text.rsplit('$') {
        if piece.as_bytes().first() != Some(&b'p') {
            continue;
        }
        if is_last {
            is_last = false;
            continue;
        }
        match expected.next() {
            Some(statement) => {
                if piece != *statement {
                    return false;
                }
            }
            None => return true,
        }
    }
    expected.next().is_none()
}

/// Runs of which nothing is shown, and words that are bad.
static NOT_SHOWN: [Case<'static>; 5] = [
    Case {
        words: &[
            "run",
            "d.kore",
            "t.kore",
            "--limit=2",
            "--proof=p.mm",
            "--stuck",
        ],
        code: 10,
        out: "limit 2\nc{}()\nshown none\n",
        ..STUCK
    },
    Case {
        definition: BLOCKED_CONDITION,
        term: "t{}(\\dv{SortInt{}}(\"0\"))",
        code: 11,
        out: "blocked 0 NoValue INT.tdiv\nt{}(\\dv{SortInt{}}(\"0\"))\nshown none\n",
        ..STUCK
    },
    Case {
        definition: NO_EQUATION,
        term: "n{}(loop{}())",
        code: 11,
        out: "blocked 0 NoEquation loop\nn{}(loop{}())\nshown none\n",
        ..STUCK
    },
    Case {
        definition: WITH_UNIT,
        out: "stuck 1\nb{}()\nshown none\n",
        ..STUCK
    },
    Case {
        words: &["run", "d.kore", "t.kore", "--limit=5", "--stuck"],
        code: 2,
        err: "kore_prove: bad words\n",
        ..STUCK
    },
];

#[test]
fn nothing_else_is_shown(rt: HostRuntime) -> Result<(), Fail> {
    let failing = first_failing(rt.alloc(), &NOT_SHOWN)?;
    assert_eq!(rt; failing, None);
    Ok(())
}
