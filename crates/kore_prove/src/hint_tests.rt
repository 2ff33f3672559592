// Hints that a run writes, and paths that are proved from hints.
use crate::check_tests::is_justified;
use crate::test_calls::{BASE, Case, Faults, Left, call, call_with, first_failing};
use crate::test_definitions::*;
use std::alloc::{AllocError, Global};
use std::test::Fail;

/// A definition with one rule, whose axiom is at byte 98.
const ONE_RULE: &str = "[] module M sort S{} [] symbol a{}() : S{} [constructor{}()] \
    symbol b{}() : S{} [constructor{}()] axiom{} \\rewrites{S{}}(a{}(),b{}()) [] endmodule []";

/// Functions of one call each, in the right sides of the rules at bytes 283 and 322.
const COUNTED: &str = r#"[] module M sort S{} [] symbol a{}() : S{} [constructor{}()]
symbol b{}() : S{} [constructor{}()] symbol c{}() : S{} [constructor{}()]
symbol f{}() : S{} [function{}()] symbol g{}() : S{} [function{}()]
axiom{R} \equals{S{},R}(f{}(),b{}()) [] axiom{R} \equals{S{},R}(g{}(),c{}()) []
axiom{} \rewrites{S{}}(a{}(),f{}()) []
axiom{} \rewrites{S{}}(b{}(),g{}()) []
endmodule []
"#;

/// A run of one step whose hints go to `h`.
const HINTS: Case<'static> = Case {
    words: &["run", "d.kore", "t.kore", "--limit=10", "--hints=h"],
    definition: ONE_RULE,
    out: "stuck 1\nb{}()\n",
    ..BASE
};

/// The proof of that step, from hints in `t.kore`, goes to `p.mm`.
const PROVES_PATH: Case<'static> = Case {
    words: &["prove", "d.kore", "t.kore", "--proof", "p.mm"],
    definition: ONE_RULE,
    term: "kore-hints 1\na{}()\n98 b{}()\n",
    out: "proved 1\nb{}()\n",
    ..BASE
};

/// Hints that are refused, and nothing is printed.
const REFUSED: Case<'static> = Case {
    code: 14,
    out: "",
    ..PROVES_PATH
};

const NO_FAULTS: Faults<'static> = Faults {
    most: 65_536,
    desk: &[],
    out: &[],
    err: &[],
};

/// Runs and the hints that they write.
static WRITTEN: [(Case<'static>, &str); 6] = [
    (HINTS, "kore-hints 1\na{}()\n98 b{}()\n"),
    (
        Case {
            words: &[
                "run",
                "d.kore",
                "t.kore",
                "--limit=5",
                "--hints=h",
                "--proof=p.mm",
            ],
            definition: TWO_STEPS,
            out: "stuck 2\nc{}()\n",
            ..BASE
        },
        "kore-hints 1\na{}()\n135 b{}()\n220 c{}()\n",
    ),
    (
        Case {
            words: &["run", "d.kore", "t.kore", "--limit=0", "--hints=h"],
            code: 10,
            out: "limit 0\na{}()\n",
            ..BASE
        },
        "kore-hints 1\na{}()\n",
    ),
    (
        Case {
            definition: BY_PRIORITY,
            out: "stuck 1\nc{}()\n",
            ..HINTS
        },
        "kore-hints 1\na{}()\n220 c{}()\n",
    ),
    (
        Case {
            definition: NO_EQUATION,
            term: " n{}( loop{}())",
            code: 11,
            out: "blocked 0 NoEquation loop\nn{}(loop{}())\n",
            ..HINTS
        },
        "kore-hints 1\nn{}(loop{}())\n",
    ),
    (
        Case {
            definition: COUNTED,
            term: "f{}()",
            out: "stuck 1\nc{}()\n",
            ..HINTS
        },
        "kore-hints 1\nf{}()\n322 c{}()\n",
    ),
];

/// The file holds the hints of the run, whether it is proved or not.
#[test]
fn a_run_writes_its_hints(rt: HostRuntime) -> Result<(), Fail> {
    for (case, hints) in &WRITTEN {
        let (desk, holds) = call(rt.alloc(), case)?;
        assert!(rt; holds, "{}", case.out);
        assert!(rt; desk.file("h") == Some(hints.as_bytes()), "{hints}");
    }
    Ok(())
}

/// Paths, each with its lines. The rule that is named need not be the first that applies.
static PATHS: [Case<'static>; 6] = [
    PROVES_PATH,
    Case {
        term: "kore-hints 1\n a{}( )\n",
        out: "proved 0\na{}()\n",
        ..PROVES_PATH
    },
    Case {
        term: "kore-hints 1\na{}()\n0000000098 b{}()\n",
        ..PROVES_PATH
    },
    Case {
        definition: IN_FILE_ORDER,
        term: "kore-hints 1\na{}()\n220 c{}()\n",
        out: "proved 1\nc{}()\n",
        ..PROVES_PATH
    },
    Case {
        definition: BLOCKED_CONDITION,
        term: "kore-hints 1\nt{}(\\dv{SortInt{}}(\"3\"))\n1167 v{}(\\dv{SortInt{}}(\"3\"))\n",
        out: "proved 1\nv{}(\\dv{SortInt{}}(\"3\"))\n",
        ..PROVES_PATH
    },
    Case {
        words: &[
            "prove", "d.kore", "t.kore", "--proof", "p.mm", "--calls", "2",
        ],
        definition: COUNTED,
        term: "kore-hints 1\na{}()\n283 b{}()\n322 c{}()\n",
        out: "proved 2\nc{}()\n",
        ..PROVES_PATH
    },
];

/// Each path is printed, and its proof justifies it over the definition.
#[test]
fn a_path_is_proved(rt: HostRuntime) -> Result<(), Fail> {
    for case in &PATHS {
        let (desk, holds) = call(rt.alloc(), case)?;
        assert!(rt; holds, "{}", case.out);
        let proof = desk.file("p.mm").unwrap_or_default();
        assert!(rt;
            is_justified(rt.alloc(), case.definition, proof)?,
            "{}",
            case.out
        );
    }
    Ok(())
}

/// Lines that are bad because of their form.
static FORMS: [Case<'static>; 10] = [
    Case {
        term: "",
        err: "kore_prove: hints refused 1 at line 1\n",
        ..REFUSED
    },
    Case {
        term: "kore-hints 1",
        err: "kore_prove: hints refused 1 at line 1\n",
        ..REFUSED
    },
    Case {
        term: "kore-hints 2\na{}()\n",
        err: "kore_prove: hints refused 1 at line 1\n",
        ..REFUSED
    },
    Case {
        term: "kore-hints 1\n",
        err: "kore_prove: hints refused 1 at line 2\n",
        ..REFUSED
    },
    Case {
        term: "kore-hints 1\na{}()",
        err: "kore_prove: hints refused 1 at line 2\n",
        ..REFUSED
    },
    Case {
        term: "kore-hints 1\nx{}()\n98 b{}()\n",
        err: "kore_prove: hints refused 1 at line 2\n",
        ..REFUSED
    },
    Case {
        term: "kore-hints 1\na{}()\n98 b{}()",
        err: "kore_prove: hints refused 1 at line 3\n",
        ..REFUSED
    },
    Case {
        term: "kore-hints 1\na{}()\n98\n",
        err: "kore_prove: hints refused 1 at line 3\n",
        ..REFUSED
    },
    Case {
        term: "kore-hints 1\na{}()\n00000000098 b{}()\n",
        err: "kore_prove: hints refused 1 at line 3\n",
        ..REFUSED
    },
    Case {
        term: "kore-hints 1\na{}()\n98 b{}()\n\n",
        err: "kore_prove: hints refused 1 at line 4\n",
        ..REFUSED
    },
];

/// Lines that are bad because of the step that they name. The first bad line is told.
static STEPS: [Case<'static>; 10] = [
    Case {
        term: "kore-hints 1\na{}()\n97 b{}()\n",
        err: "kore_prove: hints refused 2 at line 3\n",
        ..REFUSED
    },
    Case {
        term: "kore-hints 1\na{}()\n98 b{}()\n98 b{}()\n97 b{}()\n",
        err: "kore_prove: hints refused 3 at line 4\n",
        ..REFUSED
    },
    Case {
        definition: GUARDED_RULES,
        term: "kore-hints 1\nt{}(\\dv{SortInt{}}(\"3\"))\n954 u{}(\\dv{SortInt{}}(\"3\"))\n",
        err: "kore_prove: hints refused 3 at line 3\n",
        ..REFUSED
    },
    Case {
        definition: NO_EQUATION,
        term: "kore-hints 1\nn{}(loop{}())\n",
        err: "kore_prove: hints refused 4 at line 2\n",
        ..REFUSED
    },
    Case {
        definition: BLOCKED_CONDITION,
        term: "kore-hints 1\nt{}(\\dv{SortInt{}}(\"0\"))\n954 u{}(\\dv{SortInt{}}(\"0\"))\n",
        err: "kore_prove: hints refused 4 at line 3\n",
        ..REFUSED
    },
    Case {
        words: &[
            "prove", "d.kore", "t.kore", "--proof", "p.mm", "--calls", "1",
        ],
        definition: COUNTED,
        term: "kore-hints 1\na{}()\n283 b{}()\n322 c{}()\n",
        err: "kore_prove: hints refused 4 at line 4\n",
        ..REFUSED
    },
    Case {
        words: &[
            "prove", "d.kore", "t.kore", "--proof", "p.mm", "--calls", "0",
        ],
        definition: COUNTED,
        term: "kore-hints 1\na{}()\n283 b{}()\n322 c{}()\n",
        err: "kore_prove: hints refused 4 at line 3\n",
        ..REFUSED
    },
    Case {
        term: "kore-hints 1\na{}()\n98 a{}()\n",
        err: "kore_prove: hints refused 5 at line 3\n",
        ..REFUSED
    },
    Case {
        term: "kore-hints 1\na{}()\n98 b{}() \n",
        err: "kore_prove: hints refused 5 at line 3\n",
        ..REFUSED
    },
    Case {
        definition: COUNTED,
        term: "kore-hints 1\na{}()\n283 f{}()\n",
        err: "kore_prove: hints refused 5 at line 3\n",
        ..REFUSED
    },
];

/// With a bad line no file is created.
#[test]
fn the_first_bad_line_is_told(rt: HostRuntime) -> Result<(), Fail> {
    for case in FORMS.iter().chain(&STEPS) {
        let (desk, holds) = call(rt.alloc(), case)?;
        assert!(rt; holds, "{}", case.term);
        assert!(rt; desk.file("p.mm").is_none(), "{}", case.term);
    }
    Ok(())
}

/// Words and files that are refused before the hints are checked, and output that fails.
static OTHERWISE: [Case<'static>; 6] = [
    Case {
        words: &[
            "run",
            "d.kore",
            "t.kore",
            "--limit=5",
            "--hints=h",
            "--proof",
            "h",
        ],
        code: 2,
        err: "kore_prove: bad words\n",
        ..BASE
    },
    Case {
        words: &["prove", "d.kore", "t.kore"],
        code: 2,
        err: "kore_prove: bad words\n",
        ..BASE
    },
    Case {
        words: &["prove", "d.kore", "x", "--proof", "p.mm"],
        code: 5,
        out: "",
        err: "kore_prove: no such file x\n",
        ..PROVES_PATH
    },
    Case {
        words: &["prove", "t.kore", "d.kore", "--proof", "p.mm"],
        code: 6,
        out: "",
        err: "kore_prove: definition refused 2 at 0\n",
        ..PROVES_PATH
    },
    Case {
        out_fails: &[1],
        code: 4,
        out: "prove",
        err: "kore_prove: write fault\n",
        ..PROVES_PATH
    },
    Case {
        out_fails: &[1],
        code: 4,
        out: "stuck",
        err: "kore_prove: write fault\n",
        ..HINTS
    },
];

#[test]
fn other_ends_are_those_of_a_run(rt: HostRuntime) -> Result<(), Fail> {
    assert_eq!(rt; first_failing(rt.alloc(), &OTHERWISE)?, None);
    Ok(())
}

/// The calls of the desk before a file is created: two files are opened, read and ended.
const READS: u64 = 6;

/// A call of the desk that fails before a file is created ends as a read fault, and leaves none.
/// From that call on it ends as a write fault, and each file holds the front of what it was to
/// hold.
#[test]
fn each_call_of_the_desk_fails_in_turn(rt: HostRuntime) -> Result<(), Fail> {
    for case in [&WRITTEN[1].0, &PROVES_PATH] {
        assert!(rt; leaves_fronts(rt.alloc(), case)?, "{}", case.out);
    }
    Ok(())
}

/// Whether each call of the desk fails as it should, until no call is left to fail.
fn leaves_fronts(alloc: Global, case: &Case<'_>) -> Result<bool, AllocError> {
    let whole = call_with(alloc, case, NO_FAULTS)?;
    for number in 0..20 {
        let left = failing_desk(alloc, case, number)?;
        if left.code == 0 {
            return Ok(number > READS + 3 && has_fronts(&left, &whole));
        }
        let code = if number < READS { 3 } else { 4 };
        if left.code != code || !left.out.bytes().is_empty() || !has_fronts(&left, &whole) {
            return Ok(false);
        }
    }
    Ok(false)
}

/// What the call leaves if the call of the desk with this number fails.
fn failing_desk(alloc: Global, case: &Case<'_>, number: u64) -> Result<Left, AllocError> {
    let faults = Faults {
        desk: &[number],
        ..NO_FAULTS
    };
    call_with(alloc, case, faults)
}

/// Whether each file that was created holds a front of what the undisturbed call writes there.
fn has_fronts(left: &Left, whole: &Left) -> bool {
    ["h", "p.mm"].into_iter().all(|name| {
        let all = whole.desk.file(name).unwrap_or_default();
        left.desk
            .file(name)
            .is_none_or(|bytes| all.starts_with(bytes))
    })
}
