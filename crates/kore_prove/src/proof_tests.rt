// Runs that write their proofs.
use crate::check_tests::is_justified;
use crate::height_tests::nested;
use crate::test_calls::{BASE, Case, PROVES, call};
use crate::test_definitions::*;
use mm_verify::verify;
use std::alloc::{AllocError, Global};
use std::test::Fail;

/// Runs that are proved, and what the last theorem of each states.
static CONSTRUCTED: [(Case<'static>, &str); 7] = [
    (PROVES, "p |- ( \\imp f:a ( \\ev f:c ) ) "),
    (
        Case {
            words: &["run", "d.kore", "t.kore", "--limit=1", "--proof=p.mm"],
            code: 10,
            out: "limit 1\nb{}()\n",
            ..BASE
        },
        "p |- ( \\imp f:a ( \\ev f:b ) ) ",
    ),
    (
        Case {
            words: &["run", "d.kore", "t.kore", "--limit=0", "--proof=p.mm"],
            code: 10,
            out: "limit 0\na{}()\n",
            ..BASE
        },
        "p |- ( \\imp f:a ( \\ev f:a ) ) ",
    ),
    (
        Case {
            definition: SAME_PAIR,
            term: "pair{}(p{}(),p{}())",
            out: "stuck 1\nok{}()\n",
            ..PROVES
        },
        "p |- ( \\imp ( \\app ( \\app f:pair f:p ) f:p ) ( \\ev f:ok ) ) ",
    ),
    (
        Case {
            definition: TWO_LISTS,
            term: "both{}(cons{}(p{}(),cons{}(q{}(),nil{}())),nil{}())",
            out: "stuck 3\ndone{}(cons{}(q{}(),cons{}(p{}(),nil{}())))\n",
            ..PROVES
        },
        "p |- ( \\imp ( \\app ( \\app f:both ( \\app ( \\app f:cons f:p ) ( \\app ( \\app f:cons \
            f:q ) f:nil ) ) ) \
         f:nil ) ( \\ev ( \\app f:done ( \\app ( \\app f:cons f:q ) ( \\app ( \\app f:cons f:p ) \
         f:nil ) ) ) ) ) ",
    ),
    (
        Case {
            definition: NESTED_INJECTIONS,
            term: r#"k{}(inj{SortInt{},SortKItem{}}(\dv{SortInt{}}("5")))"#,
            out: "stuck 1\ndone{}(inj{SortInt{},SortStmt{}}(\\dv{SortInt{}}(\"5\")))\n",
            ..PROVES
        },
        "p |- ( \\imp ( \\app f:k ( \\app ( \\at ( \\at f:inj s:SortInt ) s:SortKItem ) \
            d:SortInt:35 ) ) ( \\ev ( \
         \\app f:done ( \\app ( \\at ( \\at f:inj s:SortInt ) s:SortStmt ) d:SortInt:35 ) ) ) ) ",
    ),
    (
        Case {
            definition: MEETING_INJECTIONS,
            term: "pair{}(inj{B{},C{}}(inj{A{},B{}}(a{}())),inj{A{},B{}}(a{}()))",
            out: "stuck 2\nout{}(inj{A{},D{}}(a{}()),inj{A{},D{}}(a{}()))\n",
            ..PROVES
        },
        "p |- ( \\imp ( \\app ( \\app f:pair ( \\app ( \\at ( \\at f:inj s:B ) s:C ) ( \\app ( \
            \\at ( \\at f:inj s:A ) \
         s:B ) f:a ) ) ) ( \\app ( \\at ( \\at f:inj s:A ) s:B ) f:a ) ) ( \\ev ( \\app ( \\app \
         f:out ( \\app ( \
         \\at ( \\at f:inj s:A ) s:D ) f:a ) ) ( \\app ( \\at ( \\at f:inj s:A ) s:D ) f:a ) ) ) \
         ) ",
    ),
];

/// Runs whose values are computed by hooks and equations, and what the last theorem of each states.
static COMPUTED: [(Case<'static>, &str); 9] = [
    (
        Case {
            definition: INTEGER_FUNCTIONS,
            term: r#"n{}(tdiv{}(\dv{SortInt{}}("7"),\dv{SortInt{}}("2")))"#,
            out: "stuck 0\nn{}(\\dv{SortInt{}}(\"3\"))\n",
            ..PROVES
        },
        "p |- ( \\imp ( \\app f:n ( \\app ( \\app f:tdiv d:SortInt:37 ) d:SortInt:32 ) ) ( \\ev ( \
            \\app f:n \
         d:SortInt:33 ) ) ) ",
    ),
    (
        Case {
            definition: INTEGER_FUNCTIONS,
            term: r#"n{}(tdiv{}(\dv{SortInt{}}("7"),\dv{SortInt{}}("0")))"#,
            code: 11,
            out: "blocked 0 NoValue INT.tdiv\nn{}(tdiv{}(\\dv{SortInt{}}(\"7\"),\
                \\dv{SortInt{}}(\"0\")))\n",
            ..PROVES
        },
        "p |- ( \\imp ( \\app f:n ( \\app ( \\app f:tdiv d:SortInt:37 ) d:SortInt:30 ) ) ( \\ev ( \
            \\app f:n ( \
         \\app ( \\app f:tdiv d:SortInt:37 ) d:SortInt:30 ) ) ) ) ",
    ),
    (
        Case {
            definition: GUARDED_RULES,
            term: r#"t{}(\dv{SortInt{}}("3"))"#,
            out: "stuck 1\nv{}(\\dv{SortInt{}}(\"3\"))\n",
            ..PROVES
        },
        "p |- ( \\imp ( \\app f:t d:SortInt:33 ) ( \\ev ( \\app f:v d:SortInt:33 ) ) ) ",
    ),
    (
        Case {
            definition: BLOCKED_CONDITION,
            term: r#"t{}(\dv{SortInt{}}("0"))"#,
            code: 11,
            out: "blocked 0 NoValue INT.tdiv\nt{}(\\dv{SortInt{}}(\"0\"))\n",
            ..PROVES
        },
        "p |- ( \\imp ( \\app f:t d:SortInt:30 ) ( \\ev ( \\app f:t d:SortInt:30 ) ) ) ",
    ),
    (
        Case {
            definition: COUNTING_DOWN,
            term: r#"t{}(\dv{SortInt{}}("2"))"#,
            out: "stuck 2\nt{}(\\dv{SortInt{}}(\"0\"))\n",
            ..PROVES
        },
        "p |- ( \\imp ( \\app f:t d:SortInt:32 ) ( \\ev ( \\app f:t d:SortInt:30 ) ) ) ",
    ),
    (
        Case {
            definition: COUNTING_DOWN,
            term: r#"t{}(\dv{SortInt{}}("7"))"#,
            code: 10,
            out: "limit 5\nt{}(\\dv{SortInt{}}(\"2\"))\n",
            ..PROVES
        },
        "p |- ( \\imp ( \\app f:t d:SortInt:37 ) ( \\ev ( \\app f:t d:SortInt:32 ) ) ) ",
    ),
    (
        Case {
            definition: APPEND_LIST,
            term: "k{}(append{}(kseq{}(p{}(),kseq{}(p{}(),kseq{}(q{}(),dotk{}()))),dotk{}()))",
            out: "stuck 0\nk{}(kseq{}(p{}(),kseq{}(p{}(),kseq{}(q{}(),dotk{}()))))\n",
            ..PROVES
        },
        "p |- ( \\imp ( \\app f:k ( \\app ( \\app f:append ( \\app ( \\app f:kseq f:p ) ( \\app ( \
            \\app f:kseq f:p ) ( \
         \\app ( \\app f:kseq f:q ) f:dotk ) ) ) ) f:dotk ) ) ( \\ev ( \\app f:k ( \\app ( \\app \
         f:kseq f:p ) ( \
         \\app ( \\app f:kseq f:p ) ( \\app ( \\app f:kseq f:q ) f:dotk ) ) ) ) ) ) ",
    ),
    (
        Case {
            definition: APPENDED_LISTS,
            term: "both{}(cons{}(p{}(),nil{}()),cons{}(q{}(),nil{}()))",
            out: "stuck 1\ndone{}(cons{}(p{}(),cons{}(q{}(),nil{}())))\n",
            ..PROVES
        },
        "p |- ( \\imp ( \\app ( \\app f:both ( \\app ( \\app f:cons f:p ) f:nil ) ) ( \\app ( \
            \\app f:cons f:q ) \
         f:nil ) ) ( \\ev ( \\app f:done ( \\app ( \\app f:cons f:p ) ( \\app ( \\app f:cons f:q ) \
         f:nil ) ) ) ) ) ",
    ),
    (
        Case {
            definition: ADDITION,
            term: "Lbl'-LT-'k'-GT-'{}(kseq{}(inj{SortExp{},\
                SortKItem{}}(Lbl'UndsPlusUnds'{}(inj{SortInt{},\
                SortExp{}}(\\dv{SortInt{}}(\"2\")),inj{SortInt{},\
                SortExp{}}(\\dv{SortInt{}}(\"3\")))),dotk{}()))",
            out: "stuck 1\nLbl'-LT-'k'-GT-'{}(kseq{}(inj{SortInt{},\
                SortKItem{}}(\\dv{SortInt{}}(\"5\")),dotk{}()))\n",
            ..PROVES
        },
        "p |- ( \\imp ( \\app f:Lbl'-LT-'k'-GT-' ( \\app ( \\app f:kseq ( \\app ( \\at ( \\at \
            f:inj s:SortExp ) \
         s:SortKItem ) ( \\app ( \\app f:Lbl'UndsPlusUnds' ( \\app ( \\at ( \\at f:inj s:SortInt ) \
         s:SortExp ) \
         d:SortInt:32 ) ) ( \\app ( \\at ( \\at f:inj s:SortInt ) s:SortExp ) d:SortInt:33 ) ) ) ) \
         f:dotk ) ) ( \
         \\ev ( \\app f:Lbl'-LT-'k'-GT-' ( \\app ( \\app f:kseq ( \\app ( \\at ( \\at f:inj \
         s:SortInt ) \
         s:SortKItem ) d:SortInt:35 ) ) f:dotk ) ) ) ) ",
    ),
];

const TWENTY_STEPS: &[&str] = &["run", "d.kore", "t.kore", "--limit=20", "--proof=p.mm"];

/// Each step makes the configuration higher. The proof of a run that reaches its limit is valid.
#[test]
fn a_run_by_a_rule_with_a_variable_leaves_its_proof(rt: HostRuntime) -> Result<(), Fail> {
    let alloc = rt.alloc();
    let out = nested(alloc, "limit 20\n", 20, "\n")?;
    let case = Case {
        words: TWENTY_STEPS,
        definition: HIGHER,
        code: 10,
        out: out.as_str(),
        ..BASE
    };
    let (desk, holds) = call(alloc, &case)?;
    assert!(rt; holds);
    let database = desk.file("p.mm").unwrap_or_default();
    assert!(rt; verify(alloc, database).is_ok());
    Ok(())
}

/// The proof of a run is valid, and its last theorem states the run.
#[test]
fn a_run_leaves_its_proof(rt: HostRuntime) -> Result<(), Fail> {
    assert_eq!(rt; first_unproved(rt.alloc(), &CONSTRUCTED)?, None);
    Ok(())
}

/// So is the proof of a run with conditions, functions and hooks, and of one of a definition as
/// kompile writes it.
#[test]
fn a_run_that_computes_leaves_its_proof(rt: HostRuntime) -> Result<(), Fail> {
    assert_eq!(rt; first_unproved(rt.alloc(), &COMPUTED)?, None);
    Ok(())
}

/// The number of the first case with another result, or without a valid proof of what it states that
/// is justified over its definition.
pub(crate) fn first_unproved(
    alloc: Global,
    cases: &[(Case<'_>, &str)],
) -> Result<Option<usize>, AllocError> {
    for (number, (case, stated)) in cases.iter().enumerate() {
        let (desk, holds) = call(alloc, case)?;
        let database = desk.file("p.mm").unwrap_or_default();
        if !holds || last_stated(database) != Some(*stated) || verify(alloc, database).is_err() {
            return Ok(Some(number));
        }
        if !is_justified(alloc, case.definition, database)? {
            return Ok(Some(number));
        }
    }
    Ok(None)
}

/// What the last `$p` statement of a database states: a `p` and its symbols. Each piece between two
/// `$` begins with the letter of its keyword.
pub(crate) fn last_stated(database: &[u8]) -> Option<&str> {
    let Ok(text) = str::from_utf8(database) else {
        return None;
    };
    for piece in text.rsplit('$') {
        if piece.as_bytes().first() == Some(&b'p') {
            return Some(piece);
        }
    }
    None
}
