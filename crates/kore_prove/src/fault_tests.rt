// Calls in which each call of the desk, of the output or of the error stream fails in turn.
use crate::test_calls::{BASE, Case, Faults, Left, call_with};
use crate::test_definitions::{ADDITION, SAME_PAIR, TWO_STEPS};
use std::alloc::{AllocError, Global};
use std::test::Fail;

/// An addition that is proved.
const ADDS: Case<'static> = Case {
    words: &["run", "d.kore", "t.kore", "--limit=100", "--proof=p.mm"],
    definition: ADDITION,
    term: "Lbl'-LT-'k'-GT-'{}(kseq{}(inj{SortExp{},\
        SortKItem{}}(Lbl'UndsPlusUnds'{}(inj{SortInt{},SortExp{}\
        }(\\dv{SortInt{}}(\"2\")),inj{SortInt{},SortExp{}}(\\dv{SortInt{}}(\"3\")))),\
        dotk{}()))",
    out: "stuck 1\nLbl'-LT-'k'-GT-'{}(kseq{}(inj{SortInt{},\
        SortKItem{}}(\\dv{SortInt{}}(\"5\")),dotk{}()))\n",
    ..BASE
};

/// A run without a step, which is shown to be stuck.
const SHOWS: Case<'static> = Case {
    words: &[
        "run",
        "d.kore",
        "t.kore",
        "--limit=5",
        "--proof=p.mm",
        "--stuck",
    ],
    definition: SAME_PAIR,
    term: "pair{}(p{}(),q{}())",
    out: "stuck 0\npair{}(p{}(),q{}())\nshown 1\n",
    ..BASE
};

const VERIFIES: Case<'static> = Case {
    words: &["verify", "d.kore"],
    definition: "$c t $. $v x $. fx $f t x $. ",
    out: "valid 0 0\n",
    ..BASE
};

const DRILLS: Case<'static> = Case {
    words: &["drill", "2", "p.mm"],
    out: "stuck 2\nst{}(c2{}(),\\dv{SortInt{}}(\"1\"))\nfacts 4 statements 112 bytes 10989\n",
    ..BASE
};

const NO_FILE: Case<'static> = Case {
    words: &["run", "d.kore", "x", "--limit=5"],
    definition: TWO_STEPS,
    code: 5,
    err: "kore_prove: no such file x\n",
    ..BASE
};

const NO_FAULTS: Faults<'static> = Faults {
    most: 65_536,
    desk: &[],
    out: &[],
    err: &[],
};

/// The calls of the desk in such a run: it opens, reads and ends two files, creates the file of the
/// proof, writes its beginning and the text of the step or of what is shown, and closes it.
const READS: u64 = 6;

const CALLS: u64 = READS + 4;

/// A call of the desk that fails before the file is created ends as a read fault, and leaves no
/// file. From that call on it ends as a write fault, and leaves the front of the proof.
#[test]
fn each_call_of_the_desk_fails_in_turn(rt: HostRuntime) -> Result<(), Fail> {
    for case in [&ADDS, &SHOWS] {
        assert!(rt; fails_at_each_call(rt.alloc(), case)?);
    }
    Ok(())
}

/// Whether each call of the desk in this case fails as it should, until no call is left to fail.
fn fails_at_each_call(alloc: Global, case: &Case<'_>) -> Result<bool, AllocError> {
    let whole = call_with(alloc, case, NO_FAULTS)?;
    let proof = whole.desk.file("p.mm").unwrap_or_default();
    for number in 0..CALLS {
        let left = failing_desk(alloc, case, number)?;
        let code = if number < READS { 3 } else { 4 };
        if left.code != code || !left.out.bytes().is_empty() {
            return Ok(false);
        }
        if !holds_front(&left, proof, number > READS) {
            return Ok(false);
        }
    }
    let undisturbed = failing_desk(alloc, case, CALLS)?;
    Ok(
        whole.code == 0
            && !proof.is_empty()
            && undisturbed.code == 0
            && undisturbed.desk.file("p.mm") == Some(proof),
    )
}

/// The run in which the call of the desk with this number fails.
fn failing_desk(alloc: Global, case: &Case<'_>, number: u64) -> Result<Left, AllocError> {
    let faults = Faults {
        desk: &[number],
        ..NO_FAULTS
    };
    call_with(alloc, case, faults)
}

/// Whether the file was created if it was to be, and holds the front of the proof.
fn holds_front(left: &Left, proof: &[u8], created: bool) -> bool {
    match left.desk.file("p.mm") {
        Some(bytes) => created && proof.starts_with(bytes),
        None => !created,
    }
}

/// A write to the output that fails ends as a write fault. The output has the front of the lines,
/// and the file of the proof is whole.
#[test]
fn each_write_of_the_output_fails_in_turn(rt: HostRuntime) -> Result<(), Fail> {
    for case in [&ADDS, &SHOWS, &VERIFIES, &DRILLS] {
        assert!(rt; fails_at_each_write(rt.alloc(), case)?);
    }
    Ok(())
}

/// Whether each write of this case's lines fails as it should, until no write is left to fail.
fn fails_at_each_write(alloc: Global, case: &Case<'_>) -> Result<bool, AllocError> {
    let whole = call_with(alloc, case, NO_FAULTS)?;
    let lines = case.out.as_bytes();
    for number in 0..=lines.len() {
        let faults = Faults {
            out: &[number as u64],
            ..NO_FAULTS
        };
        let left = call_with(alloc, case, faults)?;
        if left.desk.file("p.mm") != whole.desk.file("p.mm") {
            return Ok(false);
        }
        if left.code == 0 {
            return Ok(number > 1 && left.out.bytes() == lines);
        }
        if !is_write_fault(&left, lines) {
            return Ok(false);
        }
    }
    Ok(false)
}

/// Whether the call ended with a write fault, when a front of the lines was written.
fn is_write_fault(left: &Left, lines: &[u8]) -> bool {
    let written = left.out.bytes();
    left.code == 4
        && written.len() < lines.len()
        && lines.starts_with(written)
        && left.err.bytes() == "kore_prove: write fault\n".as_bytes()
}

/// A write to the error stream that fails changes neither the exit code nor the files.
#[test]
fn each_write_of_the_reason_fails_in_turn(rt: HostRuntime) -> Result<(), Fail> {
    let line = NO_FILE.err.as_bytes();
    for number in 0..6 {
        let faults = Faults {
            err: &[number],
            ..NO_FAULTS
        };
        let left = call_with(rt.alloc(), &NO_FILE, faults)?;
        let written = left.err.bytes();
        assert!(rt; left.code == NO_FILE.code && left.out.bytes().is_empty());
        assert!(rt; written.len() < line.len() && line.starts_with(written));
        assert!(rt; left.desk.file("d.kore") == Some(TWO_STEPS.as_bytes()));
    }
    Ok(())
}

/// With a write to the output that fails too, the file of the proof is still whole.
#[test]
fn both_streams_may_fail(rt: HostRuntime) -> Result<(), Fail> {
    let alloc = rt.alloc();
    let whole = call_with(alloc, &ADDS, NO_FAULTS)?;
    let faults = Faults {
        out: &[1],
        err: &[0],
        ..NO_FAULTS
    };
    let left = call_with(alloc, &ADDS, faults)?;
    assert!(rt;
        left.code == 4 && left.out.bytes() == "stuck".as_bytes() && left.err.bytes().is_empty()
    );
    assert!(rt; left.desk.file("p.mm").is_some());
    assert!(rt; left.desk.file("p.mm") == whole.desk.file("p.mm"));
    Ok(())
}
