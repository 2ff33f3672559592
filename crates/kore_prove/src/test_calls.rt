// Calls of the program over a desk and sinks in memory.
ghost use Rattle.std.specs.Prelude.{◌<◌, IfOk, IsFalse};

use crate::call::kore_main;
use crate::test_definitions::TWO_STEPS;
use desk_io::{Desk, MemDesk, MemSink};
use std::alloc::{AllocError, Global};

/// The words, the files `d.kore` and `t.kore`, the calls of the desk and of the streams that fail,
/// and the expected result.
#[derive(Clone, Copy)]
pub(crate) struct Case<'t> {
    pub(crate) words: &'static [&'static str],
    pub(crate) definition: &'t str,
    pub(crate) term: &'t str,
    pub(crate) desk_fails: &'static [u64],
    pub(crate) out_fails: &'static [u64],
    pub(crate) err_fails: &'static [u64],
    pub(crate) code: u8,
    pub(crate) out: &'t str,
    pub(crate) err: &'static str,
}

/// A run of at most five steps, which gets stuck after two. The expected lines are left to each
/// test.
pub(crate) const BASE: Case<'static> = Case {
    words: &["run", "d.kore", "t.kore", "--limit", "5"],
    definition: TWO_STEPS,
    term: "a{}()",
    desk_fails: &[],
    out_fails: &[],
    err_fails: &[],
    code: 0,
    out: "",
    err: "",
};

/// A run of two steps whose proof goes to `p.mm`.
pub(crate) const PROVES: Case<'static> = Case {
    words: &["run", "d.kore", "t.kore", "--limit=5", "--proof=p.mm"],
    out: "stuck 2\nc{}()\n",
    ..BASE
};

/// The number of the first case with another result than expected.
pub(crate) fn first_failing(
    alloc: Global,
    cases: &[Case<'_>],
) -> Result<Option<usize>, AllocError> {
    for (number, case) in cases.iter().enumerate() {
        let (_, holds) = call(alloc, case)?;
        if !holds {
            return Ok(Some(number));
        }
    }
    Ok(None)
}

/// The desk after the call, and whether the result is exactly the expected one.
pub(crate) fn call(alloc: Global, case: &Case<'_>) -> Result<(MemDesk, bool), AllocError> {
    let faults = Faults {
        most: 5_000,
        desk: case.desk_fails,
        out: case.out_fails,
        err: case.err_fails,
    };
    let left = call_with(alloc, case, faults)?;
    let holds = left.code == case.code
        && left.out.bytes() == case.out.as_bytes()
        && left.err.bytes() == case.err.as_bytes();
    Ok((left.desk, holds))
}

/// The numbers of the calls of the desk and of the streams that fail, and how many bytes the desk
/// reads or writes in each call at most.
#[derive(Clone, Copy)]
pub(crate) struct Faults<'f> {
    pub(crate) most: usize,
    pub(crate) desk: &'f [u64],
    pub(crate) out: &'f [u64],
    pub(crate) err: &'f [u64],
}

/// What a call leaves.
#[derive(Drop)]
pub(crate) struct Left {
    pub(crate) code: u8,
    pub(crate) desk: MemDesk,
    pub(crate) out: MemSink,
    pub(crate) err: MemSink,
}

/// What a call with these words and files leaves if these faults occur.
pub(crate) fn call_with(
    alloc: Global,
    case: &Case<'_>,
    faults: Faults<'_>,
) -> Result<Left, AllocError>
    requires { 0 < faults.most }
{
    let words = words_of(alloc, case.words)?;
    let mut desk = two_files(alloc, case, faults)?;
    let mut out = MemSink::new(alloc, 5, Vec::from_slice(alloc, faults.out)?);
    let mut err = MemSink::new(alloc, 5, Vec::from_slice(alloc, faults.err)?);
    let status = kore_main(alloc, &words, &mut desk, &mut out, &mut err);
    Ok(Left {
        code: status.code,
        desk,
        out,
        err,
    })
}

/// The words as the program gets them.
fn words_of(alloc: Global, given: &[&str]) -> Result<Vec<String>, AllocError> {
    let mut words = Vec::new(alloc);
    for word in given {
        words.push(String::from_str(alloc, word)?)?;
    }
    Ok(words)
}

/// A desk with a definition and a term.
pub(crate) fn two_files(
    alloc: Global,
    case: &Case<'_>,
    faults: Faults<'_>,
) -> Result<MemDesk, AllocError>
    requires { 0 < faults.most }
    ensures { IfOk result (λ desk. IsFalse (⟦<MemDesk as Desk>⟧.created desk)) }
{
    let mut files = Vec::new(alloc);
    let definition_bytes = Vec::from_slice(alloc, case.definition.as_bytes())?;
    let term_bytes = Vec::from_slice(alloc, case.term.as_bytes())?;
    let definition_name = String::from_str(alloc, "d.kore")?;
    let term_name = String::from_str(alloc, "t.kore")?;
    files.push((definition_name, definition_bytes))?;
    files.push((term_name, term_bytes))?;
    let failing = Vec::from_slice(alloc, faults.desk)?;
    Ok(MemDesk::new(files, faults.most, failing))
}
