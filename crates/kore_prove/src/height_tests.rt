// Terms and configurations of the greatest height.
use crate::test_calls::{BASE, Case, call};
use crate::test_definitions::{HIGHER, WITH_SUCCESSOR};
use std::alloc::{AllocError, Global};
use std::test::Fail;

const LIMIT_20: &[&str] = &["run", "d.kore", "t.kore", "--limit", "20"];

const LIMIT_1000: &[&str] = &["run", "d.kore", "t.kore", "--limit", "1000"];

/// Each step makes the configuration higher, up to 500. A configuration of that height is printed.
#[test]
fn a_run_ends_where_no_height_is_left(rt: HostRuntime) -> Result<(), Fail> {
    let alloc = rt.alloc();
    for (words, steps, code, line) in [
        (LIMIT_20, 20, 10, "limit 20\n"),
        (LIMIT_1000, 499, 11, "blocked 499 Height s\n"),
    ] {
        let out = nested(alloc, line, steps, "\n")?;
        let case = Case {
            words,
            definition: HIGHER,
            code,
            out: out.as_str(),
            ..BASE
        };
        assert!(rt; call(alloc, &case)?.1);
    }
    Ok(())
}

/// A term of 500 open brackets is read, and one of 501 is refused.
#[test]
fn a_term_may_open_as_many_brackets_as_are_read(rt: HostRuntime) -> Result<(), Fail> {
    let alloc = rt.alloc();
    for (depth, code, line, err) in [
        (499, 0, "stuck 0\n", ""),
        (500, 7, "", "kore_prove: term refused 3 at 2001\n"),
    ] {
        let term = nested(alloc, "", depth, "")?;
        let out = nested(alloc, line, depth, "\n")?;
        let case = Case {
            definition: WITH_SUCCESSOR,
            term: term.as_str(),
            code,
            out: if code == 0 { out.as_str() } else { "" },
            err,
            ..BASE
        };
        assert!(rt; call(alloc, &case)?.1);
    }
    Ok(())
}

/// `s{}(` nested `count` times around `a{}()`, between two texts.
pub(crate) fn nested(
    alloc: Global,
    before: &str,
    count: usize,
    behind: &str,
) -> Result<String, AllocError> {
    let mut text = String::from_str(alloc, before)?;
    for _ in 0..count {
        text.push_str("s{}(")?;
    }
    text.push_str("a{}()")?;
    for _ in 0..count {
        text.push_str(")")?;
    }
    text.push_str(behind)?;
    Ok(text)
}
