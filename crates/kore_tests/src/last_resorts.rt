// Equations of the last resort, each with the guards that are expected of it.
use kore_ast::{Pat, read_pattern};
use kore_shapes::{last_resort_parts, statement_at};
use std::alloc::{AllocError, Global};
use std::test::Fail;

/// What stands before the negated pattern, and after it.
const BEFORE: &str = "\\implies{R}(\\and{R}(\\not{R}(";

const AFTER: &str = "),\\and{R}(\\top{R}(),\\and{R}(\\in{S{},R}(X:S{},Y:S{}),\\top{R}()))),\
    \\equals{S{},R}(f{}(X:S{}),b{}()))";

/// How many variables each guard quantifies. None if the pattern is of another form.
fn variables_of(alloc: Global, pat: &Pat) -> Result<Option<Vec<usize>>, AllocError> {
    let Some(stated) = statement_at(pat) else {
        return Ok(None);
    };
    let Some(parts) = last_resort_parts(alloc, &stated)? else {
        return Ok(None);
    };
    let mut numbers = Vec::new(alloc);
    for guard in &parts.guards {
        numbers.push(guard.variables.len())?;
    }
    Ok(Some(numbers))
}

/// Whether these are the numbers.
fn are(found: &Option<Vec<usize>>, expected: Option<&[usize]>) -> bool {
    match (found, expected) {
        (Some(numbers), Some(expected)) => numbers.as_slice() == expected,
        (None, None) => true,
        _ => false,
    }
}

/// Negated patterns, with the numbers of variables that the guards in them quantify.
static NEGATED: [(&str, Option<&[usize]>); 9] = [
    ("\\bottom{R}()", Some(&[])),
    ("\\or{R}()", Some(&[])),
    (
        "\\and{R}(\\top{R}(),\\and{R}(\\in{S{},R}(X:S{},a{}()),\\top{R}()))",
        Some(&[0]),
    ),
    (
        "\\or{R}(\\exists{R}(V:S{},\\and{R}(\\top{R}(),\
            \\and{R}(\\in{S{},R}(X:S{},g{}(V:S{})),\\top{R}()))),\\bottom{R}())",
        Some(&[1]),
    ),
    (
        "\\or{R}(\\or{R}(\\and{R}(\\top{R}(),\\and{R}(\\in{S{},R}(X:S{},a{}()),\\top{R}())),\
            \\exists{R}(V:S{},\\exists{R}(W:S{},\\and{R}(\\top{R}(),\
            \\and{R}(\\in{S{},R}(X:S{},h{}(V:S{},W:S{})),\\top{R}()))))),\
            \\and{R}(\\top{R}(),\\and{R}(\\in{S{},R}(X:S{},c{}()),\\top{R}())))",
        Some(&[0, 2, 0]),
    ),
    ("\\bottom{Q}()", None),
    ("\\top{R}()", None),
    ("\\left-assoc{}(\\or{R}(\\bottom{R}(),\\bottom{R}()))", None),
    (
        "\\forall{R}(V:S{},\\and{R}(\\top{R}(),\
            \\and{R}(\\in{S{},R}(X:S{},g{}(V:S{})),\\top{R}())))",
        None,
    ),
];

#[test]
fn guards(rt: HostRuntime) -> Result<(), Fail> {
    for (negated, expected) in &NEGATED {
        let text = format!(in rt.alloc(); "{BEFORE}{negated}{AFTER}")?;
        let Ok(pat) = read_pattern(rt.alloc(), text.as_bytes()) else {
            return Err(Fail::from("unreadable"));
        };
        assert!(rt;
            are(&variables_of(rt.alloc(), &pat)?, *expected),
            "{negated}"
        );
    }
    Ok(())
}

/// A function without arguments has no equation of the last resort, and neither has an equation
/// whose guard denies nothing.
#[test]
fn no_last_resort(rt: HostRuntime) -> Result<(), Fail> {
    for text in [
        "\\implies{R}(\\and{R}(\\not{R}(\\bottom{R}()),\\and{R}(\\top{R}(),\\top{R}())),\
            \\equals{S{},R}(f{}(),b{}()))",
        "\\implies{R}(\\and{R}(\\top{R}(),\\and{R}(\\in{S{},R}(X:S{},a{}()),\\top{R}())),\
            \\equals{S{},R}(f{}(X:S{}),b{}()))",
    ] {
        let Ok(pat) = read_pattern(rt.alloc(), text.as_bytes()) else {
            return Err(Fail::from("unreadable"));
        };
        assert!(rt; are(&variables_of(rt.alloc(), &pat)?, None), "{text}");
    }
    Ok(())
}
