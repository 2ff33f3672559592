// Limits, each at its number and one past it, and texts that are cut off.
use crate::test_calls::{BASE, Case, Faults, Left, call, call_with, first_failing};
use crate::test_definitions::{COUNTING, TWO_STEPS, WITH_FUNCTION};
use std::alloc::{AllocError, Global};
use std::test::Fail;

const VERIFIES: Case<'static> = Case {
    words: &["verify", "d.kore"],
    code: 12,
    ..BASE
};

/// Databases that are invalid at once, and the empty one.
static DATABASES: [Case<'static>; 6] = [
    Case {
        definition: "",
        code: 0,
        out: "valid 0 0\n",
        ..VERIFIES
    },
    Case {
        definition: "$c t $. $c t $.",
        out: "invalid 5 at 8\n",
        ..VERIFIES
    },
    Case {
        definition: "${ $c t $. $}",
        out: "invalid 4 at 3\n",
        ..VERIFIES
    },
    Case {
        definition: "$( x",
        out: "invalid 2 at 0\n",
        ..VERIFIES
    },
    Case {
        definition: "$c t $. fx $f t x $.",
        out: "invalid 6 at 8\n",
        ..VERIFIES
    },
    Case {
        definition: "${",
        out: "invalid 10 at 0\n",
        ..VERIFIES
    },
];

/// The greatest numbers of steps and of calls of functions.
static GREATEST: [Case<'static>; 2] = [
    Case {
        words: &["run", "d.kore", "t.kore", "--limit", "1000000"],
        definition: COUNTING,
        code: 10,
        out: "limit 1000000\na{}()\n",
        ..BASE
    },
    Case {
        words: &[
            "run", "d.kore", "t.kore", "--limit", "5", "--calls", "10000000",
        ],
        out: "stuck 2\nc{}()\n",
        ..BASE
    },
];

/// Such databases get their verdicts, and the greatest numbers are taken.
#[test]
fn short_databases_and_great_numbers(rt: HostRuntime) -> Result<(), Fail> {
    let alloc = rt.alloc();
    assert_eq!(rt; first_failing(alloc, &DATABASES)?, None);
    assert_eq!(rt; first_failing(alloc, &GREATEST)?, None);
    Ok(())
}

/// A definition that is cut off before its last bracket has a lexical or a syntactic fault.
#[test]
fn a_definition_that_is_cut_off_is_refused(rt: HostRuntime) -> Result<(), Fail> {
    let whole = TWO_STEPS.trim_ascii_end();
    for end in 0..whole.len() - 1 {
        let Some(definition) = whole.get(..end) else {
            panic!(rt; "a character is cut");
        };
        let case = Case { definition, ..BASE };
        assert!(rt; is_unreadable(&call_with(rt.alloc(), &case, PLAIN)?));
    }
    Ok(())
}

const PLAIN: Faults<'static> = Faults {
    most: 65_536,
    desk: &[],
    out: &[],
    err: &[],
};

/// Whether the definition was refused with the number 1 or 2.
fn is_unreadable(left: &Left) -> bool {
    let line = left.err.bytes();
    left.code == 6
        && (line.starts_with("kore_prove: definition refused 1 ".as_bytes())
            || line.starts_with("kore_prove: definition refused 2 ".as_bytes()))
}

/// A term of 1,048,576 bytes is read, and one of one byte more is too large.
#[test]
fn a_term_may_have_a_mebibyte(rt: HostRuntime) -> Result<(), Fail> {
    let alloc = rt.alloc();
    for (bytes, code, out, err) in [
        (1_048_576, 0, "stuck 2\nc{}()\n", ""),
        (1_048_577, 8, "", "kore_prove: too large t.kore\n"),
    ] {
        let term = padded(alloc, "a{}()", bytes)?;
        let case = Case {
            term: term.as_str(),
            code,
            out,
            err,
            ..BASE
        };
        assert!(rt; call(alloc, &case)?.1);
    }
    Ok(())
}

/// The text with blanks behind it, of this many bytes.
fn padded(alloc: Global, text: &str, bytes: usize) -> Result<String, AllocError> {
    let mut padded = String::from_str(alloc, text)?;
    for _ in text.len()..bytes {
        padded.push_str(" ")?;
    }
    Ok(padded)
}

/// A symbol of 64 arguments is accepted, and one of 65 is refused at its declaration.
#[test]
fn a_symbol_may_have_sixty_four_arguments(rt: HostRuntime) -> Result<(), Fail> {
    let alloc = rt.alloc();
    for (arguments, code, out, err) in [
        (64, 0, "stuck 0\na{}()\n", ""),
        (65, 6, "", "kore_prove: definition refused 8 at 61\n"),
    ] {
        let definition = with_arguments(alloc, arguments)?;
        let case = Case {
            definition: definition.as_str(),
            code,
            out,
            err,
            ..BASE
        };
        assert!(rt; call(alloc, &case)?.1);
    }
    Ok(())
}

/// A definition with a symbol of so many arguments.
fn with_arguments(alloc: Global, arguments: usize) -> Result<String, AllocError> {
    let mut text = String::from_str(
        alloc,
        "[] module M sort S{} [] symbol a{}() : S{} [constructor{}()] symbol f{}(S{}",
    )?;
    for _ in 1..arguments {
        text.push_str(",S{}")?;
    }
    text.push_str(") : S{} [constructor{}()] endmodule []")?;
    Ok(text)
}

/// A run with a function that calls itself as often as its argument says.
const NESTED: Case<'static> = Case {
    definition: WITH_FUNCTION,
    ..BASE
};

/// The deepest call that has a value, and one call deeper.
static DEEPEST: [Case<'static>; 2] = [
    Case {
        term: r#"t{}(down{}(\dv{SortInt{}}("998")))"#,
        out: "stuck 0\nt{}(\\dv{SortInt{}}(\"0\"))\n",
        ..NESTED
    },
    Case {
        term: r#"t{}(down{}(\dv{SortInt{}}("999")))"#,
        code: 11,
        out: "blocked 0 Nest sub\nt{}(down{}(\\dv{SortInt{}}(\"999\")))\n",
        ..NESTED
    },
];

/// At most 2,000 evaluations are nested. A call in the right side of an equation takes two levels:
/// one for the right side, and one for the arguments of the call.
#[test]
fn evaluations_nest_two_thousand_deep(rt: HostRuntime) -> Result<(), Fail> {
    assert_eq!(rt; first_failing(rt.alloc(), &DEEPEST)?, None);
    Ok(())
}
