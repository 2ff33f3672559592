// Worked texts: which of them are good, and which fault comes first in the others.

use kore_text::{TextFault, definition_fault, pattern_fault};
use std::alloc::{AllocError, Global};
use std::test::Fail;

/// The greatest length in bytes of a text that is tried.
const LONGEST: usize = 100_000;

/// A fault as the tables write it.
fn shown(alloc: Global, fault: Option<TextFault>) -> Result<String, AllocError> {
    match fault {
        None => String::from_str(alloc, "good"),
        Some(TextFault::Lex(at)) => format!(in alloc; "lex {at}"),
        Some(TextFault::Syntax(at)) => format!(in alloc; "syntax {at}"),
        Some(TextFault::Deep(at)) => format!(in alloc; "deep {at}"),
    }
}

/// The first fault of a pattern's text.
fn of_pattern(alloc: Global, text: &str) -> Result<String, AllocError> {
    if text.len() > LONGEST {
        return Ok(String::new(alloc));
    }
    let fault = pattern_fault(alloc, text.as_bytes())?;
    shown(alloc, fault)
}

/// The first fault of a definition's text.
fn of_definition(alloc: Global, text: &str) -> Result<String, AllocError> {
    if text.len() > LONGEST {
        return Ok(String::new(alloc));
    }
    let fault = definition_fault(alloc, text.as_bytes())?;
    shown(alloc, fault)
}

/// `b{}()` inside `levels` applications of `s`.
fn nested(alloc: Global, levels: usize) -> Result<String, AllocError> {
    let mut text = String::new(alloc);
    for _ in 0..levels {
        text.push_str("s{}(")?;
    }
    text.push_str("b{}()")?;
    for _ in 0..levels {
        text.push_str(")")?;
    }
    Ok(text)
}

/// Patterns with their first faults.
static PATTERNS: [(&str, &str); 35] = [
    ("a{}()", "good"),
    (" a // \n{ /* ) */ } (\t) //", "good"),
    ("f{S,T{U{}}}(X:S{},@Y:T,\\top{S}())", "good"),
    ("\\and{S{}}()", "good"),
    ("\\in{S,T}(a{}(),b{}())", "good"),
    ("\\exists{S}(X:S,\\mu{}(@Y:S,@Y:S))", "good"),
    ("\\dv{S{}}(\"\\x41\")", "good"),
    ("\\left-assoc{}(f{}(a{}(),b{}()))", "good"),
    ("\\right-assoc{}(\\or{S}(a{}()))", "good"),
    // a wrong number of sorts or arguments, or another kind of argument
    ("\\and{}(a{}())", "syntax 5"),
    ("\\top{S}(a{}())", "syntax 8"),
    ("\\rewrites{S}(a{}())", "syntax 18"),
    ("\\none{S}()", "syntax 0"),
    ("\\exists{S}(@X:S,a{}())", "syntax 11"),
    ("\\dv{S}(a{}())", "syntax 7"),
    ("\"text\"", "syntax 0"),
    // brackets, commas and the end
    ("", "syntax 0"),
    ("a // \n", "syntax 6"),
    ("a{}", "syntax 3"),
    ("a{(})", "syntax 2"),
    ("a{}(b{}(),)", "syntax 10"),
    ("a{}(,b{}())", "syntax 4"),
    ("a{}(b{}() c{}())", "syntax 10"),
    ("a{}() a{}()", "syntax 6"),
    ("a{}())", "syntax 5"),
    // what is not a token
    ("1{}()", "lex 0"),
    ("a_b{}()", "lex 1"),
    ("a{}(\"\\q\")", "lex 5"),
    ("a{} /*", "lex 4"),
    ("a{(}_)", "syntax 2"),
    // a fold without an argument has its fault at the name of the fold
    ("a{}(\\left-assoc{}(f{}()))", "syntax 4"),
    ("\\right-assoc{}(\\and{S}() ;", "syntax 0"),
    ("\\right-assoc{}(\\and{S,T}())", "syntax 21"),
    ("\\right-assoc{}(f{}(_", "lex 19"),
    ("\\left-assoc{}(X:S)", "syntax 15"),
];

#[test]
fn patterns(rt: HostRuntime) -> Result<(), Fail> {
    for (text, fault) in &PATTERNS {
        assert_eq!(rt; of_pattern(rt.alloc(), text)?.as_str(), *fault, "{text}");
    }
    Ok(())
}

/// Definitions with their first faults.
static DEFINITIONS: [(&str, &str); 12] = [
    ("[] module M endmodule []", "good"),
    (
        "[a{}(\"x\"), b{}()] module M import N [] hooked-sort S{A} [] symbol a{}() : S{} [] \
         axiom{R} \\top{R}() [] claim{} a{}() [c{}(\"\")] endmodule [] module N endmodule []",
        "good",
    ),
    (
        "[] module M alias a{}(S) : S where a{S}(X:S) := a{}() [] endmodule []",
        "good",
    ),
    ("", "syntax 0"),
    ("[]", "syntax 2"),
    ("[a{}(\"x", "lex 5"),
    ("[] module M", "syntax 11"),
    ("[] module M endmodule", "syntax 21"),
    ("module M endmodule []", "syntax 0"),
    ("[] module M endmodule [] []", "syntax 25"),
    ("[] module M sort S endmodule []", "syntax 19"),
    ("[] module M axiom{} \"x\" [] endmodule []", "syntax 20"),
];

#[test]
fn definitions(rt: HostRuntime) -> Result<(), Fail> {
    for (text, fault) in &DEFINITIONS {
        assert_eq!(rt; of_definition(rt.alloc(), text)?.as_str(), *fault, "{text}");
    }
    Ok(())
}

#[test]
fn five_hundred_brackets(rt: HostRuntime) -> Result<(), Fail> {
    let deepest = nested(rt.alloc(), 499)?;
    assert_eq!(rt; of_pattern(rt.alloc(), deepest.as_str())?.as_str(), "good");
    Ok(())
}

#[test]
fn one_bracket_more(rt: HostRuntime) -> Result<(), Fail> {
    let deeper = nested(rt.alloc(), 500)?;
    assert_eq!(rt;
        of_pattern(rt.alloc(), deeper.as_str())?.as_str(),
        "deep 2001"
    );
    Ok(())
}

#[test]
fn prefixes(rt: HostRuntime) -> Result<(), Fail> {
    let text = b"[] module M sort S{} [] symbol a{}() : S{} [c{}(\"x\")] endmodule []";
    for len in 0..text.len() {
        match definition_fault(rt.alloc(), &text[..len])? {
            Some(TextFault::Lex(_)) | Some(TextFault::Syntax(_)) => {}
            _ => panic!(rt; "a fault at {len}"),
        }
    }
    Ok(())
}
