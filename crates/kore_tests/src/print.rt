// Worked texts: what is printed after they are read.

use kore_ast::{ReadFault, read_pattern};
use kore_print::print_pattern;
use std::alloc::Global;
use std::test::Fail;

/// The greatest length in bytes of a text that is tried.
const LONGEST: usize = 1000;

/// The canonical text of the pattern that a text spells.
fn printed(alloc: Global, text: &str) -> Result<String, ReadFault> {
    if text.len() > LONGEST {
        return Ok(String::new(alloc));
    }
    let pattern = read_pattern(alloc, text.as_bytes())?;
    Ok(print_pattern(alloc, &pattern)?)
}

/// Patterns with their canonical texts.
static PATTERNS: [(&str, &str); 23] = [
    (" a // \n{ /* ) */ } (\t) //", "a{}()"),
    ("X : S", "X:S"),
    ("@X : S { T , U { } }", "@X:S{T,U{}}"),
    ("f{ S{}, T }( X:S{} , a { } ( ) )", "f{S{},T}(X:S{},a{}())"),
    ("\\top {S} ()", "\\top{S}()"),
    ("\\bottom{S} ()", "\\bottom{S}()"),
    ("\\not{S}( X:S )", "\\not{S}(X:S)"),
    ("\\next{S}( X:S )", "\\next{S}(X:S)"),
    ("\\and{S}( )", "\\and{S}()"),
    ("\\or{S}(X:S, Y:S, Z:S)", "\\or{S}(X:S,Y:S,Z:S)"),
    ("\\implies{S}(X:S, Y:S)", "\\implies{S}(X:S,Y:S)"),
    ("\\iff{S}(X:S, Y:S)", "\\iff{S}(X:S,Y:S)"),
    ("\\rewrites{S}(X:S, Y:S)", "\\rewrites{S}(X:S,Y:S)"),
    ("\\ceil{S, T}(X:S)", "\\ceil{S,T}(X:S)"),
    ("\\floor{S, T}(X:S)", "\\floor{S,T}(X:S)"),
    ("\\equals{S, T}(X:S, Y:S)", "\\equals{S,T}(X:S,Y:S)"),
    ("\\in{S, T}(X:S, Y:S)", "\\in{S,T}(X:S,Y:S)"),
    ("\\exists{S}(X:S, X:S)", "\\exists{S}(X:S,X:S)"),
    ("\\forall{S}(X:S, X:S)", "\\forall{S}(X:S,X:S)"),
    ("\\mu{}(@X:S, @X:S)", "\\mu{}(@X:S,@X:S)"),
    ("\\nu{}(@X:S, @X:S)", "\\nu{}(@X:S,@X:S)"),
    (
        "\\left-assoc{}(f{}(a{}(), b{}()))",
        "\\left-assoc{}(f{}(a{}(),b{}()))",
    ),
    (
        "\\right-assoc{}(\\and{S}(X:S))",
        "\\right-assoc{}(\\and{S}(X:S))",
    ),
];

#[test]
fn patterns(rt: HostRuntime) -> Result<(), Fail> {
    for (text, canonical) in &PATTERNS {
        assert_eq!(rt; printed(rt.alloc(), text)?.as_str(), *canonical, "{text}");
    }
    Ok(())
}

/// What stands in a string, as it is read and as it is printed.
static STRINGS: [(&str, &str); 7] = [
    ("", ""),
    (" aZ09~", " aZ09~"),
    ("\\x22\\\\", "\\\"\\\\"),
    ("\\u000a\\r\\U00000009\\x0C", "\\n\\r\\t\\f"),
    ("\u{0}\u{1f}\u{7f}\u{ff}", "\\x00\\x1f\\x7f\\xff"),
    ("\u{100}\u{20AC}\u{ffff}", "\\u0100\\u20ac\\uffff"),
    ("\u{10000}\u{10FFFF}", "\\U00010000\\U0010ffff"),
];

#[test]
fn strings(rt: HostRuntime) -> Result<(), Fail> {
    for (content, canonical) in &STRINGS {
        let text = format!(in rt.alloc(); "\\dv{{S}}( \"{content}\" )")?;
        let expected = format!(in rt.alloc(); "\\dv{{S}}(\"{canonical}\")")?;
        assert_eq!(rt;
            printed(rt.alloc(), text.as_str())?.as_str(),
            expected.as_str()
        );
    }
    Ok(())
}
