// Patterns, each with the shapes that are expected of it.
use kore_ast::{Pat, read_pattern};
use kore_shapes::{
    Companion, Condition, Side, SoughtForms, equation_parts, given_condition, has_binder, has_form,
    rewriting_at, side_at, statement_at,
};
use std::alloc::{AllocError, Global};
use std::test::Fail;

/// The greatest length in bytes of a text that is tried.
const LONGEST: usize = 1000;

fn pattern(alloc: Global, text: &str) -> Result<Pat, Fail> {
    if text.len() > LONGEST {
        return Err(Fail::from("long"));
    }
    match read_pattern(alloc, text.as_bytes()) {
        Ok(pat) => Ok(pat),
        Err(_) => Err(Fail::from("unreadable")),
    }
}

fn side_word(side: Side<'_>) -> &'static str {
    match side {
        Side::Alone(_) => "alone",
        Side::Beside(..) => "beside",
        Side::NoCompanion => "without",
        Side::Misshapen => "misshapen",
    }
}

fn condition_word(condition: Condition<'_>) -> &'static str {
    match condition {
        Condition::Always => "always",
        Condition::Tests(..) => "tests",
        Condition::Malformed => "ill",
    }
}

/// Whether a pattern is a rewrite rule whose left side, right side and condition have these words.
/// If the left word is empty, the pattern must not be a rewrite rule.
fn is_rule(pat: &Pat, left: &str, right: &str, condition: &str) -> bool {
    match rewriting_at(pat) {
        None => left.is_empty(),
        Some(rule) => {
            let before = side_at(rule.before, rule.sort, Companion::Condition);
            let after = side_at(rule.after, rule.sort, Companion::Top);
            side_word(before) == left
                && side_word(after) == right
                && condition_word(given_condition(before.companion(), rule.sort)) == condition
        }
    }
}

/// Patterns with the words of a rule's left side, right side and condition.
static RULES: [(&str, &str, &str, &str); 14] = [
    ("a{}()", "", "", ""),
    ("\\rewrites{S{}}(a{}(),b{}())", "alone", "alone", "always"),
    (
        "\\rewrites{S{}}(\\and{S{}}(a{}(),\\top{S{}}()),\\and{S{}}(b{}(),\\top{S{}}()))",
        "beside",
        "beside",
        "always",
    ),
    (
        "\\rewrites{S{}}(\\and{S{}}(\\top{S{}}(),a{}()),\\and{S{}}(\\top{T{}}(),b{}()))",
        "beside",
        "beside",
        "always",
    ),
    (
        "\\rewrites{S{}}(\\and{S{}}(a{}(),\\top{T{}}()),b{}())",
        "beside",
        "alone",
        "ill",
    ),
    (
        "\\rewrites{S{}}(\\and{T{}}(a{}(),\\top{S{}}()),\\and{T{}}(b{}(),\\top{S{}}()))",
        "misshapen",
        "misshapen",
        "always",
    ),
    (
        "\\rewrites{S{}}(\\and{S{}}(a{}(),b{}()),\\and{S{}}(a{}(),b{}()))",
        "without",
        "without",
        "always",
    ),
    (
        "\\rewrites{S{}}(\\and{S{}}(a{}(),b{}(),\\top{S{}}()),\\and{S{}}(a{}()))",
        "misshapen",
        "misshapen",
        "always",
    ),
    (
        "\\rewrites{S{}}(\\left-assoc{}(\\and{S{}}(a{}(),\\top{S{}}())),b{}())",
        "alone",
        "alone",
        "always",
    ),
    (
        "\\rewrites{S{}}(\\and{S{}}(\\equals{B{},S{}}(b{}(),\\dv{B{}}(\"true\")),a{}()),b{}())",
        "beside",
        "alone",
        "tests",
    ),
    (
        "\\rewrites{S{}}(\\and{S{}}(\\equals{B{},S{}}(b{}(),\\dv{C{}}(\"true\")),a{}()),b{}())",
        "beside",
        "alone",
        "ill",
    ),
    (
        "\\rewrites{S{}}(\\and{S{}}(\\equals{B{},S{}}(b{}(),\\dv{B{}}(\"false\")),a{}()),\
            b{}())",
        "beside",
        "alone",
        "ill",
    ),
    (
        "\\rewrites{S{}}(\\and{S{}}(\\equals{B{},T{}}(b{}(),\\dv{B{}}(\"true\")),a{}()),b{}())",
        "beside",
        "alone",
        "ill",
    ),
    (
        "\\rewrites{S{}}(\\and{S{}}(\\equals{B{},S{}}(\\dv{B{}}(\"true\"),b{}()),a{}()),b{}())",
        "beside",
        "alone",
        "ill",
    ),
];

#[test]
fn rules(rt: HostRuntime) -> Result<(), Fail> {
    for (text, left, right, condition) in &RULES {
        let pat = pattern(rt.alloc(), text)?;
        assert!(rt; is_rule(&pat, left, right, condition), "{text}");
    }
    Ok(())
}

/// Patterns, and whether an `\and`, another connective and a binder occur in them.
static FORMS: [(&str, bool, bool, bool); 9] = [
    ("f{}(X:S{},\\dv{S{}}(\"a\"))", false, false, false),
    ("f{}(\\and{S{}}(X:S{},a{}()))", true, false, false),
    ("f{}(\\or{S{}}(a{}()))", false, true, false),
    ("\\left-assoc{}(\\and{S{}}(a{}()))", false, false, false),
    (
        "\\left-assoc{}(\\and{S{}}(\\or{S{}}()))",
        false,
        true,
        false,
    ),
    (
        "\\right-assoc{}(\\and{S{}}(a{}(),b{}()))",
        true,
        false,
        false,
    ),
    ("\\exists{S{}}(X:S{},f{}(\\and{S{}}()))", true, false, true),
    ("f{}(@X:S{})", false, false, true),
    (
        "\\left-assoc{}(f{}(\\mu{}(@X:S{},@X:S{})))",
        false,
        false,
        true,
    ),
];

/// Which of these forms occur in a pattern: an `\and`, another connective, a binder.
#[test]
fn forms(rt: HostRuntime) -> Result<(), Fail> {
    for (text, and, other, binder) in &FORMS {
        let pat = pattern(rt.alloc(), text)?;
        assert!(rt; has_form(&pat, SoughtForms::Others) == *other, "{text}");
        assert!(rt;
            has_form(&pat, SoughtForms::All) == (*and || *other),
            "{text}"
        );
        assert!(rt; has_binder(&pat) == *binder, "{text}");
    }
    Ok(())
}

/// The numbers of an equation's parameters and patterns, whether it has a condition, and the byte
/// of its right side.
type Parts = (usize, usize, bool, u32);

/// None for a pattern that is not an equation. `Some(None)` for an equation that has neither form.
fn parts_of(alloc: Global, pat: &Pat) -> Result<Option<Option<Parts>>, AllocError> {
    let Some(stated) = statement_at(pat) else {
        return Ok(None);
    };
    let Some(parts) = equation_parts(alloc, &stated)? else {
        return Ok(Some(None));
    };
    Ok(Some(Some((
        parts.parameters.len(),
        parts.patterns.len(),
        parts.condition.is_some(),
        parts.right.at,
    ))))
}

/// Patterns with the parts of the equation that they state.
static EQUATIONS: [(&str, Option<Option<Parts>>); 15] = [
    ("a{}()", None),
    (
        "\\equals{S{},R}(f{}(a{}()),b{}())",
        Some(Some((0, 1, false, 26))),
    ),
    (
        "\\equals{S{},R}(f{}(a{}()),\\and{S{}}(b{}(),\\top{S{}}()))",
        Some(Some((0, 1, false, 36))),
    ),
    (
        "\\equals{S{},R}(f{}(a{}()),\\and{S{}}(\\top{S{}}(),b{}()))",
        Some(Some((0, 1, false, 26))),
    ),
    ("\\equals{S{},R}(f{A{}}(a{}()),b{}())", None),
    ("\\equals{S{},R}(X:S{},b{}())", None),
    (
        "\\implies{R}(\\top{R}(),\\equals{S{},R}(f{}(a{}()),b{}()))",
        Some(Some((0, 1, true, 48))),
    ),
    (
        "\\implies{Q}(\\top{Q}(),\\equals{S{},R}(f{}(a{}()),b{}()))",
        None,
    ),
    (
        "\\implies{R}(\\and{R}(\\top{R}(),\\top{R}()),\\equals{S{},R}(f{}(),b{}()))",
        Some(Some((0, 0, true, 62))),
    ),
    (
        "\\implies{R}(\\and{R}(\\top{R}(),\\top{R}()),\\equals{S{},R}(f{}(X:S{}),b{}()))",
        Some(None),
    ),
    (
        "\\implies{R}(\\and{R}(\\top{R}(),\\and{R}(\\in{S{},R}(X:S{},a{}()),\\top{R}())),\
            \\equals{S{},\
            R}(f{}(X:S{}),b{}()))",
        Some(Some((1, 1, true, 100))),
    ),
    (
        "\\implies{R}(\\and{R}(\\top{R}(),\\and{R}(\\in{S{},R}(X:S{},a{}()),\\top{R}())),\
            \\equals{S{},\
            R}(f{}(X:S{}),X:S{}))",
        Some(None),
    ),
    (
        "\\implies{R}(\\and{R}(\\top{R}(),\\and{R}(\\in{S{},R}(X:S{},X:S{}),\\top{R}())),\
            \\equals{S{},\
            R}(f{}(X:S{}),b{}()))",
        Some(None),
    ),
    (
        "\\implies{R}(\\and{R}(\\top{R}(),\\and{R}(\\in{S{},R}(X:S{},X:T{}),\\top{R}())),\
            \\equals{S{},\
            R}(f{}(X:S{}),b{}()))",
        Some(Some((1, 1, true, 100))),
    ),
    (
        "\\implies{R}(\\and{R}(\\top{R}(),\\and{R}(\\in{T{},R}(X:S{},a{}()),\\top{R}())),\
            \\equals{S{},\
            R}(f{}(X:S{}),b{}()))",
        Some(None),
    ),
];

#[test]
fn equations(rt: HostRuntime) -> Result<(), Fail> {
    for (text, expected) in &EQUATIONS {
        let pat = pattern(rt.alloc(), text)?;
        assert!(rt; parts_of(rt.alloc(), &pat)? == *expected, "{text}");
    }
    Ok(())
}
