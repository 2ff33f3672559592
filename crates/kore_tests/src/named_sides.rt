// Left sides whose parts have names.
use kore_rules::{Refusal, accept};
use rule_core::Named;
use std::alloc::Global;
use std::test::Fail;

/// The greatest length in bytes of a text that is tried.
const LONGEST: usize = 10_000;

/// The declarations before the axiom.
const DECLARED: &str = "[] module M sort S{} [] sort T{} [] symbol p{}() : S{} [constructor{}()] \
    symbol f{}(S{}) : S{} [constructor{}()] symbol g{}(S{}) : T{} [constructor{}()] \
    symbol h{}(S{},S{}) : T{} [constructor{}()] symbol e{}(S{}) : S{} [function{}()] ";

/// The number of the refusal of this axiom, and its byte after the declarations.
fn refusal(alloc: Global, axiom: &str) -> Result<Option<(u8, u32)>, Fail> {
    let text = format!(in alloc; "{DECLARED}{axiom} endmodule []")?;
    if text.len() > LONGEST {
        return Err(Fail::from("long"));
    }
    match accept(alloc, text.as_bytes()) {
        Ok(_) => Ok(None),
        Err(Refusal::Refused(number, byte)) => {
            Ok(Some((number, byte.saturating_sub(DECLARED.len() as u32))))
        }
        Err(Refusal::Memory) => Err(Fail::from("out of memory")),
    }
}

/// Axioms with their refusal: names that are good, names that stand elsewhere, an `\and` of other
/// patterns, a wrong sort, and an `\and` that is a whole side.
static AXIOMS: [(&str, Option<(u8, u32)>); 15] = [
    (
        "axiom{} \\rewrites{T{}}(g{}(\\and{S{}}(f{}(X:S{}),Y:S{})),h{}(X:S{},Y:S{})) []",
        None,
    ),
    (
        "axiom{} \\rewrites{T{}}(g{}(\\and{S{}}(Y:S{},f{}(X:S{}))),h{}(X:S{},Y:S{})) []",
        None,
    ),
    (
        "axiom{} \\rewrites{T{}}(g{}(\\and{S{}}(\\and{S{}}(f{}(X:S{}),Y:S{}),Z:S{})),h{}(Y:S{},Z:S{})) []",
        None,
    ),
    (
        "axiom{} \\rewrites{T{}}(\\and{T{}}(\\and{T{}}(g{}(X:S{}),Y:T{}),\\top{T{}}()),Y:T{}) []",
        None,
    ),
    (
        "axiom{} \\rewrites{T{}}(g{}(\\left-assoc{}(\\and{S{}}(f{}(X:S{}),Y:S{}))),g{}(Y:S{})) []",
        None,
    ),
    (
        "axiom{} \\rewrites{T{}}(h{}(\\and{S{}}(f{}(X:S{}),Y:S{}),Y:S{}),g{}(X:S{})) []",
        Some((22, 0)),
    ),
    (
        "axiom{} \\rewrites{T{}}(g{}(\\and{S{}}(f{}(X:S{}),X:S{})),g{}(X:S{})) []",
        Some((22, 0)),
    ),
    (
        "axiom{} \\rewrites{T{}}(g{}(\\and{S{}}(X:S{},Y:S{})),g{}(X:S{})) []",
        Some((22, 0)),
    ),
    (
        "axiom{} \\rewrites{T{}}(g{}(\\and{S{}}(p{}(),p{}())),g{}(p{}())) []",
        Some((22, 0)),
    ),
    (
        "axiom{} \\rewrites{T{}}(g{}(\\and{S{}}(X:S{},f{}(Y:S{}),Z:S{})),g{}(X:S{})) []",
        Some((22, 0)),
    ),
    (
        "axiom{} \\rewrites{T{}}(g{}(\\left-assoc{}(\\and{S{}}(f{}(X:S{}),Y:S{},Z:S{}))),g{}(X:S{})) []",
        Some((22, 0)),
    ),
    (
        "axiom{} \\rewrites{T{}}(g{}(\\and{S{}}(f{}(X:S{}),Y:T{})),g{}(X:S{})) []",
        Some((9, 48)),
    ),
    (
        "axiom{} \\rewrites{T{}}(\\and{T{}}(g{}(X:S{}),Y:T{}),g{}(X:S{})) []",
        Some((17, 0)),
    ),
    (
        "axiom{} \\rewrites{T{}}(\\and{T{}}(g{}(X:S{}),Y:T{},Z:T{}),g{}(X:S{})) []",
        Some((13, 0)),
    ),
    (
        "axiom{} \\rewrites{T{}}(g{}(X:S{}),g{}(\\and{S{}}(X:S{},p{}()))) []",
        Some((13, 0)),
    ),
];

#[test]
fn named_sides(rt: HostRuntime) -> Result<(), Fail> {
    for (text, expected) in &AXIOMS {
        assert!(rt; refusal(rt.alloc(), text)? == *expected, "{text}");
    }
    Ok(())
}

/// Whether there is only this name.
fn is_only(names: &[Named], var: u32, at: &[u32], first: bool) -> bool {
    match names {
        [name] => name.var == var && *name.at == *at && name.first == first,
        _ => false,
    }
}

/// Rules with the variable of their only name, its place, and whether it is written first. Variables
/// are numbered as they are written.
static NAMES: [(&str, u32, [u32; 2], bool); 2] = [
    (
        "axiom{} \\rewrites{T{}}(g{}(\\and{S{}}(f{}(X:S{}),Y:S{})),h{}(X:S{},Y:S{})) []",
        1,
        [0, 0],
        false,
    ),
    (
        "axiom{} \\rewrites{T{}}(h{}(p{}(),\\and{S{}}(Y:S{},f{}(X:S{}))),h{}(X:S{},Y:S{})) []",
        0,
        [0, 1],
        true,
    ),
];

#[test]
fn names_of_rules(rt: HostRuntime) -> Result<(), Fail> {
    let alloc = rt.alloc();
    for (axiom, var, at, first) in &NAMES {
        let text = format!(in alloc; "{DECLARED}{axiom} endmodule []")?;
        if text.len() > LONGEST {
            return Err(Fail::from("long"));
        }
        let Ok(program) = accept(alloc, text.as_bytes()) else {
            return Err(Fail::from("refused"));
        };
        let [rule] = program.rules.as_slice() else {
            return Err(Fail::from("not one rule"));
        };
        assert!(rt; is_only(&rule.named, *var, at, *first), "{axiom}");
    }
    Ok(())
}

/// An equation of the function e whose argument's pattern has a name.
const EQUATION: &str = "axiom{R} \\equals{S{},R}(e{}(\\and{S{}}(f{}(X:S{}),Y:S{})),Y:S{}) []";

#[test]
fn name_in_an_equation(rt: HostRuntime) -> Result<(), Fail> {
    let alloc = rt.alloc();
    let text = format!(in alloc; "{DECLARED}{EQUATION} endmodule []")?;
    if text.len() > LONGEST {
        return Err(Fail::from("long"));
    }
    let Ok(program) = accept(alloc, text.as_bytes()) else {
        return Err(Fail::from("refused"));
    };
    let mut found = 0;
    for equations in program.equations.iter() {
        if let [equation] = equations.as_slice() {
            if is_only(&equation.named, 1, &[0], false) {
                found = 1;
            }
        }
    }
    assert!(rt; found == 1);
    Ok(())
}
