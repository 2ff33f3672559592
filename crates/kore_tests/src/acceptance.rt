// Definitions and terms, each with the fault that is expected of it.
use kore_rules::{Refusal, accept, accept_term};
use rule_core::{Program, SymKind};
use std::alloc::Global;
use std::test::Fail;

/// The greatest length in bytes of a text that is tried.
const LONGEST: usize = 10_000;

/// The declarations before the axioms.
const DECLARED: &str =
    "[] module M sort S{} [] sort T{} [] hooked-sort B{} [hook{}(\"BOOL.Bool\")] hooked-sort I{} \
    [hook{}(\"INT.Int\")] symbol a{}() : S{} [constructor{}()] symbol b{}() : S{} \
    [constructor{}()] symbol \
    f{}(S{}) : S{} [function{}()] symbol c{}(S{},S{}) : S{} [constructor{}(),assoc{}()] symbol \
    n{}() : S{} \
    [] symbol t{}() : T{} [constructor{}()] symbol i{}(I{}) : S{} [constructor{}()] ";

/// A definition as kompile writes it, shortened: the addition of two numbers.
const ADDITION: &str =
    "[topCellInitializer{}(Lblinit{}())] module BASIC-K sort SortK{} [] sort SortKItem{} [] \
        endmodule [] \
    module KSEQ import BASIC-K [] symbol kseq{}(SortKItem{}, SortK{}) : SortK{} [constructor{}(), \
    functional{}(), injective{}()] symbol dotk{}() : SortK{} [constructor{}(), functional{}(), \
    injective{}()] symbol append{}(SortK{}, SortK{}) : SortK{} [function{}(), functional{}()] \
    axiom{R} \
    \\implies{R}(\\and{R}(\\top{R}(), \\and{R}(\\in{SortK{}, R}(X0:SortK{}, dotk{}()), \
    \\and{R}(\\in{SortK{}, R}(X1:SortK{}, TAIL:SortK{}), \\top{R}()))), \\equals{SortK{}, \
    R}(append{}(X0:SortK{}, X1:SortK{}), \\and{SortK{}}(TAIL:SortK{}, \\top{SortK{}}()))) [] \
    axiom{R} \
    \\implies{R}(\\and{R}(\\top{R}(), \\and{R}(\\in{SortK{}, R}(X0:SortK{}, kseq{}(K:SortKItem{}, \
    KS:SortK{})), \\and{R}(\\in{SortK{}, R}(X1:SortK{}, TAIL:SortK{}), \\top{R}()))), \
    \\equals{SortK{}, \
    R}(append{}(X0:SortK{}, X1:SortK{}), \\and{SortK{}}(kseq{}(K:SortKItem{}, append{}(KS:SortK{}, \
    TAIL:SortK{})), \\top{SortK{}}()))) [] endmodule [] module INJ symbol inj{From, To}(From) : To \
    [sortInjection{}()] axiom{S1, S2, S3, R} \\equals{S3, R}(inj{S2, S3}(inj{S1, S2}(T:S1)), \
    inj{S1, \
    S3}(T:S1)) [simplification{}()] endmodule [] module K import KSEQ [] import INJ [] alias \
    weakExistsFinally{A}(A) : A where weakExistsFinally{A}(@X:A) := @X:A [] endmodule [] module \
    SUM import \
    K [] hooked-sort SortInt{} [hasDomainValues{}(), hook{}(\"INT.Int\")] hooked-sort SortMap{} \
    [hook{}(\"MAP.Map\")] sort SortExp{} [] sort SortKCell{} [] hooked-symbol \
    Lbl'UndsPlus'Int'Unds'{}(SortInt{}, SortInt{}) : SortInt{} [function{}(), hook{}(\"INT.add\"), \
    total{}()] hooked-symbol Lbl'Unds'Map'Unds'{}(SortMap{}, SortMap{}) : SortMap{} [assoc{}(), \
    comm{}(), \
    function{}(), hook{}(\"MAP.concat\")] symbol Lbl'UndsPlusUnds'{}(SortExp{}, SortExp{}) : \
    SortExp{} \
    [constructor{}(), functional{}(), injective{}()] symbol Lbl'-LT-'k'-GT-'{}(SortK{}) : \
    SortKCell{} \
    [cell{}(), constructor{}(), functional{}(), injective{}()] axiom{R} \\exists{R}(Val:SortExp{}, \
    \\equals{SortExp{}, R}(Val:SortExp{}, inj{SortInt{}, SortExp{}}(From:SortInt{}))) \
    [subsort{SortInt{}, \
    SortExp{}}()] axiom{R} \\exists{R}(Val:SortKItem{}, \\equals{SortKItem{}, R}(Val:SortKItem{}, \
    inj{SortExp{}, SortKItem{}}(From:SortExp{}))) [subsort{SortExp{}, SortKItem{}}()] axiom{R} \
    \\equals{SortMap{}, R}(Lbl'Unds'Map'Unds'{}(K1:SortMap{}, K2:SortMap{}), \
    Lbl'Unds'Map'Unds'{}(K2:SortMap{}, K1:SortMap{})) [comm{}()] axiom{} \\bottom{SortMap{}}() \
    [constructor{}()] axiom{} \
    \\rewrites{SortKCell{}}(\\and{SortKCell{}}(Lbl'-LT-'k'-GT-'{}(kseq{}(inj{SortExp{}, \
    SortKItem{}}(Lbl'UndsPlusUnds'{}(inj{SortInt{}, SortExp{}}(VarI:SortInt{}), inj{SortInt{}, \
    SortExp{}}(VarJ:SortInt{}))), VarR:SortK{})), \\top{SortKCell{}}()), \
    \\and{SortKCell{}}(Lbl'-LT-'k'-GT-'{}(kseq{}(inj{SortInt{}, \
    SortKItem{}}(Lbl'UndsPlus'Int'Unds'{}(VarI:SortInt{}, VarJ:SortInt{})), VarR:SortK{})), \
    \\top{SortKCell{}}())) [label{}(\"plus\")] endmodule []";

/// The number and the byte of the refusal of a definition, or None if it is accepted.
fn refusal(alloc: Global, text: &str) -> Result<Option<(u8, u32)>, Fail> {
    if text.len() > LONGEST {
        return Err(Fail::from("long"));
    }
    match accept(alloc, text.as_bytes()) {
        Ok(_) => Ok(None),
        Err(Refusal::Refused(number, byte)) => Ok(Some((number, byte))),
        Err(Refusal::Memory) => Err(Fail::from("out of memory")),
    }
}

/// The number and the byte of the refusal of a term of an accepted definition.
fn refusal_of_term(alloc: Global, definition: &str, term: &str) -> Result<Option<(u8, u32)>, Fail> {
    if definition.len() > LONGEST || term.len() > LONGEST {
        return Err(Fail::from("long"));
    }
    let Ok(program) = accept(alloc, definition.as_bytes()) else {
        return Err(Fail::from("refused"));
    };
    match accept_term(alloc, &program, term.as_bytes()) {
        Ok(_) => Ok(None),
        Err(Refusal::Refused(number, byte)) => Ok(Some((number, byte))),
        Err(Refusal::Memory) => Err(Fail::from("out of memory")),
    }
}

/// Definitions with the number and the byte of their refusal.
static DEFINITIONS: [(&str, Option<(u8, u32)>); 16] = [
    ("[] module M # endmodule []", Some((1, 12))),
    (
        "[] module M sort S{} [hook{}(\"\\q\")] endmodule []",
        Some((1, 30)),
    ),
    ("[] module M sort S{} endmodule []", Some((2, 21))),
    ("[] module M endmodule [", Some((2, 23))),
    (
        "[] module M import X [] endmodule [] module M endmodule []",
        Some((5, 37)),
    ),
    ("[] module M import N [] endmodule []", Some((4, 12))),
    (
        "[] module M endmodule [] module N import M [] import O [] sort S{X} [] \
            endmodule []",
        Some((4, 46)),
    ),
    (
        "[] module M import X [] sort S{X} [] axiom{} \\rewrites{U{}}(a{}(),a{}()) [] \
            endmodule [] module N endmodule []",
        None,
    ),
    (
        "[] module M sort S{} [] sort S{X} [] endmodule []",
        Some((5, 24)),
    ),
    (
        "[] module M sort S{} [] symbol a{}() : S{} [] symbol a{}() : U{} [] endmodule \
            []",
        Some((5, 46)),
    ),
    (
        "[] module M symbol a{}() : U{} [] sort S{X} [] endmodule []",
        Some((6, 27)),
    ),
    (
        "[] module M sort S{} [] symbol a{}(\
            S{},S{},S{},S{},S{},S{},S{},S{},S{},S{},S{},S{},S{},S{},S{},S{},S{},S{},S{},S{},\
            S{},S{},S{},S{},S{},S{},S{},S{},S{},S{},S{},S{},S{},S{},S{},S{},S{},S{},S{},S{},\
            S{},S{},S{},S{},S{},S{},S{},S{},S{},S{},S{},S{},S{},S{},S{},S{},S{},S{},S{},S{},\
            S{},S{},S{},S{},S{}\
            ) : S{} [] symbol b{}() : U{} [] endmodule []",
        Some((8, 24)),
    ),
    (
        "[] module M sort S{X} [] symbol a{}() : U{} [] endmodule []",
        Some((10, 12)),
    ),
    (
        "[] module M sort S{} [] axiom{} \\top{S{}}() [subsort{S{},S{}}()] symbol a{}() \
            : U{} [] endmodule []",
        Some((6, 80)),
    ),
    (
        "[] module M sort S{} [] axiom{} \\top{S{}}() [anywhere{}()] axiom{} \
            \\top{S{}}() [subsort{S{},U{}}()] endmodule []",
        Some((6, 92)),
    ),
    (
        "[] module M sort S{} [] axiom{} \\top{S{}}() [anywhere{}()] axiom{} \
            \\top{S{}}() [subsort{S{},S{}}()] endmodule []",
        Some((24, 59)),
    ),
];

/// Faults in the text come first, then those in the names of modules, the declarations, the pairs
/// of sorts and the axioms.
#[test]
fn whole_definitions(rt: HostRuntime) -> Result<(), Fail> {
    for (text, expected) in &DEFINITIONS {
        assert!(rt; refusal(rt.alloc(), text)? == *expected, "{text}");
    }
    Ok(())
}

/// The number of the refusal of these axioms, and its byte after the declarations.
fn refusal_of_axioms(alloc: Global, axioms: &str) -> Result<Option<(u8, u32)>, Fail> {
    let text = format!(in alloc; "{DECLARED}{axioms} endmodule []")?;
    match refusal(alloc, text.as_str())? {
        Some((number, byte)) => Ok(Some((number, byte.saturating_sub(DECLARED.len() as u32)))),
        None => Ok(None),
    }
}

/// Axioms with the number of their refusal and its byte after the declarations.
static AXIOMS: [(&str, Option<(u8, u32)>); 23] = [
    ("axiom{} \\rewrites{S{}}(a{}(),b{}()) []", None),
    (
        "axiom{} \\top{S{}}() [overload{}()] axiom{} \\top{S{}}() [anywhere{}()]",
        Some((21, 0)),
    ),
    (
        "axiom{} \\top{S{}}() [overload{}(),anywhere{}()] axiom{} \
            \\rewrites{U{}}(x{}(),a{}()) []",
        Some((20, 0)),
    ),
    ("axiom{} \\top{S{}}() [subsort{I{},S{}}(),owise{}()]", None),
    (
        "axiom{} \\rewrites{S{}}(a{}(),x{}()) [] axiom{} \\rewrites{U{}}(x{}(),a{}()) \
            []",
        Some((7, 29)),
    ),
    (
        "axiom{} \\rewrites{U{}}(\\or{S{}}(a{}()),\\exists{S{}}(X:S{},b{}())) \
            [priority{}(\"x\")]",
        Some((13, 0)),
    ),
    (
        "axiom{} \\rewrites{U{}}(a{}(),\\exists{S{}}(X:S{},b{}())) [priority{}(\"x\")]",
        Some((15, 0)),
    ),
    (
        "axiom{} \\rewrites{S{}}(a{}(),\\and{S{}}(a{}(),b{}())) [priority{}(\"x\")]",
        Some((16, 0)),
    ),
    (
        "axiom{} \\rewrites{S{}}(\\and{S{}}(a{}(),b{}()),b{}()) [priority{}(\"x\")]",
        Some((17, 0)),
    ),
    (
        "axiom{} \\rewrites{S{}}(c{}(\\and{S{}}(a{}(),b{}()),x{}()),b{}()) \
            [priority{}(\"x\")]",
        Some((22, 0)),
    ),
    (
        "axiom{} \\rewrites{U{}}(a{}(),b{}()) [priority{}(\"\")]",
        Some((23, 0)),
    ),
    ("axiom{} \\rewrites{U{}}(x{}(),b{}()) []", Some((6, 18))),
    (
        "axiom{} \\rewrites{S{}}(a{}(b{}()),x{}()) []",
        Some((8, 23)),
    ),
    ("axiom{} \\rewrites{S{}}(t{}(),x{}()) []", Some((9, 23))),
    (
        "axiom{} \\rewrites{S{}}(i{}(\\dv{I{}}(\"x\")),n{}()) []",
        Some((11, 36)),
    ),
    ("axiom{} \\rewrites{S{}}(n{}(),x{}()) []", Some((25, 23))),
    (
        "axiom{} \\rewrites{S{}}(c{}(f{}(a{}()),b{}()),X:S{}) []",
        Some((12, 0)),
    ),
    (
        "axiom{} \\rewrites{S{}}(c{}(a{}(),b{}()),X:S{}) []",
        Some((14, 0)),
    ),
    ("axiom{} \\rewrites{S{}}(a{}(),X:S{}) []", Some((18, 0))),
    (
        "axiom{} \\rewrites{S{}}(a{}(),b{}()) [] axiom{} \\rewrites{T{}}(t{}(),t{}()) \
            []",
        Some((19, 39)),
    ),
    (
        "axiom{} \\rewrites{S{}}(a{}(),b{}()) [] axiom{} \\rewrites{T{}}(t{}(),X:T{}) \
            []",
        Some((18, 39)),
    ),
    ("axiom{R} \\equals{S{},R}(f{}(x{}()),X:S{}) []", None),
    ("claim{} \\rewrites{U{}}(x{}(),b{}()) []", None),
];

/// Each refusal of an axiom, by its byte after the declarations. The axioms come in the order of
/// the file. In one axiom its form comes first, then its sorts, then its uses.
#[test]
fn axioms(rt: HostRuntime) -> Result<(), Fail> {
    for (axioms, expected) in &AXIOMS {
        assert!(rt;
            refusal_of_axioms(rt.alloc(), axioms)? == *expected,
            "{axioms}"
        );
    }
    Ok(())
}

/// Terms with the number and the byte of their refusal.
static TERMS: [(&str, Option<(u8, u32)>); 20] = [
    ("a{}()", None),
    (" a{}() // c", None),
    ("f{}(a{}())", None),
    ("i{}(\\dv{I{}}(\"007\"))", None),
    ("\\left-assoc{}(c{}(a{}()))", None),
    ("\\left-assoc{}(c{}(a{}(),b{}(),a{}()))", None),
    ("a{}(", Some((2, 4))),
    ("\"x\"", Some((2, 0))),
    ("#", Some((1, 0))),
    ("c{}(x{}(),X:S{})", Some((26, 10))),
    ("c{}(x{}(),\\top{S{}}())", Some((26, 10))),
    ("\\and{S{}}(x{}(),X:S{})", Some((26, 0))),
    ("\\left-assoc{}(\\and{S{}}(a{}(),b{}()))", Some((26, 14))),
    ("c{}(x{}(),t{}())", Some((7, 4))),
    ("c{}(t{}(),x{}())", Some((9, 4))),
    ("a{}(x{}())", Some((8, 0))),
    ("i{}(\\dv{I{}}(\"x\"))", Some((11, 13))),
    ("i{}(\\dv{U{}}(\"x\"))", Some((6, 8))),
    ("n{}()", Some((25, 0))),
    (" t{}()", Some((19, 0))),
];

/// Each refusal of a term, and their order.
#[test]
fn terms(rt: HostRuntime) -> Result<(), Fail> {
    let definition = format!(in rt.alloc();
        "{DECLARED}axiom{{}} \\rewrites{{S{{}}}}(a{{}}(),b{{}}()) [] endmodule []"
    )?;
    for (term, expected) in &TERMS {
        assert!(rt;
            refusal_of_term(rt.alloc(), definition.as_str(), term)? == *expected,
            "{term}"
        );
    }
    Ok(())
}

/// An item `count` times, between two texts.
fn repeated(
    alloc: Global,
    before: &str,
    item: &str,
    count: usize,
    behind: &str,
) -> Result<String, Fail> {
    let mut text = String::from_str(alloc, before)?;
    for _ in 0..count {
        text.push_str(item)?;
    }
    text.push_str(behind)?;
    Ok(text)
}

/// Faults: the bracket that opens the 501st level, and a fold of height 501. A fold of height 500
/// is not too high.
#[test]
fn heights(rt: HostRuntime) -> Result<(), Fail> {
    let definition = format!(in rt.alloc(); "{DECLARED}endmodule []")?;
    for (before, item, count, behind, expected) in [
        ("", "f{}(", 501, "", Some((3, 2001))),
        (
            "\\left-assoc{}(c{}(",
            "a{}(),",
            500,
            "a{}()))",
            Some((3, 0)),
        ),
        ("\\right-assoc{}(c{}(", "a{}(),", 499, "a{}()))", None),
    ] {
        let term = repeated(rt.alloc(), before, item, count, behind)?;
        assert!(rt;
            refusal_of_term(rt.alloc(), definition.as_str(), term.as_str())? == expected,
            "{item}"
        );
    }
    Ok(())
}

/// The kind of the symbol with this name.
fn kind_of(program: &Program, name: &str) -> Option<SymKind> {
    let number = program.sig.symbols.number(name)?;
    Some(program.sig.symbols.value(number)?.kind)
}

/// The number of equations of the symbol with this name.
fn equations_of(program: &Program, name: &str) -> usize {
    match program.sig.symbols.number(name) {
        Some(number) => match program.equations.get(number) {
            Some(equations) => equations.len(),
            None => 0,
        },
        None => 0,
    }
}

/// A definition as kompile writes it is accepted, and so is its term. `append` has two equations.
/// The sum of numbers has the values of its hook. The function with the hook of maps is closed.
#[test]
fn addition(rt: HostRuntime) {
    let term = "Lbl'-LT-'k'-GT-'{}(kseq{}(inj{SortExp{},SortKItem{}}(Lbl'UndsPlusUnds'{}(inj\
        {SortInt{},SortExp{}}(\\dv{SortInt{}}(\"2\")),inj{SortInt{},\
        SortExp{}}(\\dv{SortInt{}}(\"3\")))),dotk{}()))";
    assert!(rt; ADDITION.len() < LONGEST, "long");
    let Ok(program) = accept(rt.alloc(), ADDITION.as_bytes()) else {
        panic!(rt; "refused");
    };
    assert!(rt;
        accept_term(rt.alloc(), &program, term.as_bytes()).is_ok(),
        "the term"
    );
    assert!(rt;
        program.rules.len() == 1 && program.top.is_some(),
        "the rules"
    );
    assert!(rt;
        kind_of(&program, "append") == Some(SymKind::Equations),
        "append"
    );
    assert!(rt;
        equations_of(&program, "append") == 2,
        "the equations of append"
    );
    assert!(rt;
        matches!(
            kind_of(&program, "Lbl'UndsPlus'Int'Unds'"),
            Some(SymKind::Hooked(_))
        ),
        "the sum"
    );
    assert!(rt;
        kind_of(&program, "Lbl'Unds'Map'Unds'") == Some(SymKind::Closed),
        "the map"
    );
}

/// Rules are ordered by priority, and those with the same priority by the order of the file.
#[test]
fn order_of_trial(rt: HostRuntime) -> Result<(), Fail> {
    let text = format!(in rt.alloc();
        "{DECLARED}axiom{{}} \\rewrites{{S{{}}}}(a{{}}(),a{{}}()) [owise{{}}()] \
        axiom{{}} \\rewrites{{S{{}}}}(b{{}}(),a{{}}()) [priority{{}}(\"9\")] \
        axiom{{}} \\rewrites{{S{{}}}}(X:S{{}},a{{}}()) [] \
        axiom{{}} \\rewrites{{S{{}}}}(a{{}}(),b{{}}()) [] endmodule []"
    )?;
    assert!(rt; text.len() <= LONGEST, "long");
    let Ok(program) = accept(rt.alloc(), text.as_bytes()) else {
        panic!(rt; "refused");
    };
    let mut last = (0, 0);
    for rule in &program.rules {
        assert!(rt; last < (rule.priority, rule.at), "{}", rule.at);
        last = (rule.priority, rule.at);
    }
    assert!(rt; program.rules.len() == 4, "the number of rules");
    Ok(())
}

/// No proper prefix of a definition is accepted.
#[test]
fn prefixes(rt: HostRuntime) {
    let text = "[] module A sort S{} [] symbol a{}() : S{} [constructor{}()] symbol b{}() : S{} \
            [constructor{}()] \
        axiom{} \\rewrites{S{}}(\\and{S{}}(a{}(),\\top{S{}}()),\\and{S{}}(b{}(),\\top{S{}}())) [] \
        endmodule []";
    let bytes = text.as_bytes();
    assert!(rt; bytes.len() <= LONGEST, "long");
    for len in 0..bytes.len() {
        match accept(rt.alloc(), &bytes[..len]) {
            Err(Refusal::Refused(number, byte)) => {
                assert!(rt;
                    (number == 1 || number == 2) && byte as usize <= len,
                    "{len}"
                );
            }
            _ => panic!(rt; "accepted at {len}"),
        }
    }
}
