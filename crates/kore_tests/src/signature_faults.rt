// Small definitions, each with its first fault. The number is that of the refusal. In the text a
// caret is before the token of the fault. A definition without a fault has the number 0 and no
// caret.
use kore_ast::read_definition;
use kore_sig::{SigFault, signature};
use rule_core::TextHasher;
use std::alloc::Global;
use std::test::Fail;

/// The greatest length in bytes of a text that is tried.
const LONGEST: usize = 100_000;

/// An import names an earlier module.
static IMPORTS: [(u32, &str); 6] = [
    (4, "[] module M ^import N [] endmodule []"),
    (4, "[] module M ^import M [] endmodule []"),
    (
        4,
        "[] module A ^import B [] endmodule [] module B endmodule [] module M import A [] \
         endmodule []",
    ),
    (
        0,
        "[] module A import B [] endmodule [] module M endmodule []",
    ),
    (
        0,
        "[] module A endmodule [] module M import A [] import A [] endmodule []",
    ),
    (
        4,
        "[] module A endmodule [] module B import A [] endmodule [] module M import B [] sort \
         S{} [] ^import C [] endmodule []",
    ),
];

/// Modules, sorts and symbols have separate name spaces. Only modules that count declare names.
static NAMES: [(u32, &str); 8] = [
    (5, "[] module A endmodule [] ^module A endmodule []"),
    (
        5,
        "[] module A import X [] sort S{T} [] endmodule [] ^module A endmodule [] module M \
         import N [] endmodule []",
    ),
    (
        5,
        "[] module M sort S{} [] ^hooked-sort S{} [] endmodule []",
    ),
    (
        5,
        "[] module A sort S{} [] endmodule [] module M import A [] ^sort S{} [] endmodule []",
    ),
    (
        0,
        "[] module A sort S{} [] endmodule [] module M sort S{} [] endmodule []",
    ),
    (
        5,
        "[] module M sort S{} [] symbol a{}() : S{} [] ^hooked-symbol a{}() : S{} [] endmodule \
         []",
    ),
    (
        0,
        "[] module M sort M{} [] symbol M{}() : M{} [] endmodule []",
    ),
    (
        0,
        "[] module M sort S{} [] symbol a{}() : S{} [] alias a{}() : S{} where a{}() := a{}() \
         [] endmodule []",
    ),
];

/// A sort in a symbol's declaration is one of the symbol's parameters, or a declared sort without
/// arguments.
static SORTS: [(u32, &str); 11] = [
    (
        6,
        "[] module M sort S{} [] symbol a{}(^T{}) : S{} [] endmodule []",
    ),
    (
        6,
        "[] module M sort S{} [] symbol a{}(S{}) : ^T{} [] endmodule []",
    ),
    (
        0,
        "[] module M symbol a{}(S{}) : S{} [] sort S{} [] endmodule []",
    ),
    (
        6,
        "[] module M sort S{} [] symbol a{}() : ^S{S{}} [] endmodule []",
    ),
    (
        6,
        "[] module M sort S{} [] symbol a{Y}() : ^X [] endmodule []",
    ),
    (0, "[] module M symbol a{X}(X) : X [] endmodule []"),
    (
        6,
        "[] module M sort S{} [] symbol a{}(^T{},U{}) : U{} [] endmodule []",
    ),
    (
        6,
        "[] module A sort T{} [] endmodule [] module M symbol a{}() : ^T{} [] endmodule []",
    ),
    (
        0,
        "[] module M sort S{} [] alias a{}(T{}) : T{} where a{}(X:T{}) := X:T{} [] endmodule []",
    ),
    (
        0,
        "[] module M axiom{} \\top{T{}}() [] claim{} \\top{T{}}() [] endmodule []",
    ),
    (10, "[] module M ^sort S{X} [] endmodule []"),
];

/// The first of several faults.
static ORDER: [(u32, &str); 6] = [
    (5, "[] module M sort S{} [] ^sort S{X} [] endmodule []"),
    (
        5,
        "[] module M sort S{} [] symbol a{}() : S{} [] ^symbol a{}(T{}) : S{} [] endmodule []",
    ),
    (10, "[] module M ^sort S{X} [] import N [] endmodule []"),
    (4, "[] module M ^import M [] sort S{X} [] endmodule []"),
    (
        10,
        "[] module A ^sort S{X} [] endmodule [] module M import A [] import N [] endmodule []",
    ),
    (
        10,
        "[] module M sort S{} [] axiom{} \\top{S{}}() [subsort{S{},S{}}()] ^sort T{X} [] \
         endmodule []",
    ),
];

/// Pairs of sorts.
static PAIRS: [(u32, &str); 13] = [
    (
        24,
        "[] module M sort S{} [] ^axiom{} \\top{S{}}() [subsort{S{},S{}}()] endmodule []",
    ),
    (
        24,
        "[] module M sort S{} [] sort T{} [] axiom{} \\top{S{}}() [subsort{S{},T{}}()] ^axiom{} \
         \\top{S{}}() [subsort{T{},S{}}()] endmodule []",
    ),
    (
        24,
        "[] module M sort S{} [] sort T{} [] sort U{} [] axiom{} \\top{S{}}() \
         [subsort{S{},T{}}()] axiom{} \\top{S{}}() [subsort{T{},U{}}()] ^axiom{} \\top{S{}}() \
         [subsort{U{},S{}}()] endmodule []",
    ),
    (
        0,
        "[] module M sort S{} [] sort T{} [] axiom{} \\top{S{}}() [subsort{S{},T{}}()] axiom{} \
         \\top{S{}}() [subsort{S{},T{}}()] endmodule []",
    ),
    (
        24,
        "[] module M sort S{} [] sort T{} [] ^axiom{} \\top{S{}}() \
         [anywhere{}(),subsort{S{},T{}}(),subsort{T{},S{}}()] endmodule []",
    ),
    (
        6,
        "[] module M sort S{} [] axiom{} \\top{S{}}() [subsort{S{},^T{}}()] endmodule []",
    ),
    (
        6,
        "[] module M sort S{} [] axiom{R} \\top{R}() [subsort{^R,S{}}()] endmodule []",
    ),
    (
        6,
        "[] module M sort S{} [] axiom{} \\top{S{}}() [subsort{^S{S{}},S{}}()] endmodule []",
    ),
    (
        6,
        "[] module M sort S{} [] axiom{} \\top{S{}}() [subsort{^T{},U{}}()] endmodule []",
    ),
    (
        0,
        "[] module M sort S{} [] axiom{} \\top{S{}}() \
         [subsort{S{}}(),subsort{S{},S{},S{}}(),subsort{S{},S{}}(a{}())] endmodule []",
    ),
    (
        0,
        "[] module M sort S{} [] claim{} \\top{S{}}() [subsort{S{},S{}}()] endmodule []",
    ),
    (
        0,
        "[] module A sort S{} [] axiom{} \\top{S{}}() [subsort{S{},S{}}()] endmodule [] module \
         M endmodule []",
    ),
    (
        24,
        "[] module M sort S{} [] ^axiom{} \\top{S{}}() [subsort{S{},S{}}()] axiom{} \
         \\top{S{}}() [subsort{T{},S{}}()] endmodule []",
    ),
];

/// The number of the refusal, and its byte.
fn number_and_byte(fault: SigFault) -> (u32, u32) {
    match fault {
        SigFault::Import(at) => (4, at),
        SigFault::Duplicate(at) => (5, at),
        SigFault::UnknownSort(at) => (6, at),
        SigFault::Arity(at) => (8, at),
        SigFault::SortParameter(at) => (10, at),
        SigFault::SubsortCycle(at) => (24, at),
        SigFault::Memory => (1_000, 0),
    }
}

/// The number and the byte of the first fault of a definition's text, or (0, 0) if it has no fault.
fn first_fault(alloc: Global, text: &str) -> (u32, u32) {
    if text.len() > LONGEST {
        return (1_001, 0);
    }
    match read_definition(alloc, text.as_bytes()) {
        Ok(definition) => match signature(alloc, TextHasher::without_text(), &definition) {
            Ok(_) => (0, 0),
            Err(fault) => number_and_byte(fault),
        },
        Err(_) => (1_002, 0),
    }
}

/// Whether the definition has the fault that its text shows.
fn has_fault(alloc: Global, number: u32, text: &str) -> Result<bool, Fail> {
    let Some((before, after)) = text.split_once('^') else {
        return Ok(first_fault(alloc, text) == (number, 0));
    };
    let whole = format!(in alloc; "{before}{after}")?;
    let (found, byte) = first_fault(alloc, whole.as_str());
    Ok(found == number && byte as usize == before.len())
}

#[test]
fn first_faults(rt: HostRuntime) -> Result<(), Fail> {
    for table in [IMPORTS.as_slice(), &NAMES, &SORTS, &ORDER, &PAIRS] {
        for (number, text) in table {
            assert!(rt; has_fault(rt.alloc(), *number, text)?, "{text}");
        }
    }
    Ok(())
}

/// A symbol with this many arguments, the last one as given, after the text `front`.
fn wide_symbol(alloc: Global, front: &str, arguments: usize, last: &str) -> Result<String, Fail> {
    let mut text = format!(in alloc; "[] module M sort S{{}} [] {front}symbol a{{}}(")?;
    for _ in 1..arguments {
        text.push_str("S{},")?;
    }
    text.push_str(last)?;
    text.push_str("{}) : S{} [] endmodule []")?;
    Ok(text)
}

// 64 arguments are allowed. An unknown sort comes before too many arguments.
#[test]
fn arities(rt: HostRuntime) -> Result<(), Fail> {
    let alloc = rt.alloc();
    let cases = [
        (8, "^", 65, "S"),
        (0, "", 64, "S"),
        (6, "", 65, "^T"),
        (6, "", 64, "^T"),
    ];
    for (number, front, arguments, last) in cases {
        let text = wide_symbol(alloc, front, arguments, last)?;
        assert!(rt;
            has_fault(alloc, number, text.as_str())?,
            "{arguments} {last}"
        );
    }
    Ok(())
}
