// Worked texts: which of them are read, and as which trees.

use kore_ast::{Decl, PatForm, ReadFault, SortForm, read_definition, read_pattern};
use kore_text::Op;
use std::alloc::{AllocError, Global};
use std::test::Fail;

/// The greatest length in bytes of a text that is tried.
const LONGEST: usize = 100_000;

/// The result of a reading, as the tables write it.
fn shown<X: Drop>(alloc: Global, read: Result<X, ReadFault>) -> Result<String, AllocError> {
    match read {
        Ok(_) => String::from_str(alloc, "read"),
        Err(ReadFault::Lex(at)) => format!(in alloc; "lex {at}"),
        Err(ReadFault::Syntax(at)) => format!(in alloc; "syntax {at}"),
        Err(ReadFault::Deep(at)) => format!(in alloc; "deep {at}"),
        Err(ReadFault::Memory) => String::from_str(alloc, "memory"),
    }
}

/// The result for a pattern's text.
fn of_pattern(alloc: Global, text: &str) -> Result<String, AllocError> {
    if text.len() > LONGEST {
        return Ok(String::new(alloc));
    }
    shown(alloc, read_pattern(alloc, text.as_bytes()))
}

/// The result for a definition's text.
fn of_definition(alloc: Global, text: &str) -> Result<String, AllocError> {
    if text.len() > LONGEST {
        return Ok(String::new(alloc));
    }
    shown(alloc, read_definition(alloc, text.as_bytes()))
}

/// Patterns, and how they are read.
static PATTERNS: [(&str, &str); 10] = [
    ("a{}()", "read"),
    (" a // \n{ /* ) */ } (\t) //", "read"),
    ("f{S,T{U{}}}(X:S{},@Y:T,\\top{S}())", "read"),
    ("\\exists{S}(X:S,\\mu{}(@Y:S,@Y:S))", "read"),
    ("\\dv{S{}}(\"\\x41\")", "read"),
    ("\\left-assoc{}(f{}(a{}(),b{}()))", "read"),
    ("", "syntax 0"),
    ("a{}() a{}()", "syntax 6"),
    ("\"text\"", "syntax 0"),
    ("a_b{}()", "lex 1"),
];

#[test]
fn patterns(rt: HostRuntime) -> Result<(), Fail> {
    for (text, result) in &PATTERNS {
        assert_eq!(rt; of_pattern(rt.alloc(), text)?.as_str(), *result, "{text}");
    }
    Ok(())
}

/// Definitions, and how they are read.
static DEFINITIONS: [(&str, &str); 7] = [
    ("[] module M endmodule []", "read"),
    (
        "[a{}(\"x\"), b{}()] module M import N [] hooked-sort S{A} [] symbol a{}() : S{} [] \
         axiom{R} \\top{R}() [] claim{} a{}() [c{}(\"\")] endmodule [] module N endmodule []",
        "read",
    ),
    (
        "[] module M alias a{}(S) : S where a{S}(X:S) := a{}() [] endmodule []",
        "read",
    ),
    ("[] module module sort sort{} [] endmodule []", "read"),
    ("", "syntax 0"),
    ("[a{}(\"x", "lex 5"),
    ("[] module M", "syntax 11"),
];

#[test]
fn definitions(rt: HostRuntime) -> Result<(), Fail> {
    for (text, result) in &DEFINITIONS {
        assert_eq!(rt;
            of_definition(rt.alloc(), text)?.as_str(),
            *result,
            "{text}"
        );
    }
    Ok(())
}

#[test]
fn tree_of_a_pattern(rt: HostRuntime) -> Result<(), Fail> {
    let pattern = read_pattern(rt.alloc(), b" \\and{S{}}(a{}(), b{}())")?;
    assert_eq!(rt; pattern.at, 1);
    let PatForm::Built(op, sorts, args) = &pattern.form else {
        panic!(rt; "a connective");
    };
    assert_eq!(rt; *op, Op::And);
    assert_eq!(rt; sorts.len(), 1);
    assert_eq!(rt; sorts[0].at, 6);
    if let SortForm::App(name, _) = &sorts[0].form {
        assert_eq!(rt; name.as_str(), "S");
    }
    assert_eq!(rt; args.len(), 2);
    assert_eq!(rt; args[1].at, 18);
    if let PatForm::App(name, _, _) = &args[1].form {
        assert_eq!(rt; name.as_str(), "b");
    }
    Ok(())
}

#[test]
fn tree_of_a_definition(rt: HostRuntime) -> Result<(), Fail> {
    let text = b"[]\nmodule M\nsort S{} []\nsymbol f{}(S{},S{}) : S{} [c{}()]\nendmodule []\n";
    let definition = read_definition(rt.alloc(), text)?;
    assert_eq!(rt; definition.modules.len(), 1);
    let module = &definition.modules[0];
    assert_eq!(rt; module.at, 3);
    assert_eq!(rt; module.name.as_str(), "M");
    assert_eq!(rt; module.decls.len(), 2);
    if let Decl::SymbolDecl(symbol) = &module.decls[1] {
        assert_eq!(rt; symbol.at, 24);
        assert_eq!(rt; symbol.name.as_str(), "f");
        assert_eq!(rt; symbol.args.len(), 2);
        assert_eq!(rt; symbol.attrs.len(), 1);
    }
    Ok(())
}
