// Definitions, each with the signature that is expected of it.
use kore_ast::{Decl, read_definition};
use kore_sig::{
    counted_declarations, first_of_name, has_attribute, signature, signature_laws, sort_number,
    text_of,
};
use rule_core::{Signature, SortInfo, SortRef, SymInfo, Table, TextHasher};
use std::alloc::Global;
use std::test::Fail;
use term_core::SortId;

/// The greatest length in bytes of a text that is tried.
const LONGEST: usize = 100_000;

/// Injections of nested subsorts, and constructors.
const NESTED_INJECTIONS: &str =
    "[] module C hooked-sort SortInt{} [hook{}(\"INT.Int\")] sort SortAExp{} [] \
    sort SortStmt{} [] sort SortKItem{} [] sort T{} [] \
    symbol inj{From,To}(From) : To [sortInjection{}()] \
    axiom{R} \\top{R}() [subsort{SortInt{},SortAExp{}}()] axiom{R} \\top{R}() [subsort{SortAExp{},\
    SortStmt{}}()] \
    axiom{R} \\top{R}() [subsort{SortAExp{},SortKItem{}}()] \
    symbol k{}(SortKItem{}) : T{} [constructor{}()] symbol done{}(SortStmt{}) : T{} \
    [constructor{}()] endmodule []";

/// Functions with hooks. Not all of the hooks are of integers.
const INTEGER_FUNCTIONS: &str = "[] module D hooked-sort SortInt{} [hook{}(\"INT.Int\")] \
    hooked-sort SortBool{} [hook{}(\"BOOL.Bool\")] hooked-sort SortString{} \
    [hook{}(\"STRING.String\")] \
    symbol n{}(SortInt{}) : SortBool{} [constructor{}()] \
    hooked-symbol add{}(SortInt{},SortInt{}) : SortInt{} [function{}(),hook{}(\"INT.add\")] \
    hooked-symbol len{}(SortString{}) : SortInt{} [function{}(),hook{}(\"STRING.length\")] \
    endmodule []";

/// Two modules that are reached and one that is not. Each declaration may use the sorts of the
/// others.
const APPEND_LIST: &str = "[] module BASIC-K sort SortK{} [] sort SortKItem{} [] endmodule [] \
    module OTHER sort SortK{} [] symbol kseq{}() : SortK{} [] endmodule [] \
    module KSEQ import BASIC-K [] \
    symbol kseq{}(SortKItem{},SortK{}) : SortK{} [constructor{}(),functional{}(),injective{}()] \
    symbol append{}(SortK{},SortK{}) : SortK{} [function{}(),functional{}()] endmodule [] \
    module G import KSEQ [] sort T{} [] symbol p{}() : SortKItem{} [constructor{}()] \
    symbol k{}(SortK{}) : T{} [constructor{}()] endmodule []";

/// A definition as kompile writes it, shortened. An axiom says that a map is commutative, and the
/// injection is in another module.
const ADDITION: &str = "[topCellInitializer{}(Lblinit{}())] \
    module INJ symbol inj{From, To}(From) : To [sortInjection{}()] \
    axiom{S1, S2, S3, R} \\equals{S3, R}(inj{S2, S3}(inj{S1, S2}(T:S1)), inj{S1, S3}(T:S1)) \
    [simplification{}()] \
    endmodule [] module K import INJ [] \
    alias weakExistsFinally{A}(A) : A where weakExistsFinally{A}(@X:A) := @X:A [] endmodule [] \
    module SUM import K [] hooked-sort SortInt{} [hasDomainValues{}(), hook{}(\"INT.Int\")] \
    hooked-sort SortMap{} [hook{}(\"MAP.Map\")] sort SortExp{} [] \
    hooked-symbol Lbl'Unds'Map'Unds'{}(SortMap{}, SortMap{}) : SortMap{} [function{}(), \
    hook{}(\"MAP.concat\")] \
    symbol Lbl'UndsPlusUnds'{}(SortExp{}, SortExp{}) : SortExp{} [constructor{}(), functional{}()] \
    axiom{R} \\exists{R}(V:SortExp{}, \\equals{SortExp{}, R}(V:SortExp{}, inj{SortInt{}, \
    SortExp{}}(F:SortInt{}))) \
    [subsort{SortInt{}, SortExp{}}()] // subsort\n\
    axiom{R} \\equals{SortMap{}, R}(Lbl'Unds'Map'Unds'{}(K1:SortMap{}, K2:SortMap{}), \
    Lbl'Unds'Map'Unds'{}(K2:SortMap{}, K1:SortMap{})) [comm{}()] \
    axiom{} \\bottom{SortMap{}}() [constructor{}()] // no junk\n\
    endmodule []";

/// A symbol of each kind, and edge cases of the kinds.
const KINDS: &str = "[] module M sort S{} [hook{}()] symbol same{A,A}(A) : A [sortInjection{}()] \
    symbol inj{A,B}(A) : B [function{}(),sortInjection{}()] symbol again{A,B}(A) : B \
    [sortInjection{}()] \
    symbol f{}() : S{} [constructor{}(),function{}(),hook{}(),assoc{S{}}(a{}())] \
    symbol g{A}() : A [function{}()] symbol h{A}() : A [constructor{}()] symbol i{}() : S{} \
    [\\top{S{}}()] \
    symbol u{}() : S{} [] symbol v{}() : S{} [hook{}(\"x\"),hook{}(\"y\")] \
    axiom{} \\equals{S{},S{}}(u{}(),u{}()) [unit{}()] claim{} \\equals{S{},S{}}(v{}(),v{}()) \
    [unit{}()] \
    axiom{} \\equals{S{},S{}}(g{S{}}(),v{}()) [idem{}()] endmodule []";

/// A sort in a declaration: its name, or `#` and its place if it is a parameter.
fn shown_sort(alloc: Global, sorts: &Table<SortInfo>, of: SortRef) -> Result<String, Fail> {
    match of {
        SortRef::Param(place) => Ok(format!(in alloc; "#{place}")?),
        SortRef::Sort(sort) => match sorts.name(sort.0 as usize) {
            Some(name) => Ok(String::from_str(alloc, name)?),
            None => Ok(String::from_str(alloc, "?")?),
        },
    }
}

/// A symbol: its kind, its parameters, the sorts of its arguments and of its result, its hook, and
/// whether it is AC.
fn shown_symbol(alloc: Global, sorts: &Table<SortInfo>, info: &SymInfo) -> Result<String, Fail> {
    let mut text = format!(in alloc; "{:?} {} (", info.kind, info.params)?;
    for arg in &info.args {
        text.push_str(shown_sort(alloc, sorts, *arg)?.as_str())?;
        text.push_str(",")?;
    }
    let value = shown_sort(alloc, sorts, info.result)?;
    text.push_str(format!(in alloc; ") {value}")?.as_str())?;
    if let Some(hook) = &info.hook {
        text.push_str(format!(in alloc; " hook {hook}")?.as_str())?;
    }
    if info.ac {
        text.push_str(" ac")?;
    }
    Ok(text)
}

/// The sorts, the symbols and the pairs of a signature, each on its own line.
fn shown_signature(alloc: Global, sig: &Signature) -> Result<String, Fail> {
    let mut text = String::new(alloc);
    for i in 0..sig.sorts.len() {
        if let (Some(name), Some(info)) = (sig.sorts.name(i), sig.sorts.value(i)) {
            text.push_str(format!(in alloc; "{name}: {:?}\n", info.kind)?.as_str())?;
        }
    }
    for i in 0..sig.symbols.len() {
        if let (Some(name), Some(info)) = (sig.symbols.name(i), sig.symbols.value(i)) {
            let symbol = shown_symbol(alloc, &sig.sorts, info)?;
            text.push_str(format!(in alloc; "{name}: {symbol}\n")?.as_str())?;
        }
    }
    for i in 0..20 {
        for j in 0..20 {
            if sig.subsorts.pair(SortId(i), SortId(j)) {
                text.push_str(format!(in alloc; "{i} below {j}\n")?.as_str())?;
            }
        }
    }
    Ok(text)
}

/// The signature of a definition's text, or a word if it has none.
fn shown(alloc: Global, text: &str) -> Result<String, Fail> {
    if text.len() > LONGEST {
        return Ok(String::from_str(alloc, "long")?);
    }
    match read_definition(alloc, text.as_bytes()) {
        Ok(definition) => match signature(alloc, TextHasher::without_text(), &definition) {
            Ok(sig) => shown_signature(alloc, &sig),
            Err(fault) => Ok(format!(in alloc; "{fault}")?),
        },
        Err(_) => Ok(String::from_str(alloc, "unreadable")?),
    }
}

/// Definitions with their signatures.
static SIGNATURES: [(&str, &str); 6] = [
    (
        NESTED_INJECTIONS,
        "SortInt: Int\nSortAExp: Other\nSortStmt: Other\nSortKItem: Other\nT: Other\n\
         inj: Injection 2 (#0,) #1\nk: Ctor 0 (SortKItem,) T\ndone: Ctor 0 (SortStmt,) T\n\
         0 below 1\n1 below 2\n1 below 3\n",
    ),
    (
        INTEGER_FUNCTIONS,
        "SortInt: Int\nSortBool: Bool\nSortString: Other\nn: Ctor 0 (SortInt,) SortBool\n\
         add: Equations 0 (SortInt,SortInt,) SortInt hook INT.add\n\
         len: Equations 0 (SortString,) SortInt hook STRING.length\n",
    ),
    (
        APPEND_LIST,
        "SortK: Other\nSortKItem: Other\nT: Other\nkseq: Ctor 0 (SortKItem,SortK,) SortK\n\
         append: Equations 0 (SortK,SortK,) SortK\np: Ctor 0 () SortKItem\nk: Ctor 0 (SortK,) \
         T\n",
    ),
    (
        ADDITION,
        "SortInt: Int\nSortMap: Map\nSortExp: Other\ninj: Injection 2 (#0,) #1\n\
         Lbl'Unds'Map'Unds': Equations 0 (SortMap,SortMap,) SortMap hook MAP.concat ac\n\
         Lbl'UndsPlusUnds': Ctor 0 (SortExp,SortExp,) SortExp\n0 below 2\n",
    ),
    (
        KINDS,
        "S: Other\nsame: NoKind 2 (#0,) #0\ninj: Injection 2 (#0,) #1\nagain: NoKind 2 (#0,) \
            #1\n\
         f: Equations 0 () S hook  ac\ng: Closed 1 () #0\nh: NoKind 1 () #0\ni: NoKind 0 () S\n\
         u: NoKind 0 () S ac\nv: NoKind 0 () S hook x\n",
    ),
    (
        "[] module M import N [] endmodule []",
        "import of no earlier module at 12",
    ),
];

#[test]
fn signatures(rt: HostRuntime) -> Result<(), Fail> {
    for (text, expected) in &SIGNATURES {
        assert_eq!(rt; shown(rt.alloc(), text)?.as_str(), *expected, "{text}");
    }
    signature_laws();
    Ok(())
}

// What other crates read: the declarations that count, attributes by name, and sorts by number.
#[test]
fn declarations_attributes_and_sorts(rt: HostRuntime) -> Result<(), Fail> {
    let alloc = rt.alloc();
    let text = "[] module A sort S{} [] endmodule [] module B sort T{} [] symbol a{X}(X) : T{} [] \
                endmodule [] module M import B [] \
                axiom{} X:T{} [a{}(\"x\"),a{}(\"y\"),b{}(\"x\",\"y\")] endmodule []";
    assert!(rt; text.len() <= LONGEST, "long");
    let Ok(definition) = read_definition(alloc, text.as_bytes()) else {
        panic!(rt; "unreadable");
    };
    let decls = counted_declarations(alloc, TextHasher::without_text(), &definition)?;
    assert_eq!(rt; decls.len(), 4);
    let Some(Decl::Axiom(stated)) = decls.last() else {
        panic!(rt; "no axiom");
    };
    assert!(rt; has_attribute(&stated.attrs, "b") && !has_attribute(&stated.attrs, "c"));
    let Some(first) = first_of_name(&stated.attrs, "a") else {
        panic!(rt; "no attribute");
    };
    assert_eq!(rt; text_of(first).map(|text| text.as_str()), Some("x"));
    let Ok(sig) = signature(alloc, TextHasher::without_text(), &definition) else {
        panic!(rt; "no signature");
    };
    let Some(Decl::SymbolDecl(symbol)) = decls.get(1) else {
        panic!(rt; "no symbol");
    };
    assert_eq!(rt; sort_number(&sig.sorts, &symbol.result), Some(0));
    for arg in &symbol.args {
        assert_eq!(rt; sort_number(&sig.sorts, arg), None);
    }
    Ok(())
}
