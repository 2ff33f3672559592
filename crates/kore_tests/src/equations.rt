// Axioms, each with the equation that it is expected to mean.
ghost use Rattle.rule_core.specs.WellSorted.{IsSignature};
ghost use Rattle.kore_sig.specs.Numbered.{IsNumbered};

use kore_ast::{AxiomDecl, Decl, read_definition};
use kore_axioms::{AxiomClass, class_of};
use kore_equations::{Reading, read_equation};
use kore_sig::{counted_declarations, signature};
use rule_core::{Equation, Signature, TextHasher};
use std::alloc::Global;
use std::test::Fail;

/// The greatest length in bytes of a text that is tried.
const LONGEST: usize = 10_000;

/// The declarations before the axiom.
const DECLARED: &str =
    "[] module M sort S{} [] sort T{} [] hooked-sort B{} [hook{}(\"BOOL.Bool\")] \
    hooked-sort I{} [hook{}(\"INT.Int\")] symbol a{}() : S{} [constructor{}()] symbol t{}() : T{} \
    [constructor{}()] \
    symbol p{}(S{}) : S{} [constructor{}()] symbol c{}(S{},S{}) : S{} [constructor{}(),assoc{}()] \
    symbol i{}(I{}) : S{} [constructor{}()] symbol n{}() : S{} [] symbol f{}(S{}) : S{} \
    [function{}()] \
    symbol g{}() : S{} [function{}()] symbol h{}(S{},S{}) : S{} [function{}()] \
    symbol m{}(S{}) : S{} [function{}(),comm{}()] symbol is{}(S{}) : B{} [function{}()] ";

/// How many parameters, arguments and variables an equation has, and whether it has a condition.
type Counts = (u32, usize, usize, bool);

fn counts_of(equation: &Equation) -> Counts {
    (
        equation.params,
        equation.args.len(),
        equation.vars.len(),
        equation.cond.is_some(),
    )
}

/// The counts of the equation that the only axiom means, or None if it is not readable.
fn counts_in(alloc: Global, axiom: &str) -> Result<Option<Counts>, Fail> {
    let text = format!(in alloc; "{DECLARED}axiom{{R}} {axiom} endmodule []")?;
    if text.len() > LONGEST {
        return Err(Fail::from("long"));
    }
    let Ok(definition) = read_definition(alloc, text.as_bytes()) else {
        return Err(Fail::from("unreadable"));
    };
    let Ok(sig) = signature(alloc, TextHasher::without_text(), &definition) else {
        return Err(Fail::from("no signature"));
    };
    for decl in counted_declarations(alloc, TextHasher::without_text(), &definition)?.iter() {
        if let Decl::Axiom(decl) = decl {
            return counts_at(alloc, &sig, decl);
        }
    }
    Err(Fail::from("no axiom"))
}

fn counts_at(alloc: Global, sig: &Signature, decl: &AxiomDecl) -> Result<Option<Counts>, Fail>
    requires numbered { IsNumbered sig.now }
    requires signature { IsSignature sig.now }
{
    let AxiomClass::Equates(stated) = class_of(sig, decl) else {
        return Err(Fail::from("no equation"));
    };
    match read_equation(alloc, sig, decl, &stated)? {
        Reading::Equation(equation) => Ok(Some(counts_of(&equation))),
        Reading::Unreadable(_) => Ok(None),
    }
}

/// Axioms with the counts of their equations.
static READABLE: [(&str, Counts); 8] = [
    (
        "\\equals{S{},R}(f{}(a{}()),p{}(a{}())) []",
        (0, 1, 0, false),
    ),
    (
        "\\equals{S{},R}(f{}(p{}(X:S{})),\\and{S{}}(f{}(X:S{}),\\top{S{}}())) \
            [priority{}(\"9\")]",
        (0, 1, 1, false),
    ),
    (
        "\\implies{R}(\\top{R}(),\\equals{S{},R}(h{}(X:S{},Y:S{}),c{}(Y:S{},X:S{}))) []",
        (0, 2, 2, false),
    ),
    (
        "\\implies{R}(\\equals{B{},R}(is{}(X:S{}),\\dv{B{}}(\"true\")),\\equals{S{},\
            R}(f{}(X:S{}),X:S{})) []",
        (0, 1, 1, true),
    ),
    (
        "\\implies{R}(\\and{R}(\\top{R}(),\\and{R}(\\in{S{},R}(X0:S{},p{}(Y:S{})),\
            \\top{R}())), \
        \\equals{S{},R}(f{}(X0:S{}),\\and{S{}}(Y:S{},\\top{S{}}()))) []",
        (1, 1, 1, false),
    ),
    (
        "\\implies{R}(\\and{R}(\\equals{B{},R}(is{}(X:S{}),\\dv{B{}}(\"true\")),\
            \\and{R}(\\in{S{},R}(X0:S{},\
        X:S{}), \
        \\and{R}(\\in{S{},R}(X1:S{},p{}(X:S{})),\\top{R}()))),\\equals{S{},R}(h{}(X0:S{},\
        X1:S{}),a{}())) []",
        (2, 2, 1, true),
    ),
    ("\\equals{S{},R}(g{}(),a{}()) []", (0, 0, 0, false)),
    (
        "\\implies{R}(\\and{R}(\\top{R}(),\\top{R}()),\\equals{S{},R}(g{}(),a{}())) []",
        (0, 0, 0, false),
    ),
];

/// Equations of both forms, with and without a condition.
#[test]
fn readable_equations(rt: HostRuntime) -> Result<(), Fail> {
    for (axiom, expected) in &READABLE {
        assert!(rt; counts_in(rt.alloc(), axiom)? == Some(*expected), "{axiom}");
    }
    Ok(())
}

/// Axioms whose equation is not readable.
static UNREADABLE: [&str; 27] = [
    "\\equals{S{},R}(f{}(X:S{}),X:S{}) [owise{}()]",
    "\\equals{S{},R}(f{}(X:S{}),X:S{}) [priority{}(\"first\")]",
    "\\equals{S{},Q{}}(f{}(X:S{}),X:S{}) []",
    "\\equals{T{},R}(f{}(X:S{}),t{}()) []",
    "\\equals{S{},R}(f{}(X:S{},Y:S{}),X:S{}) []",
    "\\equals{S{},R}(f{}(X:Q{}),a{}()) []",
    "\\equals{S{},R}(f{}(q{}()),a{}()) []",
    "\\equals{S{},R}(f{}(p{}()),a{}()) []",
    "\\equals{S{},R}(f{}(t{}()),a{}()) []",
    "\\equals{S{},R}(f{}(a{}()),t{}()) []",
    "\\equals{S{},R}(f{}(i{}(\\dv{I{}}(\"x\"))),a{}()) []",
    "\\equals{S{},R}(f{}(n{}()),a{}()) []",
    "\\equals{S{},R}(f{}(f{}(X:S{})),X:S{}) []",
    "\\equals{S{},R}(f{}(c{}(X:S{},Y:S{})),X:S{}) []",
    "\\equals{S{},R}(m{}(X:S{}),X:S{}) []",
    "\\equals{S{},R}(f{}(X:S{}),\\or{S{}}(X:S{},a{}())) []",
    "\\equals{S{},R}(f{}(\\and{S{}}(X:S{},p{}(X:S{}))),X:S{}) []",
    "\\equals{S{},R}(f{}(X:S{}),\\exists{S{}}(Y:S{},a{}())) []",
    "\\equals{S{},R}(f{}(X:S{}),\\and{S{}}(X:S{},a{}())) []",
    "\\equals{S{},R}(f{}(X:S{}),\\and{S{}}(\\top{S{}}(),X:S{})) []",
    "\\equals{S{},R}(f{}(a{}()),X:S{}) []",
    "\\implies{R}(\\equals{S{},R}(a{}(),\\dv{S{}}(\"true\")),\\equals{S{},R}(f{}(a{}()),\
        a{}())) []",
    "\\implies{R}(\\equals{B{},R}(is{}(Y:S{}),\\dv{B{}}(\"true\")),\\equals{S{},R}(f{}(X:S{}),\
        X:S{})) []",
    "\\implies{R}(\\and{R}(\\top{R}(),\\top{R}()),\\equals{S{},R}(f{}(a{}()),a{}())) []",
    "\\implies{R}(\\and{R}(\\top{R}(),\\and{R}(\\in{S{},R}(X:S{},Y:S{}),Y:S{})),\\equals{S{},\
      R}(f{}(X:S{}),Y:S{})) []",
    "\\implies{R}(\\and{R}(\\top{R}(),\\and{R}(\\in{S{},R}(Z:S{},Y:S{}),\\top{R}())),\
        \\equals{S{},\
      R}(f{}(X:S{}),Y:S{})) []",
    "\\implies{R}(\\and{R}(\\top{R}(),\\and{R}(\\in{S{},R}(X:S{},Y:S{}),\\top{R}())),\
        \\equals{S{},\
      R}(f{}(X:S{}),X:S{})) []",
];

/// Each reason why an equation is not readable.
#[test]
fn unreadable_equations(rt: HostRuntime) -> Result<(), Fail> {
    for axiom in &UNREADABLE {
        assert!(rt; counts_in(rt.alloc(), axiom)?.is_none(), "{axiom}");
    }
    Ok(())
}
