// Equations of the last resort, read beside the other equations of their function, each with what its
// guards are expected to repeat.
ghost use Rattle.rule_core.specs.WellSorted.{IsSignature};
ghost use Rattle.kore_sig.specs.Numbered.{IsNumbered};

use kore_ast::{AxiomDecl, Decl, read_definition};
use kore_axioms::{AxiomClass, class_of};
use kore_equations::{Reading, read_equation, read_last_resort};
use kore_sig::{counted_declarations, has_attribute, signature};
use rule_core::{Equation, Guard, Signature, TextHasher};
use std::alloc::Global;
use std::test::Fail;

/// The greatest length in bytes of a text that is tried.
const LONGEST: usize = 10_000;

/// The symbols, and three equations of the function f.
const DECLARED: &str =
    "sort S{} [] hooked-sort B{} [hook{}(\"BOOL.Bool\")] symbol a{}() : S{} [constructor{}()] \
    symbol p{}(S{}) : S{} [constructor{}()] symbol q{}(S{},S{}) : S{} [constructor{}()] \
    symbol f{}(S{}) : S{} [function{}()] symbol is{}(S{}) : B{} [function{}()] \
    axiom{R} \\equals{S{},R}(f{}(p{}(p{}(V:S{}))),a{}()) [] \
    axiom{R} \\implies{R}(\\and{R}(\\top{R}(),\\and{R}(\\in{S{},R}(X0:S{},q{}(V:S{},W:S{})),\
        \\top{R}())),\\equals{S{},R}(f{}(X0:S{}),V:S{})) [] \
    axiom{R} \\implies{R}(\\equals{B{},R}(is{}(V:S{}),\\dv{B{}}(\"true\")),\
        \\equals{S{},R}(f{}(p{}(V:S{})),V:S{})) [] ";

/// What the last axiom says before the negated pattern, and after it up to its attributes.
const BEFORE: &str = "axiom{R} \\implies{R}(\\and{R}(\\not{R}(";

const AFTER: &str = "),\\and{R}(\\top{R}(),\\and{R}(\\in{S{},R}(X:S{},Y:S{}),\\top{R}()))),\
    \\equals{S{},R}(f{}(X:S{}),Y:S{})) ";

/// The number of an equation, and the order of its variables.
type Repeated = (u32, &'static [u32]);

/// The declarations before the others, the negated pattern and the attributes of an equation of the
/// last resort, and what its guards repeat. None if it is not readable.
struct Row {
    before: &'static str,
    negated: &'static str,
    attributes: &'static str,
    repeated: Option<&'static [Repeated]>,
}

const NO_GUARD: Row = Row {
    before: "",
    negated: "\\bottom{R}()",
    attributes: "[owise{}()]",
    repeated: Some(&[]),
};

const UNREADABLE: Row = Row {
    repeated: None,
    ..NO_GUARD
};

static ROWS: [Row; 17] = [
    NO_GUARD,
    Row {
        negated: "\\or{R}(\\exists{R}(J:S{},\\and{R}(\\top{R}(),\
            \\and{R}(\\in{S{},R}(X:S{},p{}(p{}(J:S{}))),\\top{R}()))),\\bottom{R}())",
        repeated: Some(&[(0, &[0])]),
        ..NO_GUARD
    },
    Row {
        negated: "\\exists{R}(J:S{},\\exists{R}(K:S{},\\and{R}(\\top{R}(),\
            \\and{R}(\\in{S{},R}(X:S{},q{}(K:S{},J:S{})),\\top{R}()))))",
        repeated: Some(&[(1, &[1, 0])]),
        ..NO_GUARD
    },
    Row {
        negated: "\\or{R}(\\exists{R}(J:S{},\\and{R}(\\equals{B{},R}(is{}(J:S{}),\
            \\dv{B{}}(\"true\")),\\and{R}(\\in{S{},R}(X:S{},p{}(J:S{})),\\top{R}()))),\
            \\exists{R}(V:S{},\\exists{R}(W:S{},\\and{R}(\\top{R}(),\
            \\and{R}(\\in{S{},R}(X:S{},q{}(V:S{},W:S{})),\\top{R}())))))",
        repeated: Some(&[(2, &[0]), (1, &[0, 1])]),
        ..NO_GUARD
    },
    // no equation has these patterns under this condition
    Row {
        negated: "\\exists{R}(J:S{},\\and{R}(\\top{R}(),\
            \\and{R}(\\in{S{},R}(X:S{},p{}(J:S{})),\\top{R}())))",
        ..UNREADABLE
    },
    Row {
        negated: "\\exists{R}(J:S{},\\and{R}(\\equals{B{},R}(is{}(J:S{}),\\dv{B{}}(\"true\")),\
            \\and{R}(\\in{S{},R}(X:S{},p{}(p{}(J:S{}))),\\top{R}())))",
        ..UNREADABLE
    },
    // two variables are one
    Row {
        negated: "\\exists{R}(J:S{},\\and{R}(\\top{R}(),\
            \\and{R}(\\in{S{},R}(X:S{},q{}(J:S{},J:S{})),\\top{R}())))",
        ..UNREADABLE
    },
    // a variable is not quantified, is quantified twice, or is another
    Row {
        negated: "\\exists{R}(J:S{},\\and{R}(\\top{R}(),\
            \\and{R}(\\in{S{},R}(X:S{},q{}(J:S{},K:S{})),\\top{R}())))",
        ..UNREADABLE
    },
    Row {
        negated: "\\exists{R}(J:S{},\\exists{R}(J:S{},\\and{R}(\\top{R}(),\
            \\and{R}(\\in{S{},R}(X:S{},q{}(J:S{},K:S{})),\\top{R}()))))",
        ..UNREADABLE
    },
    Row {
        negated: "\\exists{R}(J:S{},\\exists{R}(K:S{},\\and{R}(\\top{R}(),\
            \\and{R}(\\in{S{},R}(X:S{},p{}(p{}(J:S{}))),\\top{R}()))))",
        ..UNREADABLE
    },
    Row {
        negated: "\\exists{R}(K:S{},\\and{R}(\\top{R}(),\
            \\and{R}(\\in{S{},R}(X:S{},p{}(p{}(J:S{}))),\\top{R}())))",
        ..UNREADABLE
    },
    // a variable of another sort
    Row {
        negated: "\\exists{R}(J:B{},\\and{R}(\\top{R}(),\
            \\and{R}(\\in{S{},R}(X:S{},p{}(p{}(J:B{}))),\\top{R}())))",
        ..UNREADABLE
    },
    // a binder in a guard's condition
    Row {
        negated: "\\exists{R}(J:S{},\\and{R}(\\exists{R}(K:S{},\\top{R}()),\
            \\and{R}(\\in{S{},R}(X:S{},p{}(p{}(J:S{}))),\\top{R}())))",
        ..UNREADABLE
    },
    // it is no last resort, or is tried before another equation
    Row {
        attributes: "[]",
        ..UNREADABLE
    },
    Row {
        attributes: "[owise{}(),priority{}(\"49\")]",
        ..UNREADABLE
    },
    // a constructor is associative
    Row {
        before: "symbol c{}(S{},S{}) : S{} [constructor{}(),assoc{}()] ",
        ..UNREADABLE
    },
    Row {
        before: "symbol c{}(S{},S{}) : S{} [function{}(),assoc{}()] ",
        ..NO_GUARD
    },
];

/// The last axiom, read beside the equations before it. None if it is not readable.
fn last_of(alloc: Global, row: &Row) -> Result<Option<Equation>, Fail> {
    let Row {
        before,
        negated,
        attributes,
        repeated: _,
    } = row;
    let text = format!(in alloc;
        "[] module M {DECLARED}{before}{BEFORE}{negated}{AFTER}{attributes} endmodule []"
    )?;
    if text.len() > LONGEST {
        return Err(Fail::from("long"));
    }
    let Ok(definition) = read_definition(alloc, text.as_bytes()) else {
        return Err(Fail::from("unreadable"));
    };
    let Ok(sig) = signature(alloc, TextHasher::without_text(), &definition) else {
        return Err(Fail::from("no signature"));
    };
    let mut others = Vec::new(alloc);
    for decl in counted_declarations(alloc, TextHasher::without_text(), &definition)?.iter() {
        if let Decl::Axiom(decl) = decl {
            if others.len() == 3 {
                return last_equation(alloc, &sig, decl, &others);
            }
            others.push(equation_at(alloc, &sig, decl)?)?;
        }
    }
    Err(Fail::from("too few axioms"))
}

/// The equation that an axiom means.
fn equation_at(alloc: Global, sig: &Signature, decl: &AxiomDecl) -> Result<Equation, Fail>
    requires numbered { IsNumbered sig.now }
    requires signature { IsSignature sig.now }
{
    let AxiomClass::Equates(stated) = class_of(sig, decl) else {
        return Err(Fail::from("no equation"));
    };
    match read_equation(alloc, sig, decl, &stated)? {
        Reading::Equation(equation) => Ok(equation),
        Reading::Unreadable(_) => Err(Fail::from("not readable")),
    }
}

/// The equation of the last resort that an axiom means beside these others.
fn last_equation(
    alloc: Global,
    sig: &Signature,
    decl: &AxiomDecl,
    others: &[Equation],
) -> Result<Option<Equation>, Fail>
    requires numbered { IsNumbered sig.now }
    requires signature { IsSignature sig.now }
{
    let AxiomClass::Equates(stated) = class_of(sig, decl) else {
        return Err(Fail::from("no equation"));
    };
    match read_last_resort(alloc, sig, decl, &stated, others)? {
        Reading::Equation(equation) => Ok(Some(equation)),
        Reading::Unreadable(_) => Ok(None),
    }
}

/// Whether the guards of the equation repeat this.
fn repeats(equation: &Option<Equation>, expected: Option<&[Repeated]>) -> bool {
    match (equation, expected) {
        (Some(equation), Some(expected)) => match &equation.owise {
            Some(guards) => are_repeated(guards, expected),
            None => false,
        },
        (None, None) => true,
        _ => false,
    }
}

/// Whether the guards repeat these equations, with the variables in these orders.
fn are_repeated(guards: &[Guard], expected: &[Repeated]) -> bool {
    if guards.len() != expected.len() {
        return false;
    }
    for (guard, (equation, order)) in guards.iter().zip(expected) {
        if guard.equation != *equation || guard.order.as_slice() != *order {
            return false;
        }
    }
    true
}

/// Each equation of the last resort is read as its guards say, or is not readable.
#[test]
fn last_resorts_beside_others(rt: HostRuntime) -> Result<(), Fail> {
    for row in &ROWS {
        let equation = last_of(rt.alloc(), row)?;
        assert!(rt;
            repeats(&equation, row.repeated),
            "{}{}",
            row.negated,
            row.attributes
        );
    }
    Ok(())
}
