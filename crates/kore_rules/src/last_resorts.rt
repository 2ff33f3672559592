// Reads the equations of the last resort (`owise`), each beside the other equations of its function.
ghost use Rattle.std.specs.Prelude.{◌≡◌, ◌++◌, ◌∷◌, ◌<◌, [], ℕ, List, length, map, option_map, Some};
ghost use Rattle.std.specs.Prelude.{IfOk, OnOk, Contains, Bool, ◌==◌, ◌||◌, ◌&&◌};
ghost use Rattle.kore_text.specs.Trees.{AxiomDeclaration};
ghost use Rattle.kore_ast.specs.Plain.{plain_axiom_decl};
ghost use Rattle.rule_core.specs.Named.{number_of_name};
ghost use Rattle.rule_core.specs.WellSorted.{IsSignature};
ghost use Rattle.kore_sig.specs.Numbered.{IsNumbered};
ghost use Rattle.kore_shapes.specs.StatementViews.{plain_statement};
ghost use Rattle.kore_equations.specs.MeantEquations.{IsStated};
ghost use Rattle.kore_rules.specs.AxiomsRead.{tree_at, is_marked};
ghost use Rattle.kore_rules.specs.EquationsAmong.{is_last_resort as is_the_last_resort};
ghost use Rattle.kore_rules.specs.LastResortsRead.{StatesLast, IsStatedLast, HaveStated, AreOthers};
ghost use Rattle.kore_rules.specs.LastResortsRead.{HaveReadLast};

use crate::axioms::{mark, no_marks};
use kore_ast::AxiomDecl;
use kore_axioms::{AxiomClass, class_of};
use kore_equations::{Reading, read_last_resort};
use kore_shapes::Statement;
use kore_sig::has_attribute;
use rule_core::{Equation, Signature};
use std::alloc::{AllocError, Global};

/// What is read of equations of the last resort.
#[derive(Drop)]
pub(crate) struct LastResorts {
    /// The equations, in the order of the file.
    pub(crate) equations: Vec<Equation>,
    /// For each symbol, by its number: whether it has an equation that is not readable.
    pub(crate) unreadable: Vec<bool>,
}

/// Whether an axiom has the attribute of an equation of the last resort.
pub(crate) fn is_last_resort(decl: &AxiomDecl) -> bool
    ensures { result ≡ is_the_last_resort (plain_axiom_decl decl.now) }
{
    has_attribute(&decl.attrs, "owise")
}

/// Reads the equations of the last resort that the axioms state. `others` are the other equations
/// of each function, by its number. `unreadable` marks the functions with another equation that is
/// not readable. A function with two equations of the last resort has none that is readable.
pub(crate) fn read_last_resorts(
    alloc: Global,
    sig: &Signature,
    axioms: &[&AxiomDecl],
    others: &[Vec<Equation>],
    unreadable: Vec<bool>,
) -> Result<LastResorts, AllocError>
    requires numbered { IsNumbered sig.now }
    requires signature { IsSignature sig.now }
    requires lists { length others.now ≡ length sig.now.symbols }
    requires others { AreOthers sig.now (map tree_at axioms.now) others.now }
    requires marks { length unreadable.items ≡ length sig.now.symbols }
    ensures { IfOk result (HaveReadLast sig.now (map tree_at axioms.now) (map tree_at axioms.now)
        unreadable.items) }
{
    let two = with_two(alloc, sig, axioms)?;
    let mut read = LastResorts {
        equations: Vec::new(alloc),
        unreadable,
    };
    for decl in axioms {
        if let Some(stated) = stated_last_resort(sig, decl) {
            read_beside(alloc, sig, decl, &stated, others, &two, &mut read)?;
        }
    }
    Ok(read)
}

/// The equation that an axiom states, if it states one of the last resort.
fn stated_last_resort<'a>(sig: &Signature, decl: &'a AxiomDecl) -> Option<Statement<'a>>
    ensures { IsStatedLast sig.now (plain_axiom_decl decl.now)
        (option_map plain_statement result) }
{
    if !is_last_resort(decl) {
        return None;
    }
    match class_of(sig, decl) {
        AxiomClass::Equates(stated) => Some(stated),
        _ => None,
    }
}

/// For each symbol, by its number: whether two axioms or more state an equation of it that is of the
/// last resort.
fn with_two(alloc: Global, sig: &Signature, axioms: &[&AxiomDecl]) -> Result<Vec<bool>, AllocError>
    requires { IsNumbered sig.now }
    ensures len { IfOk result (λ two. length two.items ≡ length sig.now.symbols) }
    ensures two { IfOk result (λ two. HaveStated sig.now 2 (map tree_at axioms.now) two.items) }
{
    let mut one = no_marks(alloc, sig.symbols.len())?;
    let mut two = no_marks(alloc, sig.symbols.len())?;
    for decl in axioms {
        if let Some(stated) = stated_last_resort(sig, decl) {
            count_one(function_number(sig, &stated), &mut one, &mut two);
        }
    }
    Ok(two)
}

/// Sets the mark with this number, or the second one if it is set.
fn count_one(number: usize, one: &mut Vec<bool>, two: &mut Vec<bool>)
    requires one { number < length one.old.items }
    requires two { number < length two.old.items }
    ensures len_one { length one.new.items ≡ length one.old.items }
    ensures len_two { length two.new.items ≡ length two.old.items }
    ensures one { (n : ℕ)
        → is_marked one.new.items n ≡ (is_marked one.old.items n || (n == number)) }
    ensures two { (n : ℕ) → is_marked two.new.items n
        ≡ (is_marked two.old.items n || (is_marked one.old.items n && (n == number))) }
{
    if one[number] {
        mark(two, number);
    } else {
        mark(one, number);
    }
}

/// The number of the function of an equation that an axiom states.
fn function_number(sig: &Signature, stated: &Statement<'_>) -> usize
    requires { IsStated sig.now (plain_statement stated.now) }
    ensures { number_of_name sig.now.symbols stated.now.function.now ≡ Some result }
{
    let Some(number) = sig.symbols.number(stated.function.as_str()) else {
        unreachable!()
    };
    number
}

/// Reads an axiom that states this equation of the last resort, beside the others of its function.
/// `two` marks the functions with two or more of the last resort.
fn read_beside(
    alloc: Global,
    sig: &Signature,
    decl: &AxiomDecl,
    stated: &Statement<'_>,
    others: &[Vec<Equation>],
    two: &[bool],
    read: &mut LastResorts,
) -> Result<(), AllocError>
    requires numbered { IsNumbered sig.now }
    requires signature { IsSignature sig.now }
    requires stated { StatesLast sig.now (plain_axiom_decl decl.now) (plain_statement stated.now) }
    requires lists { length others.now ≡ length sig.now.symbols }
    requires counted { length two.now ≡ length sig.now.symbols }
    requires marks { length read.old.unreadable.items ≡ length sig.now.symbols }
    ensures { OnOk result ((axioms some : List AxiomDeclaration) (marked : List Bool)
        → Contains axioms (plain_axiom_decl decl.now) → AreOthers sig.now axioms others.now
        → HaveStated sig.now 2 axioms two.now → HaveReadLast sig.now axioms some marked read.old
        → HaveReadLast sig.now axioms (some ++ plain_axiom_decl decl.now ∷ []) marked read.new) }
{
    let number = function_number(sig, stated);
    if two[number] {
        mark(&mut read.unreadable, number);
        return Ok(());
    }
    match read_last_resort(alloc, sig, decl, stated, &others[number])? {
        Reading::Equation(equation) => {
            read.equations.push(equation)?;
        }
        Reading::Unreadable(function) => {
            mark(&mut read.unreadable, function.0 as usize);
        }
    }
    Ok(())
}
