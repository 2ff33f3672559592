// Reads the axioms of a definition in order: its rewrite rules and the equations of its functions,
// or their first fault.
ghost use Rattle.std.specs.Prelude.{◌≡◌, ◌++◌, ◌∷◌, ◌==◌, ◌||◌, ◌<◌, [], ℕ, List, false, length};
ghost use Rattle.std.specs.Prelude.{map, None, Some, IfOk, OnOk, IfErr};
ghost use Rattle.kore_text.specs.Trees.{AxiomDeclaration};
ghost use Rattle.kore_ast.specs.Plain.{plain_axiom_decl};
ghost use Rattle.rule_core.specs.WellSorted.{IsSignature};
ghost use Rattle.kore_sig.specs.Numbered.{IsNumbered};
ghost use Rattle.kore_shapes.specs.Views.{plain_rewriting};
ghost use Rattle.kore_shapes.specs.StatementViews.{plain_statement};
ghost use Rattle.kore_axioms.specs.AxiomClasses.{rewrites, equates, axiom_class as the_class};
ghost use Rattle.kore_axioms.specs.ClassViews.{plain_class};
ghost use Rattle.kore_axioms.specs.RuleFaults.{FirstOfRule};
ghost use Rattle.kore_rules.specs.AxiomsRead.{HaveRead, IsFirstSort, is_marked, tree_at, sort_at};
ghost use Rattle.kore_rules.specs.FirstRefusal.{FirstOfClass, FirstOfAxioms};
ghost use Rattle.kore_rules.specs.FirstRefusal.{first_sort as the_first_sort};
ghost use Rattle.kore_rules.specs.RefusedTexts.{RefusesFor};

use crate::last_resorts::is_last_resort;
use kore_ast::{AxiomDecl, Sort};
use kore_axioms::{AxiomClass, Refusal, checked_rule, class_of};
use kore_equations::{Reading, read_equation};
use kore_shapes::{Rewriting, Statement};
use rule_core::{Equation, Rule, Signature};
use std::alloc::{AllocError, Global};

/// What is read of axioms: rewrite rules, equations, and equations that are not readable.
#[derive(Drop)]
pub(crate) struct Readings {
    /// The rewrite rules, in the order of the file.
    pub(crate) rules: Vec<Rule>,
    /// The equations of all functions, in the order of the file, without those of the last resort.
    pub(crate) equations: Vec<Equation>,
    /// For each symbol, by its number: whether it has such an equation that is not readable.
    pub(crate) unreadable: Vec<bool>,
}

/// Reads the axioms, and returns the sort of their first rewrite rule too. The error is the first
/// fault of the first axiom that has any.
pub(crate) fn read_axioms<'a>(
    alloc: Global,
    sig: &Signature,
    axioms: &[&'a AxiomDecl],
) -> Result<(Readings, Option<&'a Sort>), Refusal>
    requires numbered { IsNumbered sig.now }
    requires signature { IsSignature sig.now }
    ensures clear { OnOk result (FirstOfAxioms sig.now (map tree_at axioms.now) None) }
    ensures read { IfOk result (λ r. HaveRead sig.now (map tree_at axioms.now) r.0) }
    ensures first { IfOk result (λ r. IsFirstSort sig.now (map tree_at axioms.now) (sort_at r.1)) }
    ensures refused { IfErr result
        (RefusesFor (λ f. FirstOfAxioms sig.now (map tree_at axioms.now) (Some f))) }
{
    let mut readings = no_readings(alloc, sig)?;
    let mut first = None;
    for decl in axioms {
        let class = class_of(sig, decl);
        read_axiom(alloc, sig, first, decl, class, &mut readings)?;
        first = first_sort(first, class);
    }
    Ok((readings, first))
}

/// What is read of no axioms.
fn no_readings(alloc: Global, sig: &Signature) -> Result<Readings, AllocError>
    ensures { IfOk result (HaveRead sig.now []) }
{
    Ok(Readings {
        rules: Vec::new(alloc),
        equations: Vec::new(alloc),
        unreadable: no_marks(alloc, sig.symbols.len())?,
    })
}

/// `len` marks, none of them set.
pub(crate) fn no_marks(alloc: Global, len: usize) -> Result<Vec<bool>, AllocError>
    ensures len { IfOk result (λ marks. length marks.items ≡ len) }
    ensures none { IfOk result (λ marks. (n : ℕ) → is_marked marks.items n ≡ false) }
{
    let mut marks = Vec::new(alloc);
    marks.resize(len, false)?;
    Ok(marks)
}

/// The sort of the first rule: of an earlier one, or else of this axiom if it is a rule.
fn first_sort<'a>(first: Option<&'a Sort>, class: AxiomClass<'a>) -> Option<&'a Sort>
    ensures { sort_at result ≡ the_first_sort (sort_at first.entry) (plain_class class.entry) }
{
    match (first, class) {
        (None, AxiomClass::Rewrites(rewriting)) => Some(rewriting.sort),
        _ => first,
    }
}

/// Adds what an axiom of this class is, if the first rule before it has the sort `first`. The error
/// is the axiom's first fault.
fn read_axiom(
    alloc: Global,
    sig: &Signature,
    first: Option<&Sort>,
    decl: &AxiomDecl,
    class: AxiomClass<'_>,
    readings: &mut Readings,
) -> Result<(), Refusal>
    requires numbered { IsNumbered sig.now }
    requires signature { IsSignature sig.now }
    requires class { plain_class class ≡ the_class sig.now (plain_axiom_decl decl.now) }
    requires marked { length readings.old.unreadable.items ≡ length sig.now.symbols }
    ensures clear { OnOk result
        (FirstOfClass sig.now (sort_at first.entry) (plain_axiom_decl decl.now)
        (plain_class class.entry) None) }
    ensures read { OnOk result
        ((axioms : List AxiomDeclaration) → HaveRead sig.now axioms readings.old →
        HaveRead sig.now (axioms ++ plain_axiom_decl decl.now ∷ []) readings.new) }
    ensures refused { IfErr result (RefusesFor
        (λ f. FirstOfClass sig.now (sort_at first.entry) (plain_axiom_decl decl.now)
        (plain_class class.entry)
        (Some f))) }
{
    match class {
        AxiomClass::Refused(fault) => Err(Refusal::Refused(fault.number(), decl.at)),
        AxiomClass::Rewrites(rewriting) => add_rule(alloc, sig, first, decl, rewriting, readings),
        AxiomClass::Equates(stated) => Ok(add_equation(alloc, sig, decl, &stated, readings)?),
        AxiomClass::OrdersSorts | AxiomClass::PassedOver => Ok(()),
    }
}

/// Adds the rewrite rule that an axiom is. The error is its first fault.
fn add_rule(
    alloc: Global,
    sig: &Signature,
    first: Option<&Sort>,
    decl: &AxiomDecl,
    rewriting: Rewriting<'_>,
    readings: &mut Readings,
) -> Result<(), Refusal>
    requires numbered { IsNumbered sig.now }
    requires signature { IsSignature sig.now }
    requires class { the_class sig.now (plain_axiom_decl decl.now)
        ≡ rewrites (plain_rewriting rewriting) }
    ensures clear { OnOk result
        (FirstOfRule sig.now (sort_at first.entry) (plain_axiom_decl decl.now)
        (plain_rewriting rewriting.entry)
        None) }
    ensures read { OnOk result
        ((axioms : List AxiomDeclaration) → HaveRead sig.now axioms readings.old →
        HaveRead sig.now (axioms ++ plain_axiom_decl decl.now ∷ []) readings.new) }
    ensures refused { IfErr result (RefusesFor
        (λ f. FirstOfRule sig.now (sort_at first.entry) (plain_axiom_decl decl.now)
        (plain_rewriting rewriting.entry) (Some f))) }
{
    let rule = checked_rule(alloc, sig, first, decl, rewriting)?;
    readings.rules.push(rule)?;
    Ok(())
}

/// Adds the equation that an axiom is, or marks its function if the equation is not readable. An
/// equation of the last resort is passed over, since it is read beside the others.
fn add_equation(
    alloc: Global,
    sig: &Signature,
    decl: &AxiomDecl,
    stated: &Statement<'_>,
    readings: &mut Readings,
) -> Result<(), AllocError>
    requires numbered { IsNumbered sig.now }
    requires signature { IsSignature sig.now }
    requires class { the_class sig.now (plain_axiom_decl decl.now)
        ≡ equates (plain_statement stated.now) }
    requires marked { length readings.old.unreadable.items ≡ length sig.now.symbols }
    ensures { OnOk result ((axioms : List AxiomDeclaration) → HaveRead sig.now axioms readings.old →
        HaveRead sig.now (axioms ++ plain_axiom_decl decl.now ∷ []) readings.new) }
{
    if is_last_resort(decl) {
        return Ok(());
    }
    match read_equation(alloc, sig, decl, stated)? {
        Reading::Equation(equation) => {
            readings.equations.push(equation)?;
        }
        Reading::Unreadable(function) => {
            mark(&mut readings.unreadable, function.0 as usize);
        }
    }
    Ok(())
}

/// Sets the mark with this number.
pub(crate) fn mark(marks: &mut Vec<bool>, number: usize)
    requires { number < length marks.old.items }
    ensures len { length marks.new.items ≡ length marks.old.items }
    ensures marked { (n : ℕ)
        → is_marked marks.new.items n ≡ (is_marked marks.old.items n || (n == number)) }
{
    marks[number] = true;
}
