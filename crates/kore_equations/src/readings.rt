// What an axiom that states an equation is read as.
ghost use Rattle.std.specs.Prelude.{◌≡◌, ◌↔◌, IsTrue, All, map, IfOk, Some};
ghost use Rattle.kore_ast.specs.Plain.{plain_axiom_decl};
ghost use Rattle.rule_core.specs.Named.{number_of_name};
ghost use Rattle.rule_core.specs.ProgramView.{function_equation};
ghost use Rattle.rule_core.specs.Rules.{ComesBefore};
ghost use Rattle.rule_core.specs.WellSorted.{IsSignature};
ghost use Rattle.kore_sig.specs.Numbered.{IsNumbered};
ghost use Rattle.kore_shapes.specs.StatementViews.{plain_statement};
ghost use Rattle.kore_shapes.specs.PartViews.{plain_parts};
ghost use Rattle.kore_axioms.specs.AxiomClasses.{equates, axiom_class};
ghost use Rattle.kore_check.specs.PatternSorts.{symbol_named};
ghost use Rattle.kore_equations.specs.Readings.{IsReadAs, IsReadLast, function_of};
ghost use Rattle.kore_equations.specs.MeantEquations.{IsMeant, IsMeantLast, AreMeantParts};
ghost use Rattle.kore_equations.specs.MeantEquations.{guards_at, IsFineEquation, IsStated};

use crate::guards::read_guards;
use crate::patterns::{Sides, bound_pattern, built_sides};
use crate::readable::{clear_last_resort, clear_parts, condition_of};
use kore_ast::AxiomDecl;
use kore_axioms::priority_of;
use kore_check::as_number;
use kore_shapes::{EquationParts, Statement};
use rule_core::{Equation, Guard, Signature, SymInfo};
use std::alloc::{AllocError, Global};
use term_core::SymId;

/// What an axiom that states an equation of a function is read as.
#[derive(Drop)]
pub enum Reading {
    /// The equation.
    Equation(Equation),
    /// An equation that is not readable. Nothing gives the values of its function.
    Unreadable(SymId),
}

/// Reads an axiom that states this equation. Returns the equation that the axiom means, or says
/// that it is not readable. The variables of the equation are those of the patterns that the
/// arguments match, in the order of their first occurrence. An equation of the last resort (`owise`)
/// is not read.
///
/// Error: out of memory. This is also the error if there are 2^32 parameters or more, since they
/// would not fit into memory.
///
/// It goes through the axiom a few times, with a look-up for each sort, symbol and variable. If the
/// equation has kompile's form, it also goes through it once for each argument of its function.
pub fn read_equation(
    alloc: Global,
    sig: &Signature,
    decl: &AxiomDecl,
    stated: &Statement<'_>,
) -> Result<Reading, AllocError>
    requires numbered { IsNumbered sig.now }
    requires signature { IsSignature sig.now }
    requires class { axiom_class sig.now (plain_axiom_decl decl.now)
        ≡ equates (plain_statement stated.now) }
    ensures function { IfOk result
        (λ reading.
        number_of_name sig.now.symbols stated.now.function.now ≡ Some (function_of reading)) }
    ensures means { IfOk result
        (IsReadAs sig.now stated.now.function.now (plain_axiom_decl decl.now)) }
{
    let (function, symbol) = declared_function(sig, stated);
    match meant_equation(alloc, sig, decl, stated, function, symbol)? {
        Some(equation) => Ok(Reading::Equation(equation)),
        None => Ok(Reading::Unreadable(function)),
    }
}

/// Reads an axiom that states this equation as one of the last resort (`owise`). `others` are the
/// other equations of its function, in the order of trial.
///
/// Error: out of memory, or 2^32 parameters or more.
///
/// It costs as much as `read_equation`. Besides that each guard is compared with the other
/// equations, until one is found that it repeats.
pub fn read_last_resort(
    alloc: Global,
    sig: &Signature,
    decl: &AxiomDecl,
    stated: &Statement<'_>,
    others: &[Equation],
) -> Result<Reading, AllocError>
    requires numbered { IsNumbered sig.now }
    requires signature { IsSignature sig.now }
    requires class { axiom_class sig.now (plain_axiom_decl decl.now)
        ≡ equates (plain_statement stated.now) }
    ensures function { IfOk result
        (λ reading.
        number_of_name sig.now.symbols stated.now.function.now ≡ Some (function_of reading)) }
    ensures means { IfOk result
        (IsReadLast sig.now stated.now.function.now (map function_equation others.now)
        (plain_axiom_decl decl.now)) }
{
    let (function, symbol) = declared_function(sig, stated);
    match meant_last_resort(alloc, sig, decl, stated, function, symbol, others)? {
        Some(equation) => Ok(Reading::Equation(equation)),
        None => Ok(Reading::Unreadable(function)),
    }
}

/// The function of an equation that an axiom states, and its declaration.
fn declared_function<'a>(sig: &'a Signature, stated: &Statement<'_>) -> (SymId, &'a SymInfo)
    requires numbered { IsNumbered sig.now }
    requires class { IsStated sig.now (plain_statement stated.now) }
    ensures number { number_of_name sig.now.symbols stated.now.function.now ≡ Some result.0.0 }
    ensures declared { symbol_named sig.now stated.now.function.now ≡ Some result.1.now }
{
    let Some(number) = sig.symbols.number(stated.function.as_str()) else {
        unreachable!()
    };
    let Some(symbol) = sig.symbols.value(number) else {
        unreachable!()
    };
    (SymId(number as u32), symbol)
}

/// The equation of this function that an axiom means. Returns none if it is not readable.
fn meant_equation(
    alloc: Global,
    sig: &Signature,
    decl: &AxiomDecl,
    stated: &Statement<'_>,
    function: SymId,
    symbol: &SymInfo,
) -> Result<Option<Equation>, AllocError>
    requires numbered { IsNumbered sig.now }
    requires signature { IsSignature sig.now }
    requires class { axiom_class sig.now (plain_axiom_decl decl.now)
        ≡ equates (plain_statement stated.now) }
    requires declared { symbol_named sig.now stated.now.function.now ≡ Some symbol.now }
    ensures { IfOk result
        (IsMeant sig.now stated.now.function.now function.0 symbol.now (plain_axiom_decl decl.now)
        (plain_statement stated.now)) }
{
    let Some(parts) = clear_parts(alloc, sig, decl, symbol, stated)? else {
        return Ok(None);
    };
    equation_of(alloc, sig, decl, stated, function, &parts, None)
}

/// The equation of the last resort of this function that an axiom means beside these others. Returns
/// none if it is not readable.
fn meant_last_resort(
    alloc: Global,
    sig: &Signature,
    decl: &AxiomDecl,
    stated: &Statement<'_>,
    function: SymId,
    symbol: &SymInfo,
    others: &[Equation],
) -> Result<Option<Equation>, AllocError>
    requires numbered { IsNumbered sig.now }
    requires signature { IsSignature sig.now }
    requires class { axiom_class sig.now (plain_axiom_decl decl.now)
        ≡ equates (plain_statement stated.now) }
    requires declared { symbol_named sig.now stated.now.function.now ≡ Some symbol.now }
    ensures { IfOk result
        (IsMeantLast sig.now stated.now.function.now function.0 symbol.now
        (map function_equation others.now) (plain_axiom_decl decl.now)
        (plain_statement stated.now)) }
{
    let Some(parts) = clear_last_resort(alloc, sig, decl, symbol, stated)? else {
        return Ok(None);
    };
    if !sig.ac_free() {
        return Ok(None);
    }
    if !comes_last(others, priority_of(&decl.attrs), decl.at) {
        return Ok(None);
    }
    let over = stated.over;
    let Some(guards) = read_guards(alloc, sig, symbol, over, &parts.guards, others)? else {
        return Ok(None);
    };
    equation_of(
        alloc,
        sig,
        decl,
        stated,
        function,
        &parts.equation,
        Some(guards),
    )
}

/// Whether each of the others is tried before an equation with this priority and this place.
fn comes_last(others: &[Equation], priority: u32, at: u32) -> bool
    ensures { IsTrue result
        ↔ All (λ e. ComesBefore (e.priority, e.at) (priority, at)) others.now }
{
    for other in others {
        if !comes_before(other, priority, at) {
            return false;
        }
    }
    true
}

/// Whether an equation is tried before one with this priority and this place.
fn comes_before(equation: &Equation, priority: u32, at: u32) -> bool
    ensures { IsTrue result
        ↔ ComesBefore (equation.now.priority, equation.now.at) (priority, at) }
{
    equation.priority < priority || (equation.priority == priority && equation.at < at)
}

/// The equation of these parts, with these guards. The parts are clear. Returns none if its variables
/// are not bound.
fn equation_of<'a>(
    alloc: Global,
    sig: &Signature,
    decl: &AxiomDecl,
    stated: &Statement<'a>,
    function: SymId,
    parts: &EquationParts<'a>,
    guards: Option<Vec<Guard>>,
) -> Result<Option<Equation>, AllocError>
    requires numbered { IsNumbered sig.now }
    requires signature { IsSignature sig.now }
    requires fine { IsFineEquation sig.now (plain_statement stated.now) (plain_parts parts.now) }
    ensures { IfOk result
        (AreMeantParts sig.now function.0 (plain_axiom_decl decl.now) (plain_statement stated.now)
        (plain_parts parts.now) (guards_at guards)) }
{
    let condition = condition_of(sig, stated, parts);
    let Some(sides) = built_sides(alloc, sig, &parts.patterns, condition)? else {
        return Ok(None);
    };
    let Sides {
        args,
        named,
        cond,
        mut vars,
    } = sides;
    let Some(right) = bound_pattern(alloc, sig, parts.right, &mut vars)? else {
        return Ok(None);
    };
    Ok(Some(Equation {
        at: decl.at,
        fun: function,
        params: as_number(parts.parameters.len()).ok_or(AllocError)?,
        args,
        named,
        owise: guards,
        cond,
        right,
        vars: vars.into_infos(),
        priority: priority_of(&decl.attrs),
    }))
}
