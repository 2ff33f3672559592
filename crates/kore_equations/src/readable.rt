// Whether an equation is readable, except that its variables need not be bound.
ghost use Rattle.std.specs.Prelude.{◌≡◌, [], option_map, IfOk};
ghost use Rattle.std.specs.List.{list_any};
ghost use Rattle.std.specs.Str.{bytes_eq};
ghost use Rattle.kore_ast.specs.Plain.{plain_sort, plain_axiom_decl};
ghost use Rattle.rule_core.specs.Sorting.{sort_at as the_sort_at};
ghost use Rattle.kore_sig.specs.Numbered.{IsNumbered};
ghost use Rattle.kore_shapes.specs.Views.{plain_condition};
ghost use Rattle.kore_shapes.specs.StatementViews.{plain_statement};
ghost use Rattle.kore_shapes.specs.PartViews.{plain_parts};
ghost use Rattle.kore_shapes.specs.ResortViews.{plain_resort};
ghost use Rattle.kore_equations.specs.ReadableEquations.{condition_of_equation as the_condition};
ghost use Rattle.kore_equations.specs.ReadableEquations.{is_sort_over as is_a_sort_over};
ghost use Rattle.kore_equations.specs.ReadableEquations.{is_one_sort as are_one_sort};
ghost use Rattle.kore_equations.specs.ReadableEquations.{fits_function as does_fit};
ghost use Rattle.kore_equations.specs.ClearEquations.{clear_parts as the_clear_parts};
ghost use Rattle.kore_equations.specs.ClearEquations.{clear_last_resort as the_clear_resort};
ghost use Rattle.kore_equations.specs.ClearEquations.{are_clear_parts as are_all_clear};

use crate::sides::{are_clear, is_clear_right};
use crate::sorts::{are_parameters, result_sort};
use kore_ast::{AxiomDecl, Sort, SortForm, Text};
use kore_axioms::{has_bad_priority, over_bool};
use kore_shapes::{
    Condition, EquationParts, LastResortParts, Statement, equation_parts, given_condition,
    last_resort_parts,
};
use kore_sig::{has_attribute, sort_number};
use rule_core::{Signature, SymInfo};
use std::alloc::{AllocError, Global};

/// The parts of an equation that is readable if its variables are bound. Returns none for any other
/// equation.
pub(crate) fn clear_parts<'a>(
    alloc: Global,
    sig: &Signature,
    decl: &AxiomDecl,
    symbol: &SymInfo,
    stated: &Statement<'a>,
) -> Result<Option<EquationParts<'a>>, AllocError>
    requires { IsNumbered sig.now }
    ensures { IfOk result (λ parts. option_map plain_parts parts
        ≡ the_clear_parts sig.now (plain_axiom_decl decl.now) symbol.now
        (plain_statement stated.now)) }
{
    if has_attribute(&decl.attrs, "owise") {
        return Ok(None);
    }
    let Some(parts) = equation_parts(alloc, stated)? else {
        return Ok(None);
    };
    if are_clear_parts(sig, decl, symbol, stated, &parts) {
        Ok(Some(parts))
    } else {
        Ok(None)
    }
}

/// The parts of an equation of the last resort that is readable if its variables are bound, its
/// guards repeat other equations, and it comes after these. Returns none for any other equation.
pub(crate) fn clear_last_resort<'a>(
    alloc: Global,
    sig: &Signature,
    decl: &AxiomDecl,
    symbol: &SymInfo,
    stated: &Statement<'a>,
) -> Result<Option<LastResortParts<'a>>, AllocError>
    requires { IsNumbered sig.now }
    ensures { IfOk result (λ parts. option_map plain_resort parts
        ≡ the_clear_resort sig.now (plain_axiom_decl decl.now) symbol.now
        (plain_statement stated.now)) }
{
    if !has_attribute(&decl.attrs, "owise") {
        return Ok(None);
    }
    let Some(parts) = last_resort_parts(alloc, stated)? else {
        return Ok(None);
    };
    if are_clear_parts(sig, decl, symbol, stated, &parts.equation) {
        Ok(Some(parts))
    } else {
        Ok(None)
    }
}

/// Whether an equation fits its function and has no bad priority, and its parts are clear.
fn are_clear_parts<'a>(
    sig: &Signature,
    decl: &AxiomDecl,
    symbol: &SymInfo,
    stated: &Statement<'a>,
    parts: &EquationParts<'a>,
) -> bool
    requires { IsNumbered sig.now }
    ensures { result
        ≡ are_all_clear sig.now (plain_axiom_decl decl.now) symbol.now (plain_statement stated.now)
        (plain_parts parts.now) }
{
    fits_function(sig, decl, symbol, stated)
        && !has_bad_priority(&decl.attrs)
        && are_parameters(sig, parts.parameters, &symbol.args)
        && are_clear(
            sig,
            symbol,
            &parts.patterns,
            condition_of(sig, stated, parts),
        )
        && is_clear_right(sig, symbol, parts.right)
}

/// The condition of an equation.
pub(crate) fn condition_of<'a>(
    sig: &Signature,
    stated: &Statement<'a>,
    parts: &EquationParts<'a>,
) -> Condition<'a>
    ensures { plain_condition result
        ≡ the_condition sig.now (plain_statement stated.now) (plain_parts parts.now) }
{
    over_bool(sig, given_condition(parts.condition, stated.over))
}

/// Whether an equation is over a sort that it may be over, and has its function's result sort.
fn fits_function(
    sig: &Signature,
    decl: &AxiomDecl,
    symbol: &SymInfo,
    stated: &Statement<'_>,
) -> bool
    ensures { result
        ≡ does_fit sig.now (plain_axiom_decl decl.now) symbol.now (plain_statement stated.now) }
{
    is_sort_over(sig, &decl.params, stated.over)
        && is_one_sort(
            sort_number(&sig.sorts, stated.sort),
            number_of_result(symbol),
        )
}

/// Whether an equation may be over this sort: a sort parameter of the axiom, or a declared sort.
fn is_sort_over(sig: &Signature, params: &[Text], sort: &Sort) -> bool
    ensures { result ≡ is_a_sort_over sig.now params.now (plain_sort sort.now) }
{
    match &sort.form {
        SortForm::Param(name) => is_parameter(params, name),
        SortForm::App(..) => sort_number(&sig.sorts, sort).is_some(),
    }
}

fn is_parameter(params: &[Text], name: &Text) -> bool
    ensures { result ≡ list_any (bytes_eq name.now) params.now }
{
    for param in params {
        if name.as_str() == param.as_str() {
            return true;
        }
    }
    false
}

fn is_one_sort(sort: Option<usize>, other: Option<usize>) -> bool
    ensures { result ≡ are_one_sort sort other }
{
    match (sort, other) {
        (Some(sort), Some(other)) => sort == other,
        _ => false,
    }
}

fn number_of_result(symbol: &SymInfo) -> Option<usize>
    ensures { result ≡ the_sort_at [] symbol.now.result }
{
    let sort = result_sort(symbol)?;
    Some(sort.0 as usize)
}
