// What an axiom is read as.
ghost use Rattle.std.specs.Prelude.{◌≡◌, map, option_map, option_copied, is_some};
ghost use Rattle.kore_ast.specs.Plain.{plain_sort, pattern_tree, plain_axiom_decl};
ghost use Rattle.kore_sig.specs.Attributes.{subsort_sorts, stated_pair};
ghost use Rattle.kore_check.specs.PatternSorts.{symbol_named};
ghost use Rattle.kore_shapes.specs.Shapes.{rewriting as the_rewriting};
ghost use Rattle.kore_shapes.specs.StatementViews.{plain_statement};
ghost use Rattle.rule_core.specs.KindTests.{is_defined_kind as is_defined};
ghost use Rattle.kore_axioms.specs.AxiomClasses.{takes_equations as does_take_equations};
ghost use Rattle.kore_axioms.specs.AxiomClasses.{is_no_equation as is_surely_none};
ghost use Rattle.kore_axioms.specs.AxiomClasses.{class_of_statement as the_class_of_statement};
ghost use Rattle.kore_axioms.specs.AxiomClasses.{class_of_pattern as the_class_of_pattern};
ghost use Rattle.kore_axioms.specs.AxiomClasses.{states_pairs as do_state_pairs};
ghost use Rattle.kore_axioms.specs.AxiomClasses.{axiom_class as the_class};
ghost use Rattle.kore_axioms.specs.ClassViews.{plain_class};

use crate::faults::AxiomFault;
use kore_ast::{AxiomDecl, Pat, PatForm, Sort, Text};
use kore_shapes::{Rewriting, Statement, rewriting_at, statement_at};
use kore_sig::{has_attribute, is_said_ac};
use rule_core::{Signature, SymInfo, SymKind};

/// What an axiom is read as.
#[derive(Clone, Copy)]
pub enum AxiomClass<'a> {
    /// It is refused.
    Refused(AxiomFault),
    /// It says that sorts are below others.
    OrdersSorts,
    /// It is a rewrite rule.
    Rewrites(Rewriting<'a>),
    /// It is an equation of a function.
    Equates(Statement<'a>),
    /// It is passed over: only its text is read.
    PassedOver,
}

/// What an axiom is read as: the first class that fits.
pub fn class_of<'a>(sig: &Signature, decl: &'a AxiomDecl) -> AxiomClass<'a>
    ensures { plain_class result ≡ the_class sig.now (plain_axiom_decl decl.now) }
{
    if has_attribute(&decl.attrs, "anywhere") {
        AxiomClass::Refused(AxiomFault::Anywhere)
    } else if has_attribute(&decl.attrs, "overload")
        || has_attribute(&decl.attrs, "symbol-overload")
    {
        AxiomClass::Refused(AxiomFault::Overload)
    } else if states_pairs(&decl.attrs) {
        AxiomClass::OrdersSorts
    } else {
        class_of_pattern(sig, decl)
    }
}

fn class_of_pattern<'a>(sig: &Signature, decl: &'a AxiomDecl) -> AxiomClass<'a>
    ensures { plain_class result
        ≡ the_class_of_pattern sig.now (plain_axiom_decl decl.now)
        (the_rewriting (pattern_tree decl.now.pat)) }
{
    match rewriting_at(&decl.pat) {
        Some(rewriting) => AxiomClass::Rewrites(rewriting),
        None => class_of_statement(sig, &decl.attrs, statement_at(&decl.pat)),
    }
}

/// The class of an axiom that is no rewrite rule. It is an equation if it states one of a function
/// that takes equations. Otherwise it is passed over.
fn class_of_statement<'a>(
    sig: &Signature,
    attrs: &[Pat],
    stated: Option<Statement<'a>>,
) -> AxiomClass<'a>
    ensures { plain_class result
        ≡ the_class_of_statement sig.now (map pattern_tree attrs.now)
        (option_map plain_statement stated.entry) }
{
    match stated {
        Some(stated)
            if !is_no_equation(attrs) && takes_equations(symbol_of(sig, stated.function)) => {
            AxiomClass::Equates(stated)
        }
        _ => AxiomClass::PassedOver,
    }
}

/// Whether the attributes say that an axiom is no equation.
fn is_no_equation(attrs: &[Pat]) -> bool
    ensures { result ≡ is_surely_none (map pattern_tree attrs.now) }
{
    has_attribute(attrs, "simplification") || is_said_ac(attrs)
}

/// The declared symbol of this name. Returns none if no symbol of this name is declared.
pub(crate) fn symbol_of<'a>(sig: &'a Signature, name: &Text) -> Option<&'a SymInfo>
    ensures { option_copied result ≡ symbol_named sig.now name.now }
{
    let number = sig.symbols.number(name.as_str())?;
    sig.symbols.value(number)
}

/// Whether a symbol is a function without a hook and without sort parameters.
fn takes_equations(symbol: Option<&SymInfo>) -> bool
    ensures { result ≡ does_take_equations (option_copied symbol.entry) }
{
    symbol.is_some_and(|symbol| symbol.kind == SymKind::Equations && symbol.hook.is_none())
}

/// Whether an attribute states that a sort is below another.
fn states_pairs(attrs: &[Pat]) -> bool
    ensures { result ≡ do_state_pairs (map pattern_tree attrs.now) }
{
    for attr in attrs {
        if states_pair(attr) {
            return true;
        }
    }
    false
}

fn states_pair(attr: &Pat) -> bool
    ensures { result ≡ is_some (subsort_sorts (pattern_tree attr.now)) }
{
    match &attr.form {
        PatForm::App(name, sorts, args) => is_pair(name, sorts, args),
        _ => false,
    }
}

fn is_pair(name: &Text, sorts: &[Sort], args: &[Pat]) -> bool
    ensures { result
        ≡ is_some (stated_pair name.now (map plain_sort sorts.now) (map pattern_tree args.now)) }
{
    match (sorts, args) {
        ([_, _], []) => name.as_str() == "subsort",
        _ => false,
    }
}
