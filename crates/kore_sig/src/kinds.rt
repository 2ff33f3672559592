// What symbols are used for, and what hooks say of sorts.
ghost use Rattle.std.specs.Prelude.{◌≡◌, map, option_map, option_copied, Option, ℕ, List};
ghost use Rattle.kore_ast.specs.Plain.{plain_sort, pattern_tree, plain_symbol_decl};
ghost use Rattle.kore_ast.specs.Plain.{plain_axiom_decl};
ghost use Rattle.kore_sig.specs.SortReferences.{kind_of_hook as the_kind_of_hook};
ghost use Rattle.kore_sig.specs.SymbolKinds.{is_parameter as the_parameter};
ghost use Rattle.kore_sig.specs.SymbolKinds.{goes_from_to as the_going};
ghost use Rattle.kore_sig.specs.SymbolKinds.{has_injection_form as the_form};
ghost use Rattle.kore_sig.specs.SymbolKinds.{is_named_so as the_named};
ghost use Rattle.kore_sig.specs.SymbolKinds.{function_kind as the_function_kind};
ghost use Rattle.kore_sig.specs.SymbolKinds.{kind_of as the_kind, head_of as the_head};
ghost use Rattle.kore_sig.specs.SymbolKinds.{head_symbol as the_applied, first_symbol as the_first};
ghost use Rattle.kore_sig.specs.SymbolKinds.{equated_by as the_equated_by};
ghost use Rattle.kore_sig.specs.SymbolKinds.{equated_symbol as the_equated, said_ac as the_said_ac};

use crate::attributes::{has_attribute, is_said_ac};
use kore_ast::{AxiomDecl, Op, Pat, PatForm, Sort, SortForm, SymbolDecl, Text};
use rule_core::{SortKind, SymKind};

/// The kind of a sort's domain values, by the name of the sort's hook.
pub(crate) fn kind_of_hook(hook: Option<&str>) -> SortKind
    ensures { result ≡ the_kind_of_hook (option_copied hook.entry) }
{
    match hook {
        Some(name) => kind_named(name),
        None => SortKind::Other,
    }
}

fn kind_named(name: &str) -> SortKind
    ensures { result ≡ the_kind_of_hook (Some name.now) }
{
    if name == "INT.Int" {
        SortKind::Int
    } else if name == "BOOL.Bool" {
        SortKind::Bool
    } else if name == "MAP.Map" {
        SortKind::Map
    } else {
        SortKind::Other
    }
}

/// Whether a symbol has the form of the injection: the attribute, two different parameters From and
/// To, one argument of sort From, and the result sort To.
pub(crate) fn has_injection_form(decl: &SymbolDecl) -> bool
    ensures { result ≡ the_form (plain_symbol_decl decl.now) }
{
    has_attribute(&decl.attrs, "sortInjection")
        && goes_from_to(&decl.params, &decl.args, &decl.result)
}

fn goes_from_to(params: &[Text], args: &[Sort], value: &Sort) -> bool
    ensures { result ≡ the_going params.now (map plain_sort args.now) (plain_sort value.now) }
{
    match (params, args) {
        ([from, to], [arg]) => {
            from.as_str() != to.as_str() && is_parameter(from, arg) && is_parameter(to, value)
        }
        _ => false,
    }
}

/// Whether the sort is the parameter with this name.
fn is_parameter(name: &Text, sort: &Sort) -> bool
    ensures { result ≡ the_parameter name.now (plain_sort sort.now) }
{
    match &sort.form {
        SortForm::Param(own) => own.as_str() == name.as_str(),
        SortForm::App(..) => false,
    }
}

/// The kind of a symbol, if the injection symbol has this name.
pub(crate) fn kind_of(injection: Option<&str>, decl: &SymbolDecl) -> SymKind
    ensures { result ≡ the_kind (option_copied injection.entry) (plain_symbol_decl decl.now) }
{
    if is_named_so(injection, &decl.name) {
        SymKind::Injection
    } else if has_attribute(&decl.attrs, "function") {
        function_kind(decl)
    } else if has_attribute(&decl.attrs, "constructor") && decl.params.is_empty() {
        SymKind::Ctor
    } else {
        SymKind::NoKind
    }
}

fn is_named_so(name: Option<&str>, own: &Text) -> bool
    ensures { result ≡ the_named (option_copied name.entry) own.now }
{
    name.is_some_and(|name| name == own.as_str())
}

fn function_kind(decl: &SymbolDecl) -> SymKind
    ensures { result ≡ the_function_kind (plain_symbol_decl decl.now) }
{
    if decl.params.is_empty() {
        SymKind::Equations
    } else {
        SymKind::Closed
    }
}

/// The symbol that an axiom says to be associative, commutative or idempotent, or to have a unit.
pub(crate) fn said_ac(decl: &AxiomDecl) -> Option<&Text>
    ensures { option_copied result ≡ the_said_ac (plain_axiom_decl decl.now) }
{
    if is_said_ac(&decl.attrs) {
        equated_symbol(&decl.pat)
    } else {
        None
    }
}

/// The symbol f of `\equals{S,R}(f{}(..),..)`.
fn equated_symbol(pat: &Pat) -> Option<&Text>
    ensures { option_copied result ≡ the_equated (pattern_tree pat.now) }
{
    match &pat.form {
        PatForm::Built(op, _, args) => equated_by(*op, args),
        _ => None,
    }
}

fn equated_by(op: Op, args: &[Pat]) -> Option<&Text>
    ensures { option_copied result ≡ the_equated_by op (map pattern_tree args.now) }
{
    match op {
        Op::Equals => first_symbol(args),
        _ => None,
    }
}

fn first_symbol(args: &[Pat]) -> Option<&Text>
    ensures { option_copied result ≡ the_first (map pattern_tree args.now) }
{
    match args {
        [] => None,
        [arg, ..] => applied_symbol(arg),
    }
}

fn applied_symbol(pat: &Pat) -> Option<&Text>
    ensures { option_copied result ≡ the_applied (pattern_tree pat.now) }
{
    match &pat.form {
        PatForm::App(name, sorts, _) => head_of(name, sorts),
        _ => None,
    }
}

fn head_of<'a>(name: &'a Text, sorts: &[Sort]) -> Option<&'a Text>
    ensures { option_copied result ≡ the_head name.now (map plain_sort sorts.now) }
{
    match sorts {
        [] => Some(name),
        [_, ..] => None,
    }
}
