// The printer: the text of sorts and patterns, token by token.

ghost use Rattle.std.specs.Prelude.{◌≡◌, ℕ, false, ◌∷◌, Some, ◌++◌, IfOk, OnOk, map, string_bytes};
ghost use Rattle.kore_text.specs.TokenStream.{identifier, set_identifier, builtin};
ghost use Rattle.kore_text.specs.Trees.{value_written};
ghost use Rattle.kore_text.specs.Grammar.{spell_sort, spell_variable, spell_pattern};
ghost use Rattle.kore_ast.specs.Plain.{plain_sort, pattern_tree};
ghost use Rattle.kore_print.specs.TokenText.{built_name, op_name};
ghost use Rattle.kore_print.specs.CanonicalText.{canonical_text};
ghost use Rattle.kore_print.specs.Writing.{Writes, comma_after, spell_in_braces};
ghost use Rattle.kore_print.specs.Writing.{spell_in_parentheses, spell_head};

use crate::strings::push_string;
use kore_ast::{Binder, Op, Pat, PatForm, Sort, SortForm, Text};
use kore_text::Built;
use std::alloc::{AllocError, Global};

/// The canonical text of a pattern. `AllocError`: out of memory. The time is linear in the length
/// of the text. The recursion is only as deep as the nesting of the pattern and of its sorts, which
/// is at most 500 in a pattern that can be read. Lists are written by loops.
pub fn print_pattern(alloc: Global, pat: &Pat) -> Result<String, AllocError>
    ensures { IfOk result (λ text. string_bytes text ≡ canonical_text (pattern_tree pat.now)) }
{
    let mut text = String::new(alloc);
    push_pattern(&mut text, pat)?;
    Ok(text)
}

/// Adds a pattern.
#[cycle(patterns)]
fn push_pattern(text: &mut String, pat: &Pat) -> Result<(), AllocError>
    ensures { OnOk result (Writes (spell_pattern false (pattern_tree pat.now))
        (string_bytes text.old) (string_bytes text.new)) }
{
    match &pat.form {
        PatForm::Elem(name, sort) => push_variable(text, name, sort),
        PatForm::SetVar(name, sort) => push_set_variable(text, name, sort),
        PatForm::Text(content) => push_string(text, content.as_str()),
        PatForm::App(name, sorts, args) => {
            push_symbol(text, name, sorts)?;
            push_patterns(text, args)
        }
        PatForm::Built(op, sorts, args) => {
            push_built(text, Built::Connective(*op), sorts)?;
            push_patterns(text, args)
        }
        PatForm::Bound(binder, sorts, variable, body) => {
            push_built(text, Built::Binding(*binder), sorts)?;
            text.push_str("(")?;
            push_pattern(text, variable)?;
            push_comma(text, 1)?;
            push_pattern(text, body)?;
            text.push_str(")")
        }
        PatForm::Value(sort, content, _) => push_value(text, sort, content),
        PatForm::Fold(from_left, folded) => {
            push_built(text, Built::Fold(*from_left), &[])?;
            text.push_str("(")?;
            push_pattern(text, folded)?;
            text.push_str(")")
        }
    }
}

/// Adds patterns in parentheses.
#[cycle(patterns)]
fn push_patterns(text: &mut String, patterns: &[Pat]) -> Result<(), AllocError>
    ensures { OnOk result (Writes (spell_in_parentheses (map pattern_tree patterns.now))
        (string_bytes text.old) (string_bytes text.new)) }
{
    text.push_str("(")?;
    for (i, pattern) in patterns.iter().enumerate() {
        push_comma(text, i)?;
        push_pattern(text, pattern)?;
    }
    text.push_str(")")
}

/// Adds an element variable of a sort.
fn push_variable(text: &mut String, name: &Text, sort: &Sort) -> Result<(), AllocError>
    ensures { OnOk result (Writes (spell_variable 0 (identifier name.now) (plain_sort sort.now))
        (string_bytes text.old) (string_bytes text.new)) }
{
    text.push_str(name.as_str())?;
    text.push_str(":")?;
    push_sort(text, sort)
}

/// Adds a set variable of a sort.
fn push_set_variable(text: &mut String, name: &Text, sort: &Sort) -> Result<(), AllocError>
    ensures { OnOk result (Writes (spell_variable 0 (set_identifier name.now) (plain_sort sort.now))
        (string_bytes text.old) (string_bytes text.new)) }
{
    text.push_str("@")?;
    push_variable(text, name, sort)
}

/// Adds a symbol with its sorts.
fn push_symbol(text: &mut String, name: &Text, sorts: &[Sort]) -> Result<(), AllocError>
    ensures { OnOk result (Writes (spell_head (identifier name.now) (map plain_sort sorts.now))
        (string_bytes text.old) (string_bytes text.new)) }
{
    text.push_str(name.as_str())?;
    push_sorts(text, sorts)
}

/// Adds a built-in name with its sorts.
fn push_built(text: &mut String, built: Built, sorts: &[Sort]) -> Result<(), AllocError>
    ensures { OnOk result (Writes (spell_head (builtin (Some built)) (map plain_sort sorts.now))
        (string_bytes text.old) (string_bytes text.new)) }
{
    push_name(text, built)?;
    push_sorts(text, sorts)
}

/// Adds a domain value.
fn push_value(text: &mut String, sort: &Sort, content: &Text) -> Result<(), AllocError>
    ensures { OnOk result ((place : ℕ)
        → Writes (spell_pattern false (value_written 0 (plain_sort sort.now) content.now place))
        (string_bytes text.old) (string_bytes text.new)) }
{
    push_name(text, Built::Value)?;
    text.push_str("{")?;
    push_sort(text, sort)?;
    text.push_str("}(")?;
    push_string(text, content.as_str())?;
    text.push_str(")")
}

/// Adds a sort.
#[cycle(sorts)]
fn push_sort(text: &mut String, sort: &Sort) -> Result<(), AllocError>
    ensures { OnOk result (Writes (spell_sort (plain_sort sort.now)) (string_bytes text.old)
        (string_bytes text.new)) }
{
    match &sort.form {
        SortForm::Param(name) => text.push_str(name.as_str()),
        SortForm::App(name, sorts) => {
            text.push_str(name.as_str())?;
            push_sorts(text, sorts)
        }
    }
}

/// Adds sorts in braces.
#[cycle(sorts)]
fn push_sorts(text: &mut String, sorts: &[Sort]) -> Result<(), AllocError>
    ensures { OnOk result (Writes (spell_in_braces (map plain_sort sorts.now))
        (string_bytes text.old) (string_bytes text.new)) }
{
    text.push_str("{")?;
    for (i, sort) in sorts.iter().enumerate() {
        push_comma(text, i)?;
        push_sort(text, sort)?;
    }
    text.push_str("}")
}

/// Adds what is before an item that comes after `others` others.
fn push_comma(text: &mut String, others: usize) -> Result<(), AllocError>
    ensures { OnOk result (string_bytes text.new ≡ string_bytes text.old ++ comma_after others) }
{
    if others == 0 {
        return Ok(());
    }
    text.push_str(",")
}

/// Adds a built-in name with its backslash.
fn push_name(text: &mut String, built: Built) -> Result<(), AllocError>
    ensures { OnOk result
        (string_bytes text.new ≡ string_bytes text.old ++ (92 ∷ built_name built)) }
{
    text.push_str("\\")?;
    text.push_str(name_of(built))
}

/// The name of a built-in.
fn name_of(built: Built) -> &'static str
    ensures { result.now ≡ built_name built }
{
    match built {
        Built::Connective(op) => op_name(op),
        Built::Binding(Binder::Exists) => "exists",
        Built::Binding(Binder::Forall) => "forall",
        Built::Binding(Binder::Mu) => "mu",
        Built::Binding(Binder::Nu) => "nu",
        Built::Value => "dv",
        Built::Fold(true) => "left-assoc",
        Built::Fold(false) => "right-assoc",
    }
}

/// The name of a connective.
fn op_name(op: Op) -> &'static str
    ensures { result.now ≡ op_name op }
{
    match op {
        Op::Top => "top",
        Op::Bottom => "bottom",
        Op::Not => "not",
        Op::Next => "next",
        Op::And => "and",
        Op::Or => "or",
        Op::Implies => "implies",
        Op::Iff => "iff",
        Op::Rewrites => "rewrites",
        Op::Ceil => "ceil",
        Op::Floor => "floor",
        Op::Equals => "equals",
        Op::Member => "in",
    }
}
