// Whether what an assertion says is a row of the header.

ghost use Rattle.std.specs.Prelude.{◌≡◌, ◌↔◌, ℕ, IsTrue, IfOk, map, option_map};
ghost use Rattle.std.specs.List.{list_all, list_any};
ghost use Rattle.mm_text.specs.Bytes.{Token, has_token};
ghost use Rattle.mm_frame.specs.PlainFrames.{in_groups};
ghost use Rattle.mm_header.specs.HeaderRows.{expression_of, types_texts};
ghost use Rattle.mm_header.specs.HeaderTable.{pair_of, type_texts};
ghost use Rattle.mm_scope.specs.ScopeState.{scope_state};
ghost use Rattle.mm_check.specs.Stated.{words, plain_stated, plain_types, plain_premises};
ghost use Rattle.mm_check.specs.Stated.{PlainTyped};
ghost use Rattle.mm_check.specs.HeaderLookup.{IsOnlyRow};
ghost use Rattle.mm_check.specs.RowTexts.{type_among, number_among, occurs, type_wanted};
ghost use Rattle.mm_check.specs.RowTexts.{header_type, same_type, is_named, agrees};
ghost use Rattle.mm_check.specs.RowTexts.{are_header_types, both_apart, is_kept, SaysRow};

use crate::header::{expression, same_words};
use crate::rows::Rows;
use crate::stated::{Stated, Typed};
use mm_header::{HeaderRow, HeaderVariable, variables};
use mm_scope::Scopes;
use std::alloc::{AllocError, Global};

/// Whether the assertion says what a row of the header says.
pub(crate) fn is_row(
    alloc: Global,
    rows: &Rows,
    scopes: &Scopes<'_>,
    stated: &Stated<'_>,
) -> Result<bool, AllocError>
    ensures { IfOk result (λ b. IsTrue b
        ↔ SaysRow (in_groups (scope_state scopes.now).disjoint) (plain_stated stated.now)) }
{
    let Some(row) = rows.find(alloc, &stated.words)? else {
        return Ok(false);
    };
    is_of_row(alloc, scopes, stated, row)
}

/// Whether the assertion says what a row with the same statement says.
fn is_of_row(
    alloc: Global,
    scopes: &Scopes<'_>,
    stated: &Stated<'_>,
    row: &HeaderRow,
) -> Result<bool, AllocError>
    requires { IsOnlyRow (plain_stated stated.now).words row.now }
    ensures { IfOk result (λ b. IsTrue b
        ↔ SaysRow (in_groups (scope_state scopes.now).disjoint) (plain_stated stated.now)) }
{
    if !has_premises(alloc, &stated.premises, row.hyps)? {
        return Ok(false);
    }
    if !has_header_types(stated) {
        return Ok(false);
    }
    Ok(are_kept(scopes, &stated.types, row.apart))
}

/// Whether the premises are these hypotheses of the header.
fn has_premises(
    alloc: Global,
    premises: &[Vec<&[u8]>],
    hyps: &[&'static str],
) -> Result<bool, AllocError>
    ensures { IfOk result (λ b. IsTrue b ↔ (plain_premises premises.now
        ≡ map expression_of (map (λ h. h.now) hyps.now))) }
{
    if premises.len() != hyps.len() {
        return Ok(false);
    }
    for i in 0..premises.len() {
        let expected = expression(alloc, hyps[i])?;
        if !same_words(&premises[i], &expected) {
            return Ok(false);
        }
    }
    Ok(true)
}

/// Whether each variable of the header has the type that the header gives it, if it occurs, and no
/// other variable has a type.
fn has_header_types(stated: &Stated<'_>) -> bool
    ensures { result ≡ are_header_types (plain_stated stated.now) }
{
    are_named(&stated.types) && all_agree(stated, variables())
}

/// Whether all variables are variables of the header.
#[tactic(auto, using(crate::proofs::Scans::all_items))]
fn are_named(types: &[Typed<'_>]) -> bool
    ensures { result
        ≡ list_all (λ (t : PlainTyped). is_named types_texts t.variable) (plain_types types.now) }
{
    for typed in types {
        if !is_named(variables(), typed.variable) {
            return false;
        }
    }
    true
}

/// Whether the token is one of these variables.
#[tactic(auto, using(crate::proofs::Scans::some_items))]
fn is_named(known: &[HeaderVariable], variable: &[u8]) -> bool
    ensures { result ≡ is_named (map type_texts known.now) variable.now }
{
    for x in known {
        if x.name.as_bytes() == variable {
            return true;
        }
    }
    false
}

/// Whether each of these variables has the type that the header gives it, if it occurs.
#[tactic(auto, using(crate::proofs::Scans::all_items))]
fn all_agree(stated: &Stated<'_>, known: &[HeaderVariable]) -> bool
    ensures { result ≡ list_all (agrees (plain_stated stated.now)) (map type_texts known.now) }
{
    for x in known {
        if !agrees(stated, x.name.as_bytes()) {
            return false;
        }
    }
    true
}

fn agrees(stated: &Stated<'_>, variable: &[u8]) -> bool
    ensures { result ≡ same_type (type_among (plain_stated stated.now).types variable.now)
        (header_type (plain_stated stated.now) variable.now) }
{
    same_type(
        type_of(&stated.types, variable),
        header_type(stated, variables(), variable),
    )
}

/// Whether both are the same type, or there is none.
fn same_type(one: Option<&[u8]>, other: Option<&[u8]>) -> bool
    ensures { result
        ≡ same_type (option_map (λ t. t.now) one.entry) (option_map (λ t. t.now) other.entry) }
{
    match (one, other) {
        (None, None) => true,
        (Some(x), Some(y)) => x == y,
        _ => false,
    }
}

/// The type of a variable, if it has one.
pub(crate) fn type_of<'a>(types: &[Typed<'a>], variable: &[u8]) -> Option<&'a [u8]>
    ensures { option_map (λ t. t.now) result ≡ type_among (plain_types types.now) variable.now }
{
    for typed in types {
        if typed.variable == variable {
            return Some(typed.typecode);
        }
    }
    None
}

/// The number of a variable, if it has a type.
fn number_of(types: &[Typed<'_>], variable: &[u8]) -> Option<u32>
    ensures { result ≡ number_among (plain_types types.now) variable.now }
{
    for typed in types {
        if typed.variable == variable {
            return Some(typed.number);
        }
    }
    None
}

/// The type that the header gives to a variable that occurs.
fn header_type(
    stated: &Stated<'_>,
    known: &[HeaderVariable],
    variable: &[u8],
) -> Option<&'static [u8]>
    ensures { option_map (λ t. t.now) result
        ≡ type_wanted (map type_texts known.now) (plain_stated stated.now) variable.now }
{
    for x in known {
        if x.name.as_bytes() == variable && occurs(stated, variable) {
            return Some(x.typecode.as_bytes());
        }
    }
    None
}

/// Whether the token occurs in the statement or in a premise.
fn occurs(stated: &Stated<'_>, token: &[u8]) -> bool
    ensures { result ≡ occurs (plain_stated stated.now) token.now }
{
    has_word(&stated.words, token) || some_has_word(&stated.premises, token)
}

/// Whether the token is a word of one of the premises.
#[tactic(auto, using(crate::proofs::Scans::some_items))]
fn some_has_word(premises: &[Vec<&[u8]>], token: &[u8]) -> bool
    ensures { result ≡ list_any (λ ws. has_token ws token.now) (plain_premises premises.now) }
{
    for premise in premises {
        if has_word(premise, token) {
            return true;
        }
    }
    false
}

/// Whether the token is one of the words.
#[tactic(auto, using(crate::proofs::Scans::some_items))]
pub(crate) fn has_word(statement: &[&[u8]], token: &[u8]) -> bool
    ensures { result ≡ has_token (words statement.now) token.now }
{
    for word in statement {
        if *word == token {
            return true;
        }
    }
    false
}

/// Whether the two variables of each pair are kept apart.
#[tactic(auto, using(crate::proofs::Scans::all_items))]
fn are_kept(scopes: &Scopes<'_>, types: &[Typed<'_>], pairs: &[(&str, &str)]) -> bool
    ensures { result
        ≡ list_all (is_kept (in_groups (scope_state scopes.now).disjoint) (plain_types types.now))
        (map pair_of pairs.now) }
{
    for pair in pairs {
        if !is_kept(scopes, types, pair.0.as_bytes(), pair.1.as_bytes()) {
            return false;
        }
    }
    true
}

/// Whether two variables have types and are kept apart.
fn is_kept(scopes: &Scopes<'_>, types: &[Typed<'_>], x: &[u8], y: &[u8]) -> bool
    ensures { result ≡ both_apart (in_groups (scope_state scopes.now).disjoint)
        (number_among (plain_types types.now) x.now) (number_among (plain_types types.now) y.now) }
{
    match (number_of(types, x), number_of(types, y)) {
        (Some(a), Some(b)) => scopes.apart(a, b),
        _ => false,
    }
}
