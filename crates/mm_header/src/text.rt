// The text of the header.
ghost use Rattle.std.specs.Prelude.{◌≡◌, ◌++◌, map, IfOk, OnOk, OnErr};
ghost use Rattle.std.specs.List.{flat_map, zip};
ghost use Rattle.mm_header.specs.HeaderTable.{pair_of, row_of, type_texts};
ghost use Rattle.mm_header.specs.HeaderText.{apart_line, declarations_text, header_bytes};
ghost use Rattle.mm_header.specs.HeaderText.{hypothesis_line, row_text, statement_line, type_line};
ghost use Rattle.mm_header.specs.HeaderRows.{endings, turnstile_text};

use crate::declarations::{CONSTANTS, HeaderVariable, VARIABLE_NAMES, variables};
use crate::rows::{HeaderRow, table};
use std::alloc::{AllocError, Global};

/// Adds the text of the header, 5,968 bytes, to a text. `AllocError`: out of memory; then the text
/// stays as it was.
pub fn header_text(to: &mut Vec<u8>) -> Result<(), AllocError>
    ensures text { OnOk result (to.new.items ≡ to.old.items ++ header_bytes) }
    ensures unchanged { OnErr result (to.new.items ≡ to.old.items) }
{
    let header = whole_header(*to.allocator())?;
    to.extend_from_slice(&header)
}

/// The text of the header.
fn whole_header(alloc: Global) -> Result<Vec<u8>, AllocError>
    ensures text { IfOk result (λ v. v.items ≡ header_bytes) }
{
    let mut text = Vec::new(alloc);
    push_declarations(&mut text)?;
    push_rows(&mut text, table())?;
    Ok(text)
}

/// Adds pieces of text, one after the other.
fn push(to: &mut Vec<u8>, pieces: &[&str]) -> Result<(), AllocError>
    ensures text { OnOk result (to.new.items ≡ to.old.items ++ flat_map (λ p. p.now) pieces.now) }
{
    for piece in pieces {
        to.extend_from_slice(piece.as_bytes())?;
    }
    Ok(())
}

/// Adds the constants, and the variables with their types.
fn push_declarations(to: &mut Vec<u8>) -> Result<(), AllocError>
    ensures text { OnOk result (to.new.items ≡ to.old.items ++ declarations_text) }
{
    push(to, &["$c ", CONSTANTS, " $.\n$v ", VARIABLE_NAMES, " $.\n"])?;
    push_types(to, variables())
}

/// Adds the `$f` of each variable.
fn push_types(to: &mut Vec<u8>, types: &[HeaderVariable]) -> Result<(), AllocError>
    ensures text { OnOk result
        (to.new.items ≡ to.old.items ++ flat_map type_line (map type_texts types.now)) }
{
    for typed in types {
        push(
            to,
            &[
                typed.label,
                " $f ",
                typed.typecode,
                " ",
                typed.name,
                " $.\n",
            ],
        )?;
    }
    Ok(())
}

/// Adds rows.
fn push_rows(to: &mut Vec<u8>, rows: &[HeaderRow]) -> Result<(), AllocError>
    ensures text { OnOk result
        (to.new.items ≡ to.old.items ++ flat_map row_text (map row_of rows.now)) }
{
    for row in rows {
        push_row(to, row)?;
    }
    Ok(())
}

/// Adds a row, in a block if it has hypotheses or pairs.
fn push_row(to: &mut Vec<u8>, row: &HeaderRow) -> Result<(), AllocError>
    ensures text { OnOk result (to.new.items ≡ to.old.items ++ row_text (row_of row.now)) }
{
    if row.apart.is_empty() && row.hyps.is_empty() {
        return push_statement(to, row);
    }
    push(to, &["${\n"])?;
    push_pairs(to, row.apart)?;
    push_hypotheses(to, row.label, row.hyps)?;
    push_statement(to, row)?;
    push(to, &["$}\n"])
}

/// Adds a `$d` for each pair.
fn push_pairs(to: &mut Vec<u8>, pairs: &[(&str, &str)]) -> Result<(), AllocError>
    ensures text { OnOk result
        (to.new.items ≡ to.old.items ++ flat_map apart_line (map pair_of pairs.now)) }
{
    for pair in pairs {
        push(to, &["$d ", pair.0, " ", pair.1, " $.\n"])?;
    }
    Ok(())
}

/// Adds the hypotheses of the row with this label, at most the first two.
fn push_hypotheses(
    to: &mut Vec<u8>,
    label: &'static str,
    hyps: &[&'static str],
) -> Result<(), AllocError>
    ensures text { OnOk result (to.new.items
        ≡ to.old.items
        ++ flat_map (hypothesis_line label.now) (zip endings (map (λ h. h.now) hyps.now))) }
{
    if let Some(first) = hyps.first() {
        push_hypothesis(to, label, ".1", first)?;
    }
    if let Some(second) = hyps.get(1) {
        push_hypothesis(to, label, ".2", second)?;
    }
    Ok(())
}

/// Adds a hypothesis of the row with this label. The label of the hypothesis is this label with the
/// given ending.
fn push_hypothesis(
    to: &mut Vec<u8>,
    label: &'static str,
    ending: &'static str,
    hyp: &'static str,
) -> Result<(), AllocError>
    ensures text { OnOk result
        (to.new.items ≡ to.old.items ++ hypothesis_line label.now (ending.now, hyp.now)) }
{
    push(to, &[label, ending, " $e ", turnstile(hyp), hyp, " $.\n"])
}

/// Adds the `$a` of a row.
fn push_statement(to: &mut Vec<u8>, row: &HeaderRow) -> Result<(), AllocError>
    ensures text { OnOk result (to.new.items ≡ to.old.items ++ statement_line (row_of row.now)) }
{
    push(
        to,
        &[
            row.label,
            " $a ",
            turnstile(row.statement),
            row.statement,
            " $.\n",
        ],
    )
}

/// What comes before a statement: nothing if it begins with `#`, and otherwise `|-` and a space.
fn turnstile(statement: &str) -> &'static str
    ensures { result.now ≡ turnstile_text statement.now }
{
    match statement.as_bytes() {
        [b'#', ..] => "",
        _ => "|- ",
    }
}
