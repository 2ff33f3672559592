// The rows of the header, by what they state.

ghost use Rattle.std.specs.Prelude.{◌≡◌, ◌++◌, ◌∷◌, [], IfOk, MatchOption, map, true, is_none};
ghost use Rattle.rule_core.specs.Named.{number_of_name};
ghost use Rattle.rule_core.specs.DistinctNames.{names_of};
ghost use Rattle.std.specs.Prelude.{option_map, slice_get};
ghost use Rattle.mm_header.specs.Header.{header_rows};
ghost use Rattle.mm_header.specs.HeaderTable.{row_of};
ghost use Rattle.mm_check.specs.HeaderLookup.{header_statements, StatesNothing, IsRowOf, HasNoRow};
ghost use Rattle.mm_check.specs.HeaderLookup.{IsOnlyRow};
ghost use Rattle.mm_check.specs.RowTexts.{key_of};
ghost use Rattle.mm_check.specs.Stated.{words};

use crate::header::{expression, key_of, same_words};
use mm_header::{HeaderRow, table};
use rule_core::Table;
use std::alloc::{AllocError, Global};

/// The rows of the header. A row is found by the text of its statement.
#[derive(Drop)]
pub(crate) struct Rows {
    numbers: Table<()>,
    ghost numbered: { names_of numbers ≡ header_statements },
}

impl Rows {
    /// All rows.
    pub(crate) fn new(alloc: Global) -> Result<Rows, AllocError> {
        let mut numbers = Table::new(alloc);
        add_statements(alloc, &mut numbers, table())?;
        Ok(Rows { numbers })
    }

    /// The row whose statement has these words. Returns `None` exactly when there is none.
    pub(crate) fn find(
        &self,
        alloc: Global,
        statement: &[&[u8]],
    ) -> Result<Option<&'static HeaderRow>, AllocError>
        ensures { IfOk result (λ r. MatchOption r (HasNoRow (words statement.now))
            (λ row. IsOnlyRow (words statement.now) row.now)) }
    {
        let key = key_of(alloc, statement)?;
        let Some(row) = self.row(&key) else {
            return Ok(None);
        };
        let expected = expression(alloc, row.statement)?;
        if same_words(statement, &expected) {
            Ok(Some(row))
        } else {
            Ok(None)
        }
    }

    /// The row whose statement is this text in the header.
    fn row(&self, key: &[u8]) -> Option<&'static HeaderRow>
        ensures { MatchOption result (StatesNothing key.now) (λ row. IsRowOf key.now row.now) }
    {
        let Ok(text) = str::from_utf8(key) else {
            return None;
        };
        match self.numbers.number(text) {
            None => None,
            Some(number) => row_numbered(number),
        }
    }
}

/// The row with this number, from 0.
fn row_numbered(number: usize) -> Option<&'static HeaderRow>
    ensures { option_map (λ r. row_of r.now) result ≡ slice_get header_rows number }
{
    let rows: &'static [HeaderRow] = table();
    rows.get(number)
}

/// Gives the statements of all rows numbers, in order.
fn add_statements(
    alloc: Global,
    numbers: &mut Table<()>,
    rows: &[HeaderRow],
) -> Result<(), AllocError>
    requires rows { map row_of rows.now ≡ header_rows }
    requires none { numbers.old ≡ [] }
    ensures { IfOk result (λ _. names_of numbers.new ≡ header_statements) }
{
    for row in rows {
        add_statement(alloc, numbers, row.statement)?;
    }
    Ok(())
}

/// Gives a statement the next number, if it has none.
fn add_statement(alloc: Global, numbers: &mut Table<()>, statement: &str) -> Result<(), AllocError>
    ensures { IfOk result (λ _. is_none (number_of_name numbers.old statement.now) ≡ true
        → names_of numbers.new ≡ names_of numbers.old ++ statement.now ∷ []) }
{
    numbers.insert(String::from_str(alloc, statement)?, ())?;
    Ok(())
}
