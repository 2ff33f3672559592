// Matrices of patterns.
ghost use Rattle.std.specs.Prelude.{◌≡◌, ◌≢◌, ◌<◌, ◌≤◌, ℕ, [], map, length, slice_get, Some, IfOk};
ghost use Rattle.std.specs.Prelude.{◌^◌};
ghost use Rattle.std.specs.Prelude.{◌+◌, ◌++◌, ◌∷◌, List, OnOk, take, drop};
ghost use Rattle.term_core.specs.RulePatterns.{plain_pattern};
ghost use Rattle.rule_core.specs.Subsorts.{IsBelow};
ghost use Rattle.pat_matrix.specs.Heads.{PlainHead};
ghost use Rattle.pat_matrix.specs.HeadView.{head_of, is_listed};
ghost use Rattle.pat_matrix.specs.Positions.{row_asks};
ghost use Rattle.pat_matrix.specs.Rows.{specialized, others, some_takes, replaced, below_from};
ghost use Rattle.pat_matrix.specs.Rows.{width};
ghost use Rattle.pat_matrix.specs.Rows.{collapsed_rows, numbered, first_columns, numbers_from};
ghost use Rattle.pat_matrix.specs.Rows.{wants, is_wild};
ghost use Rattle.pat_matrix.specs.Groups.{IsSplit};
ghost use Rattle.pat_matrix.specs.MatrixView.{plain_rows, lent_rows, rows_at, rows_of, row_of};
ghost use Rattle.pat_matrix.specs.MatrixView.{columns_of, position_of, order_of, positions};

use crate::cells::asked_at;
use crate::collapsing::all_collapsed;
use crate::columns::{add_below, add_columns, subjects};
use crate::groups::{Groups, Split, add_heads};
use crate::heads::{Head, takes};
use crate::order::Order;
use indexmap::IndexSet;
use rule_core::Subsorts;
use std::alloc::{AllocError, Global};
use std::rc::Rc;
use term_core::RulePat;

/// Rows of patterns that are left, and columns, which are positions of the subjects. The rows are
/// shared: a matrix that is made of another has only the numbers of its own rows. A matrix in which
/// no row is left has no column.
#[derive(Drop)]
pub struct Matrix<'s> {
    rows: Rc<Vec<Vec<RulePat>>>,
    order: Order<'s>,
    left: Vec<u32>,
    columns: Vec<Vec<usize>>,
}

impl<'s> Matrix<'s> {
    /// The matrix of these rows, numbered from 0, with nested injections joined, and with one
    /// column for each pattern of the first row. `sorts` is more than each sort that is below
    /// another. An error: out of memory.
    pub fn of(
        alloc: Global,
        rows: &[&[RulePat]],
        subsorts: &'s Subsorts,
        sorts: u32,
    ) -> Result<Matrix<'s>, AllocError>
        requires count { length rows.now ≤ 2 ^ 32 }
        requires sorts { (a b : ℕ) → IsBelow subsorts.now a b → a < sorts }
        ensures rows { IfOk result
            (λ m. rows_of m ≡ numbered 0 (collapsed_rows (lent_rows rows.now))) }
        ensures columns { IfOk result (λ m. columns_of m ≡ first_columns (lent_rows rows.now)) }
        ensures order { IfOk result (λ m. order_of m ≡ subsorts.now) }
    {
        let columns = match rows.first() {
            None => Vec::new(alloc),
            Some(row) => subjects(alloc, row.len())?,
        };
        let left = numbers(alloc, rows.len())?;
        let rows = Rc::new(alloc, collapsed_rows(alloc, rows)?)?;
        Ok(Matrix {
            rows,
            order: Order::new(subsorts, sorts),
            left,
            columns,
        })
    }

    /// The heads that the rows have in a column, in the order in which the rows have them. Two rows
    /// may have the same head. The injection of a variable has the heads of all injections that it
    /// matches. An error: out of memory. It takes one step for each row and each number of the
    /// column's position, and one for each sort for each row with such a variable.
    pub fn heads(&self, alloc: Global, col: usize) -> Result<IndexSet<Head>, AllocError>
        requires { rows_of self.now ≢ [] → col < length (columns_of self.now) }
        ensures { IfOk result (λ heads. (h : PlainHead) → is_listed heads.keys h
            ≡ some_takes (order_of self.now) (position_of self.now col) h (rows_of self.now)) }
    {
        let split = self.split(alloc, &self.left, self.position_or_empty(col))?;
        Ok(split.groups.heads)
    }

    /// These rows by what they ask at the position: the groups of those that have each head, and
    /// those that ask nothing there. The injection of a variable has the heads of all injections
    /// that it matches. An error: out of memory. It takes one step for each row and each number of
    /// the position, and one for each sort for each row with such a variable.
    pub fn split(
        &self,
        alloc: Global,
        rows: &[u32],
        position: &[usize],
    ) -> Result<Split, AllocError>
        ensures { IfOk result (IsSplit self.now position.now rows.now) }
    {
        let groups = Groups::new(alloc);
        let wild = Vec::new(alloc);
        let mut split = Split { groups, wild };
        for row in rows {
            self.put(alloc, *row, position, &mut split)?;
        }
        Ok(split)
    }

    /// The rows that can match subjects with this head in the column, in order. One column for each
    /// child of the head is in the place of the column. An error: out of memory. It takes one step
    /// for each row and each number of the column's position, and copies the columns.
    pub fn specialize(
        &self,
        alloc: Global,
        col: usize,
        head: &Head,
    ) -> Result<Matrix<'s>, AllocError>
        requires { rows_of self.now ≢ [] → col < length (columns_of self.now) }
        ensures rows { IfOk result (λ m. rows_of m
            ≡ specialized (order_of self.now) (position_of self.now col) (head_of head.now)
            (rows_of self.now)) }
        ensures columns { IfOk result (λ m. columns_of m
            ≡ replaced (rows_of m) (columns_of self.now) col
            (below_from (position_of self.now col) 0 (width (head_of head.now)))) }
        ensures order { IfOk result (λ m. order_of m ≡ order_of self.now) }
    {
        let left = self.wanting(alloc, self.position_or_empty(col), head)?;
        self.with(alloc, left, col, head.width())
    }

    /// The rows that ask nothing in the column, in order. The column is taken away. An error: out
    /// of memory. It takes one step for each row and each number of the column's position, and
    /// copies the columns.
    pub fn rest(&self, alloc: Global, col: usize) -> Result<Matrix<'s>, AllocError>
        requires { rows_of self.now ≢ [] → col < length (columns_of self.now) }
        ensures rows { IfOk result
            (λ m. rows_of m ≡ others (position_of self.now col) (rows_of self.now)) }
        ensures columns { IfOk result
            (λ m. columns_of m ≡ replaced (rows_of m) (columns_of self.now) col []) }
        ensures order { IfOk result (λ m. order_of m ≡ order_of self.now) }
    {
        let left = self.asking_nothing(alloc, self.position_or_empty(col))?;
        self.with(alloc, left, col, 0)
    }

    /// The number of columns.
    pub fn columns(&self) -> usize
        ensures { result ≡ length (columns_of self.now) }
    {
        self.columns.len()
    }

    /// The position of a column: the number of a subject, and after it the numbers of the children
    /// on the way down.
    pub fn position(&self, col: usize) -> &[usize]
        requires { col < length (columns_of self.now) }
        ensures { result.now ≡ position_of self.now col }
    {
        self.position_or_empty(col)
    }

    /// The numbers of the rows that are left, in order.
    pub fn left(&self) -> &[u32]
        ensures { result.now ≡ map (λ r. r.0) (rows_of self.now) }
    {
        &self.left
    }

    /// The patterns of the row with this number, with nested injections joined. It has none if
    /// there is no such row.
    pub fn row(&self, no: u32) -> &[RulePat]
        ensures { map plain_pattern result.now ≡ row_of self.now no }
    {
        match self.rows.get(no as usize) {
            Some(row) => row,
            None => &[],
        }
    }

    /// The order of sorts by which its rows match.
    pub fn subsorts(&self) -> &'s Subsorts
        ensures { result.now ≡ order_of self.now }
    {
        self.order.subsorts
    }

    // The position of a column. It is empty if there is no such column.
    fn position_or_empty(&self, col: usize) -> &[usize]
        ensures { result.now ≡ position_of self.now col }
    {
        match self.columns.get(col) {
            Some(position) => position,
            None => &[],
        }
    }

    // Puts one row more into a split at the position.
    fn put(
        &self,
        alloc: Global,
        no: u32,
        position: &[usize],
        split: &mut Split,
    ) -> Result<(), AllocError>
        requires { length split.old.groups.rows.items ≡ length split.old.groups.heads.keys }
        ensures { OnOk result ((rows : List ℕ) → IsSplit self.now position.now rows split.old →
            IsSplit self.now position.now (rows ++ no ∷ []) split.new) }
    {
        match asked_at(self.row(no), position) {
            None => split.wild.push(no)?,
            Some(pat) => add_heads(alloc, pat, no, &self.order, &mut split.groups)?,
        }
        Ok(())
    }

    // Whether a row can match subjects with this head at the position.
    fn wants(&self, no: u32, position: &[usize], head: &Head) -> bool
        ensures { result ≡ wants (order_of self.now) (head_of head.now)
            (row_asks (row_of self.now no) position.now) }
    {
        match asked_at(self.row(no), position) {
            None => true,
            Some(pat) => takes(pat, head, self.order.subsorts),
        }
    }

    // Whether a row asks nothing at the position.
    fn is_wild(&self, no: u32, position: &[usize]) -> bool
        ensures { result ≡ is_wild (row_asks (row_of self.now no) position.now) }
    {
        asked_at(self.row(no), position).is_none()
    }

    // The numbers of the rows that can match subjects with this head at the position.
    fn wanting(
        &self,
        alloc: Global,
        position: &[usize],
        head: &Head,
    ) -> Result<Vec<u32>, AllocError>
        ensures { IfOk result (λ left. rows_at self.now.rows.value.items left.items
            ≡ specialized (order_of self.now) position.now (head_of head.now) (rows_of self.now)) }
    {
        let mut left = Vec::new(alloc);
        for no in &self.left {
            if self.wants(*no, position, head) {
                left.push(*no)?;
            }
        }
        Ok(left)
    }

    // The numbers of the rows that ask nothing at the position.
    fn asking_nothing(&self, alloc: Global, position: &[usize]) -> Result<Vec<u32>, AllocError>
        ensures { IfOk result (λ left. rows_at self.now.rows.value.items left.items
            ≡ others position.now (rows_of self.now)) }
    {
        let mut left = Vec::new(alloc);
        for no in &self.left {
            if self.is_wild(*no, position) {
                left.push(*no)?;
            }
        }
        Ok(left)
    }

    // The columns, with so many children of a column's position in the place of the column.
    fn replaced(
        &self,
        alloc: Global,
        col: usize,
        count: usize,
    ) -> Result<Vec<Vec<usize>>, AllocError>
        requires { col < length (columns_of self.now) }
        ensures { IfOk result (λ columns. positions columns.items
            ≡ (take col (columns_of self.now) ++ below_from (position_of self.now col) 0 count)
            ++ drop (col + 1) (columns_of self.now)) }
    {
        let mut columns = Vec::with_capacity(alloc, self.columns.len())?;
        add_columns(alloc, &self.columns[..col], &mut columns)?;
        add_below(alloc, self.position_or_empty(col), count, &mut columns)?;
        add_columns(alloc, &self.columns[col + 1..], &mut columns)?;
        Ok(columns)
    }

    // The matrix with these rows of this one, and with so many children of a column's position in
    // the place of the column.
    fn with(
        &self,
        alloc: Global,
        left: Vec<u32>,
        col: usize,
        count: usize,
    ) -> Result<Matrix<'s>, AllocError>
        requires { left.items ≢ [] → col < length (columns_of self.now) }
        ensures rows { IfOk result
            (λ m. rows_of m ≡ rows_at self.now.rows.value.items left.items) }
        ensures columns { IfOk result (λ m. columns_of m
            ≡ replaced (rows_of m) (columns_of self.now) col
            (below_from (position_of self.now col) 0 count)) }
        ensures order { IfOk result (λ m. order_of m ≡ order_of self.now) }
    {
        let columns = if left.is_empty() {
            Vec::new(alloc)
        } else {
            self.replaced(alloc, col, count)?
        };
        Ok(Matrix {
            rows: self.rows.clone()?,
            order: self.order,
            left,
            columns,
        })
    }
}

// The numbers below a number.
fn numbers(alloc: Global, count: usize) -> Result<Vec<u32>, AllocError>
    requires { count ≤ 2 ^ 32 }
    ensures { IfOk result (λ numbers. numbers.items ≡ numbers_from 0 count) }
{
    let mut numbers = Vec::with_capacity(alloc, count)?;
    for number in 0..count {
        numbers.push(number as u32)?;
    }
    Ok(numbers)
}

// The rows, with nested injections joined.
fn collapsed_rows(alloc: Global, rows: &[&[RulePat]]) -> Result<Vec<Vec<RulePat>>, AllocError>
    ensures { IfOk result
        (λ done. plain_rows done.items ≡ collapsed_rows (lent_rows rows.now)) }
{
    let mut done = Vec::with_capacity(alloc, rows.len())?;
    for row in rows {
        done.push(all_collapsed(alloc, row)?)?;
    }
    Ok(done)
}
