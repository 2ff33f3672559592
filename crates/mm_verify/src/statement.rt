// Statements of assertions.
ghost use Rattle.std.specs.Prelude.{◌≡◌, ◌++◌, length, drop, IfOk, OnOk};
ghost use Rattle.mm_frame.specs.NumberedSteps.{same_numbers};
ghost use Rattle.mm_verify.specs.Filling.{filled, AreWithin};
ghost use Rattle.mm_verify.specs.StatementView.{statement_parts};

use crate::filling::{fill_reserved, has_empty_text, is_filled};
use crate::long_statement::LongStatement;
use crate::parts::Part;
use crate::present::Present;
use crate::stack::Stack;
use std::alloc::AllocError;

/// The parts of a statement. `statement_parts` are these.
#[derive(Drop)]
pub(crate) enum Statement {
    /// Few parts: a step looks at each.
    Short(Vec<Part>),
    /// Many parts: a step passes over those whose texts are empty.
    Long(LongStatement),
}

impl Statement {
    /// Whether an entry is the statement, with the texts of the entries from `base` on. If it has
    /// fewer symbols than the statement has parts, some texts have to be empty. It takes time in
    /// the length of the entry and in the number of different symbols, times the logarithm of the
    /// number of parts.
    pub(crate) fn is_filled(
        &self,
        stack: &Stack<'_>,
        base: usize,
        entry: &[u32],
        present: &mut Present,
    ) -> Result<bool, AllocError>
        requires within { AreWithin (length (drop base stack.now)) (statement_parts self.now) }
        ensures { IfOk result (λ r. r
            ≡ same_numbers entry.now (filled (drop base stack.now) (statement_parts self.now))) }
    {
        match self {
            Statement::Short(parts) => Ok(is_filled(parts, stack, base, entry)),
            Statement::Long(long) => {
                let are_empty = entry.len() < long.len();
                present.take(long, stack, base, are_empty)?;
                Ok(is_filled(&present.parts, stack, base, entry))
            }
        }
    }

    /// Appends the statement, with the texts of the entries from `base` on, for an entry of the
    /// stack. It takes time in the length of what is appended and in the number of the entries,
    /// times the logarithm of the number of parts.
    pub(crate) fn fill(
        &self,
        stack: &Stack<'_>,
        base: usize,
        to: &mut Vec<u32>,
        present: &mut Present,
    ) -> Result<(), AllocError>
        requires within { AreWithin (length (drop base stack.now)) (statement_parts self.now) }
        ensures filled { OnOk result (to.new.items
            ≡ to.old.items ++ filled (drop base stack.now) (statement_parts self.now)) }
    {
        match self {
            Statement::Short(parts) => fill_reserved(parts, stack, base, to),
            Statement::Long(long) => {
                let are_empty = has_empty_text(stack, base);
                present.take(long, stack, base, are_empty)?;
                fill_reserved(&present.parts, stack, base, to)
            }
        }
    }
}
