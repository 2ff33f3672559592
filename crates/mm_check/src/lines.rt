// The lines of a database that justifies that one pattern reaches another.
ghost use Rattle.std.specs.Prelude.{◌≡◌, ◌++◌, OnOk, IfOk, All};
ghost use Rattle.ml_pat.specs.Leaves.{EachLeaf};
ghost use Rattle.ml_pat.specs.Patterns.{imp, ev};
ghost use Rattle.mm_justify.specs.Stating.{IsName, closed_over};
ghost use Rattle.mm_check.specs.JustifiedLines.{justified_lines, pattern_line};

use crate::ends::Checked;
use ml_pat::{MPat, Names};
use mm_proof::{TextPart, push_text};
use std::alloc::{AllocError, Global};

impl Checked {
    /// Three lines: `justified`, the tokens of the first pattern, and those of the second one. The
    /// patterns have no variables. An error: out of memory. The time is linear in the length of the
    /// lines.
    pub fn lines(&self, alloc: Global) -> Result<Vec<u8>, AllocError>
        requires names { All IsName self.now.names }
        requires closed { EachLeaf (closed_over self.now.names) (imp self.now.from (ev self.now.to)) }
        ensures { IfOk result
            (λ v. v.items ≡ justified_lines self.now.names self.now.from self.now.to) }
    {
        let mut lines = Vec::new(alloc);
        lines.extend_from_slice(b"justified\n")?;
        push_line(&mut lines, &self.names, &self.from)?;
        push_line(&mut lines, &self.names, &self.to)?;
        Ok(lines)
    }
}

/// Adds the tokens of a pattern with single spaces between them, and the end of the line.
fn push_line(lines: &mut Vec<u8>, names: &Names, pattern: &MPat) -> Result<(), AllocError>
    requires names { All IsName names.now }
    requires closed { EachLeaf (closed_over names.now) pattern.now }
    ensures { OnOk result (lines.new.items ≡ lines.old.items ++ pattern_line names.now pattern.now) }
{
    push_text(lines, names, 0, &[TextPart::Pattern(pattern)])?;
    lines.pop();
    lines.push(b'\n')?;
    Ok(())
}
