// Marks, by number.
ghost use Rattle.std.specs.Prelude.{◌≡◌, ◌<◌, ◌==◌, ◌||◌, ℕ, false, length, IfOk};
ghost use Rattle.kore_equations.specs.Marks.{is_marked};

use std::alloc::{AllocError, Global};

/// Returns `len` marks, none of them set. The error: out of memory.
pub fn no_marks(alloc: Global, len: usize) -> Result<Vec<bool>, AllocError>
    ensures len { IfOk result (λ marks. length marks.items ≡ len) }
    ensures none { IfOk result (λ marks. (n : ℕ) → is_marked marks.items n ≡ false) }
{
    let mut marks = Vec::new(alloc);
    marks.resize(len, false)?;
    Ok(marks)
}

/// Sets the mark with this number.
pub fn mark(marks: &mut Vec<bool>, number: usize)
    requires { number < length marks.old.items }
    ensures len { length marks.new.items ≡ length marks.old.items }
    ensures marked { (n : ℕ)
        → is_marked marks.new.items n ≡ (is_marked marks.old.items n || (n == number)) }
{
    marks[number] = true;
}
