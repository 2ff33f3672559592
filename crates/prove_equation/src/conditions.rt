// The theorem on a condition, if there is one.
ghost use Rattle.std.specs.Prelude.{◌≡◌, IfOk};
ghost use Rattle.prove_equation.specs.Conditions.{listed};

use ml_kernel::Thm;
use std::alloc::{AllocError, Global};

/// Returns the theorem on a condition, if there is one, as a list. `AllocError`: out of memory.
pub fn given(alloc: Global, condition: &Option<Thm>) -> Result<Vec<Thm>, AllocError>
    ensures { IfOk result (λ v. v.items ≡ listed condition.now) }
{
    let mut theorems = Vec::new(alloc);
    if let Some(thm) = condition {
        theorems.push(thm.share(alloc)?)?;
    }
    Ok(theorems)
}
