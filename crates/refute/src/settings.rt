// What a refutation rests on, and what it looks for.
ghost use Rattle.std.specs.Prelude.{◌<◌, ◌^◌, ◌≡◌, IfOk, length};

use ml_kernel::Thm;
use ml_pat::VarNo;
use prove_open::{Given, first_new};
use std::alloc::AllocError;
use term_core::{SortId, Term};

// What is looked for while a pattern is compared with a term.
#[derive(Drop)]
pub(crate) enum Goal {
    // A clash.
    Clash,
    // A clash, or this variable together with this term. The theorem denies, under the hypothesis,
    // that the two are equal.
    Binding(u32, Term, Thm),
}

// A hypothesis on variables, and what is looked for under it.
#[derive(Drop)]
pub(crate) struct Setting<'a> {
    // The hypothesis.
    pub(crate) given: Given,
    // The sorts of the variables.
    pub(crate) sorts: &'a [SortId],
    // A variable that is none of these.
    pub(crate) new: VarNo,
    // What is looked for.
    pub(crate) goal: Goal,
}

// A variable that is none of those that have these sorts. `AllocError`: there is none below 2^32.
pub(crate) fn new_variable(sorts: &[SortId]) -> Result<VarNo, AllocError>
    ensures { IfOk result (λ y. y.0 ≡ length sorts.now) }
{
    Ok(VarNo(first_new(sorts)?))
}

// Has no effect at run time. It states that there are fewer than 2^32 sorts.
pub(crate) fn few_sorts(sorts: &[SortId], new: u32)
    requires { new ≡ length sorts.now }
    ensures { length sorts.now < 2 ^ 32 }
{}
