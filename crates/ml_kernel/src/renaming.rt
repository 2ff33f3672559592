// Patterns with other numbers for their variables.
ghost use Rattle.std.specs.Prelude.{◌≡◌, IfOk};
ghost use Rattle.ml_kernel.specs.Renamings.{by_place, renamed};
ghost use Rattle.ml_kernel.specs.Spines.{renamed_around};
ghost use Rattle.ml_kernel.specs.StepView.{numbers_of};

use ml_pat::{MForm, MPat, VarNo, spine_part};
use std::alloc::{AllocError, Global};

/// What an object variable becomes if the list has the new variables by place. If the list is
/// shorter, the variable does not change.
#[tactic(auto, using(crate::proofs::RenamingLaws::renamed_or))]
pub fn renamed(new: &[VarNo], x: VarNo) -> VarNo
    ensures { result.0 ≡ by_place (numbers_of new.now) x.0 }
{
    new.get(x.0 as usize).copied().unwrap_or(x)
}

// The pattern with its variables renamed in this way. It loops down the spine, because patterns are
// deep there, and back up. It recurses into other parts.
#[cycle(renamed_pattern)]
pub(crate) fn renamed_pattern(alloc: Global, new: &[VarNo], pat: &MPat) -> Result<MPat, AllocError>
    ensures { IfOk result (λ made. made ≡ renamed (by_place (numbers_of new.now)) pat.now) }
{
    let mut above = Vec::new(alloc);
    let mut lowest = pat;
    while let Some(part) = spine_part(lowest.form()) {
        above.push(lowest)?;
        lowest = part;
    }
    let mut made = renamed_around(alloc, new, lowest, lowest)?;
    while let Some(whole) = above.pop() {
        made = renamed_around(alloc, new, whole, &made)?;
    }
    Ok(made)
}

// The renamed pattern, built around its renamed part along the spine, if it has one.
#[cycle(renamed_pattern)]
fn renamed_around(
    alloc: Global,
    new: &[VarNo],
    pat: &MPat,
    spine: &MPat,
) -> Result<MPat, AllocError>
    ensures { IfOk result
        (λ made. made ≡ renamed_around (by_place (numbers_of new.now)) spine.now pat.now) }
{
    match pat.form() {
        MForm::Bot | MForm::Top | MForm::Meta(_) | MForm::Const(_) => pat.share(),
        MForm::Var(x) => MPat::var(alloc, renamed(new, *x)),
        MForm::Imp(_, q) => MPat::imp(alloc, spine, &renamed_pattern(alloc, new, q)?),
        MForm::Not(_) => MPat::not(alloc, spine),
        MForm::And(_, q) => MPat::and(alloc, spine, &renamed_pattern(alloc, new, q)?),
        MForm::Or(p, _) => MPat::or(alloc, &renamed_pattern(alloc, new, p)?, spine),
        MForm::Equal(_, q) => MPat::equal(alloc, spine, &renamed_pattern(alloc, new, q)?),
        MForm::Member(_, q) => MPat::member(alloc, spine, &renamed_pattern(alloc, new, q)?),
        MForm::Fun(_, s) => MPat::fun(alloc, spine, *s),
        MForm::Ex(x, s, _) => MPat::ex(alloc, renamed(new, *x), *s, spine),
        MForm::All(x, s, _) => MPat::all(alloc, renamed(new, *x), *s, spine),
        MForm::App(_, q) => MPat::app(alloc, spine, &renamed_pattern(alloc, new, q)?),
        MForm::At(_, s) => MPat::at(alloc, spine, *s),
        MForm::Next(_) => MPat::next(alloc, spine),
        MForm::Ev(_) => MPat::ev(alloc, spine),
    }
}
