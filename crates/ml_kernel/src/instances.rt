// Instances of patterns with pattern variables.
ghost use Rattle.std.specs.Prelude.{◌≡◌, length, slice_index_or, option_copied, IfOk};
ghost use Rattle.ml_pat.specs.PatternView.{pattern_of};
ghost use Rattle.ml_kernel.specs.Lemmas.{instance, IsMetaBelow};
ghost use Rattle.ml_kernel.specs.Spines.{around};

use ml_pat::{MForm, MPat, spine_part};
use std::alloc::{AllocError, Global};

// The pattern with its pattern variables replaced by patterns. If there are no such patterns, the
// cost does not depend on the pattern.
pub(crate) fn instance(alloc: Global, metas: &[MPat], pat: &MPat) -> Result<MPat, AllocError>
    requires { IsMetaBelow (length metas.now) pat.now }
    ensures { IfOk result (λ made. made ≡ instance metas.now pat.now) }
{
    if metas.is_empty() {
        return pat.share();
    }
    filled(alloc, metas, pat)
}

// It loops down the spine, because patterns are deep there, and back up. It recurses into other
// parts.
#[cycle(filled)]
fn filled(alloc: Global, metas: &[MPat], pat: &MPat) -> Result<MPat, AllocError>
    ensures { IfOk result (λ made. made ≡ instance metas.now pat.now) }
{
    let mut above = Vec::new(alloc);
    let mut lowest = pat;
    while let Some(part) = spine_part(lowest.form()) {
        above.push(lowest)?;
        lowest = part;
    }
    let mut made = filled_around(alloc, metas, lowest, lowest)?;
    while let Some(whole) = above.pop() {
        made = filled_around(alloc, metas, whole, &made)?;
    }
    Ok(made)
}

// The instance of a pattern, built around the instance of its part along the spine, if it has one.
#[cycle(filled)]
fn filled_around(
    alloc: Global,
    metas: &[MPat],
    pat: &MPat,
    spine: &MPat,
) -> Result<MPat, AllocError>
    ensures { IfOk result (λ made. made ≡ around metas.now spine.now pat.now) }
{
    match pat.form() {
        MForm::Bot | MForm::Top | MForm::Var(_) | MForm::Const(_) => pat.share(),
        MForm::Imp(_, q) => MPat::imp(alloc, spine, &filled(alloc, metas, q)?),
        MForm::Not(_) => MPat::not(alloc, spine),
        MForm::And(_, q) => MPat::and(alloc, spine, &filled(alloc, metas, q)?),
        MForm::Or(p, _) => MPat::or(alloc, &filled(alloc, metas, p)?, spine),
        MForm::Equal(_, q) => MPat::equal(alloc, spine, &filled(alloc, metas, q)?),
        MForm::Member(_, q) => MPat::member(alloc, spine, &filled(alloc, metas, q)?),
        MForm::Fun(_, s) => MPat::fun(alloc, spine, *s),
        MForm::Ex(x, s, _) => MPat::ex(alloc, *x, *s, spine),
        MForm::All(x, s, _) => MPat::all(alloc, *x, *s, spine),
        MForm::App(_, q) => MPat::app(alloc, spine, &filled(alloc, metas, q)?),
        MForm::At(_, s) => MPat::at(alloc, spine, *s),
        MForm::Next(_) => MPat::next(alloc, spine),
        MForm::Ev(_) => MPat::ev(alloc, spine),
        MForm::Meta(i) => filled_meta(metas, *i, pat),
    }
}

// The pattern for a pattern variable. If there is none, the variable itself.
fn filled_meta(metas: &[MPat], i: u32, pat: &MPat) -> Result<MPat, AllocError>
    ensures { IfOk result (λ made. made ≡ slice_index_or metas.now i pat.now) }
{
    match metas.get(i as usize) {
        Some(by) => by.share(),
        None => pat.share(),
    }
}
