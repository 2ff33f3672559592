// Substitution without capture.
ghost use Rattle.std.specs.Prelude.{◌≡◌, ◌==◌, option_copied, IfOk};
ghost use Rattle.ml_pat.specs.Judgements.{fresh, substituted};
ghost use Rattle.ml_pat.specs.PatternView.{pattern_of};
ghost use Rattle.ml_pat.specs.SpinePart.{spine_part};
ghost use Rattle.ml_pat.specs.Spines.{with_parts};
ghost use Rattle.ml_pat.specs.Replacing.{replaced, around, both_replaced, one_replaced};
ghost use Rattle.ml_pat.specs.Replacing.{under_replaced};
ghost use Rattle.ml_pat.specs.declared.substitution.SubstitutionResult.TheVariants.{New};

use crate::judgements::fresh;
use crate::numbers::VarNo;
use crate::patterns::{MForm, MPat};
use std::alloc::{AllocError, Global};

// The outcome of replacing x in a pattern.
#[derive(Drop)]
pub(crate) enum SubstitutionResult {
    // The pattern does not change, because x is not free in it.
    Kept,
    // The pattern becomes this one.
    New(MPat),
    // There is no result, because a free variable of the replacement would be captured.
    Captured,
}

/// The pattern with `by` substituted for each free x, or None if a free variable of `by` would be
/// captured. Each part in which x is not free is shared. It loops along first parts, and along the
/// second part of a disjunction, because patterns are deep there, and recurses into other parts. An
/// error: out of memory.
pub fn subst(alloc: Global, pat: &MPat, x: VarNo, by: &MPat) -> Result<Option<MPat>, AllocError>
    ensures { IfOk result (λ r. r ≡ substituted pat.now x.0 by.now) }
{
    match replaced(alloc, x, by, pat)? {
        SubstitutionResult::Kept => Ok(Some(pat.share()?)),
        SubstitutionResult::New(made) => Ok(Some(made)),
        SubstitutionResult::Captured => Ok(None),
    }
}

// Goes down the spine and back up.
#[cycle(replaced)]
fn replaced(
    alloc: Global,
    x: VarNo,
    by: &MPat,
    pat: &MPat,
) -> Result<SubstitutionResult, AllocError>
    ensures { IfOk result (λ made. made ≡ replaced x.0 by.now pat.now) }
{
    let mut above = Vec::new(alloc);
    let mut lowest = pat;
    while let Some(part) = spine_part(lowest.form()) {
        above.push(lowest)?;
        lowest = part;
    }
    let mut made = replaced_around(alloc, x, by, lowest, SubstitutionResult::Kept)?;
    while let Some(whole) = above.pop() {
        made = replaced_around(alloc, x, by, whole, made)?;
    }
    Ok(made)
}

// The outcome for a pattern, given the outcome for its part along the spine, if it has one.
#[cycle(replaced)]
fn replaced_around(
    alloc: Global,
    x: VarNo,
    by: &MPat,
    pat: &MPat,
    spine: SubstitutionResult,
) -> Result<SubstitutionResult, AllocError>
    ensures { IfOk result (λ made. made ≡ around x.0 by.now spine pat.now) }
{
    match pat.form() {
        MForm::Bot | MForm::Top | MForm::Meta(_) | MForm::Const(_) => Ok(SubstitutionResult::Kept),
        MForm::Var(y) => if x == *y {
            Ok(SubstitutionResult::New(by.share()?))
        } else {
            Ok(SubstitutionResult::Kept)
        },
        MForm::Imp(p, q)
        | MForm::And(p, q)
        | MForm::Equal(p, q)
        | MForm::Member(p, q)
        | MForm::App(p, q) => {
            let second = replaced(alloc, x, by, q)?;
            both_replaced(alloc, pat, p, q, spine, second)
        }
        MForm::Or(p, q) => {
            let first = replaced(alloc, x, by, p)?;
            both_replaced(alloc, pat, p, q, first, spine)
        }
        MForm::Not(_) | MForm::Fun(_, _) | MForm::At(_, _) | MForm::Next(_) | MForm::Ev(_) =>
            one_replaced(alloc, pat, spine),
        MForm::Ex(y, _, _) | MForm::All(y, _, _) => if x == *y {
            Ok(SubstitutionResult::Kept)
        } else {
            under_replaced(alloc, pat, *y, by, spine)
        },
    }
}

// The outcome for a pattern with the two parts p and q.
fn both_replaced(
    alloc: Global,
    pat: &MPat,
    p: &MPat,
    q: &MPat,
    first: SubstitutionResult,
    second: SubstitutionResult,
) -> Result<SubstitutionResult, AllocError>
    ensures { IfOk result
        (λ made. made ≡ both_replaced (with_parts pat.now) p.now q.now first second) }
{
    match (first, second) {
        (SubstitutionResult::Kept, SubstitutionResult::Kept) => Ok(SubstitutionResult::Kept),
        (SubstitutionResult::New(r), SubstitutionResult::Kept) => new(alloc, pat, &r, q),
        (SubstitutionResult::Kept, SubstitutionResult::New(t)) => new(alloc, pat, p, &t),
        (SubstitutionResult::New(r), SubstitutionResult::New(t)) => new(alloc, pat, &r, &t),
        (SubstitutionResult::Captured, _) | (_, SubstitutionResult::Captured) => Ok(
            SubstitutionResult::Captured,
        ),
    }
}

// The outcome for a pattern with one part.
fn one_replaced(
    alloc: Global,
    pat: &MPat,
    first: SubstitutionResult,
) -> Result<SubstitutionResult, AllocError>
    ensures { IfOk result (λ made. made ≡ one_replaced (with_parts pat.now) first) }
{
    match first {
        SubstitutionResult::New(r) => new(alloc, pat, &r, &r),
        SubstitutionResult::Kept => Ok(SubstitutionResult::Kept),
        SubstitutionResult::Captured => Ok(SubstitutionResult::Captured),
    }
}

// The outcome for a pattern that binds y, where y is not the variable that is replaced.
fn under_replaced(
    alloc: Global,
    pat: &MPat,
    y: VarNo,
    by: &MPat,
    first: SubstitutionResult,
) -> Result<SubstitutionResult, AllocError>
    ensures { IfOk result
        (λ made. made ≡ under_replaced (with_parts pat.now) (fresh y.0 by.now) first) }
{
    match first {
        SubstitutionResult::New(r) => if fresh(y, by) {
            new(alloc, pat, &r, &r)
        } else {
            Ok(SubstitutionResult::Captured)
        },
        SubstitutionResult::Kept => Ok(SubstitutionResult::Kept),
        SubstitutionResult::Captured => Ok(SubstitutionResult::Captured),
    }
}

fn new(alloc: Global, pat: &MPat, p: &MPat, q: &MPat) -> Result<SubstitutionResult, AllocError>
    ensures { IfOk result (λ made. made ≡ New (with_parts pat.now p.now q.now)) }
{
    Ok(SubstitutionResult::New(with_parts(alloc, pat, p, q)?))
}

// The pattern with its first part, if it has one, replaced by p, and its second part, if it has
// one, replaced by q.
fn with_parts(alloc: Global, pat: &MPat, p: &MPat, q: &MPat) -> Result<MPat, AllocError>
    ensures { IfOk result (λ made. made ≡ with_parts pat.now p.now q.now) }
{
    match pat.form() {
        MForm::Bot | MForm::Top | MForm::Var(_) | MForm::Meta(_) | MForm::Const(_) => pat.share(),
        MForm::Imp(_, _) => MPat::imp(alloc, p, q),
        MForm::Not(_) => MPat::not(alloc, p),
        MForm::And(_, _) => MPat::and(alloc, p, q),
        MForm::Or(_, _) => MPat::or(alloc, p, q),
        MForm::Equal(_, _) => MPat::equal(alloc, p, q),
        MForm::Member(_, _) => MPat::member(alloc, p, q),
        MForm::Fun(_, s) => MPat::fun(alloc, p, *s),
        MForm::Ex(x, s, _) => MPat::ex(alloc, *x, *s, p),
        MForm::All(x, s, _) => MPat::all(alloc, *x, *s, p),
        MForm::App(_, _) => MPat::app(alloc, p, q),
        MForm::At(_, s) => MPat::at(alloc, p, *s),
        MForm::Next(_) => MPat::next(alloc, p),
        MForm::Ev(_) => MPat::ev(alloc, p),
    }
}

/// The part along which patterns of this form are deep, if they have parts: the second part of a
/// disjunction, and the first part of the others. A loop along these parts visits a deep pattern
/// without recursion.
pub fn spine_part(form: &MForm) -> Option<&MPat>
    ensures { option_copied result ≡ spine_part (pattern_of form.now) }
{
    match form {
        MForm::Imp(p, _)
        | MForm::And(p, _)
        | MForm::Or(_, p)
        | MForm::Equal(p, _)
        | MForm::Member(p, _)
        | MForm::App(p, _)
        | MForm::Not(p)
        | MForm::Fun(p, _)
        | MForm::Ex(_, _, p)
        | MForm::All(_, _, p)
        | MForm::At(p, _)
        | MForm::Next(p)
        | MForm::Ev(p) => Some(p),
        MForm::Bot | MForm::Top | MForm::Var(_) | MForm::Meta(_) | MForm::Const(_) => None,
    }
}
