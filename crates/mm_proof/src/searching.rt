// Whether a variable occurs in a pattern.
ghost use Rattle.std.specs.Prelude.{◌≡◌, ◌&&◌, ◌==◌, ◌+◌, ◌<◌, IfOk, not};
ghost use Rattle.ml_pat.specs.Judgements.{absent};
ghost use Rattle.ml_pat.specs.FormsIn.{forms_in};
ghost use Rattle.mm_proof.specs.Searching.{IsLeft, all_absent, all_forms, patterns_of};

use ml_pat::{MForm, MPat, VarNo};
use std::alloc::{AllocError, Global};

/// Whether x occurs nowhere in a pattern, neither bound nor free. A stack replaces recursion.
pub(crate) fn is_absent(alloc: Global, x: VarNo, pat: &MPat) -> Result<bool, AllocError>
    ensures { IfOk result (λ found. found ≡ absent x.0 pat.now) }
{
    let mut stack = Vec::new(alloc);
    stack.push(pat)?;
    while let Some(next) = stack.pop() {
        let going = is_absent_at(&mut stack, x, next)?;
        if !going {
            return Ok(false);
        }
    }
    Ok(true)
}

/// Whether x may still occur nowhere. The parts that are left to be searched are on the stack.
fn is_absent_at<'a>(stack: &mut Vec<&'a MPat>, x: VarNo, pat: &'a MPat) -> Result<bool, AllocError>
    ensures { IfOk result (λ going. IsLeft x.0 (absent x.0 pat.now) (forms_in pat.now)
        stack.old.items stack.new.items going) }
{
    match pat.form() {
        MForm::Bot | MForm::Top | MForm::Meta(_) | MForm::Const(_) => Ok(true),
        MForm::Var(y) => Ok(x != *y),
        MForm::Imp(p, q)
        | MForm::And(p, q)
        | MForm::Or(p, q)
        | MForm::Equal(p, q)
        | MForm::Member(p, q)
        | MForm::App(p, q) => put_both(stack, x, p, q),
        MForm::Not(p) | MForm::Fun(p, _) | MForm::At(p, _) | MForm::Next(p) | MForm::Ev(p) =>
            put_part(stack, x, p),
        MForm::Ex(y, _, p) | MForm::All(y, _, p) => put_body(stack, x, *y, p),
    }
}

/// Puts a part on the stack.
fn put_part<'a>(stack: &mut Vec<&'a MPat>, x: VarNo, p: &'a MPat) -> Result<bool, AllocError>
    ensures { IfOk result (λ going. IsLeft x.0 (absent x.0 p.now) (forms_in p.now + 1)
        stack.old.items stack.new.items going) }
{
    stack.push(p)?;
    Ok(true)
}

/// Puts two parts on the stack.
fn put_both<'a>(
    stack: &mut Vec<&'a MPat>,
    x: VarNo,
    p: &'a MPat,
    q: &'a MPat,
) -> Result<bool, AllocError>
    ensures { IfOk result (λ going.
        IsLeft x.0 (absent x.0 p.now && absent x.0 q.now) (forms_in p.now + forms_in q.now + 1)
        stack.old.items stack.new.items going) }
{
    stack.push(q)?;
    stack.push(p)?;
    Ok(true)
}

/// Puts the body of a quantifier of y on the stack, if y is not x.
fn put_body<'a>(
    stack: &mut Vec<&'a MPat>,
    x: VarNo,
    y: VarNo,
    p: &'a MPat,
) -> Result<bool, AllocError>
    ensures { IfOk result
        (λ going. IsLeft x.0 (not (x.0 == y.0) && absent x.0 p.now) (forms_in p.now + 1)
        stack.old.items stack.new.items going) }
{
    if x == y {
        return Ok(false);
    }
    put_part(stack, x, p)
}
