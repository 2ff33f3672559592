// How the proof of a substitution is split into smaller works.
ghost use Rattle.std.specs.Prelude.{◌≡◌, OnOk};
ghost use Rattle.mm_proof.specs.WorkStacks.{PutsOn, one_tree, sorted_tree, two_tree};
ghost use Rattle.mm_proof.specs.WorkStacks.{under_tree};
ghost use Rattle.mm_proof.specs.Labels.{own_labels};
ghost use Rattle.mm_proof.specs.Trees.{first_part, second_part, substitution_by_form};
ghost use Rattle.mm_proof.specs.Trees.{substitution_tree};

use crate::freshness::expand_unchanged;
use crate::shapes::{Shape, shape_of};
use crate::stacks::put_steps;
use crate::words::Label;
use crate::works::{Goal, Work};
use ml_pat::{MForm, MPat, MSort, VarNo, fresh};
use std::alloc::AllocError;

/// The first part of a pattern, or the pattern itself if it has no parts.
fn first_part(pat: &MPat) -> &MPat
    ensures { result.now ≡ first_part pat.now }
{
    match pat.form() {
        MForm::Imp(p, _)
        | MForm::And(p, _)
        | MForm::Or(p, _)
        | MForm::Equal(p, _)
        | MForm::Member(p, _)
        | MForm::App(p, _)
        | MForm::Not(p)
        | MForm::Next(p)
        | MForm::Ev(p)
        | MForm::At(p, _)
        | MForm::Fun(p, _)
        | MForm::Ex(_, _, p)
        | MForm::All(_, _, p) => p,
        MForm::Bot | MForm::Top | MForm::Var(_) | MForm::Meta(_) | MForm::Const(_) => pat,
    }
}

/// The second part of a pattern, or the pattern itself if it has none.
fn second_part(pat: &MPat) -> &MPat
    ensures { result.now ≡ second_part pat.now }
{
    match pat.form() {
        MForm::Imp(_, q)
        | MForm::And(_, q)
        | MForm::Or(_, q)
        | MForm::Equal(_, q)
        | MForm::Member(_, q)
        | MForm::App(_, q) => q,
        _ => pat,
    }
}

/// The proof of the substitution in two parts.
fn put_two<'a>(
    stack: &mut Vec<Work<'a>>,
    x: VarNo,
    u: &'a MPat,
    p: &'a MPat,
    q: &'a MPat,
    made: &'a MPat,
    name: &'static str,
) -> Result<(), AllocError>
    ensures { OnOk result (PutsOn (λ k. two_tree k x.0 u.now p.now q.now made.now name.now)
        stack.old.items stack.new.items) }
{
    let first = first_part(made);
    let second = second_part(made);
    put_steps(
        stack,
        &[
            Goal::Syntax(p),
            Goal::Syntax(q),
            Goal::Syntax(second),
            Goal::Syntax(first),
            Goal::Syntax(u),
            Goal::Leaf(Label::Object(x.0)),
            Goal::Substituted(x, u, p, first),
            Goal::Substituted(x, u, q, second),
        ],
        Label::Form("su.", name),
    )
}

/// The proof of the substitution in one part, with the sort next to it.
fn put_one<'a>(
    stack: &mut Vec<Work<'a>>,
    x: VarNo,
    u: &'a MPat,
    p: &'a MPat,
    made: &'a MPat,
    name: &'static str,
) -> Result<(), AllocError>
    ensures { OnOk result (PutsOn (λ k. one_tree k x.0 u.now p.now made.now name.now)
        stack.old.items stack.new.items) }
{
    let first = first_part(made);
    put_steps(
        stack,
        &[
            Goal::Syntax(p),
            Goal::Syntax(first),
            Goal::Syntax(u),
            Goal::Leaf(Label::Object(x.0)),
            Goal::Substituted(x, u, p, first),
        ],
        Label::Form("su.", name),
    )
}

fn put_sorted<'a>(
    stack: &mut Vec<Work<'a>>,
    x: VarNo,
    u: &'a MPat,
    p: &'a MPat,
    s: MSort,
    made: &'a MPat,
    name: &'static str,
) -> Result<(), AllocError>
    ensures { OnOk result (PutsOn (λ k. sorted_tree k x.0 u.now p.now s.0 made.now name.now)
        stack.old.items stack.new.items) }
{
    let first = first_part(made);
    put_steps(
        stack,
        &[
            Goal::Syntax(p),
            Goal::Syntax(first),
            Goal::Syntax(u),
            Goal::Leaf(Label::Object(x.0)),
            Goal::Leaf(Label::Declared(s.0)),
            Goal::Substituted(x, u, p, first),
        ],
        Label::Form("su.", name),
    )
}

/// The proof of the substitution under the quantifier of y, if x is free in the body.
fn put_under<'a>(
    stack: &mut Vec<Work<'a>>,
    x: VarNo,
    u: &'a MPat,
    y: VarNo,
    s: MSort,
    p: &'a MPat,
    made: &'a MPat,
    name: &'static str,
) -> Result<(), AllocError>
    ensures { OnOk result
        (PutsOn (λ k. under_tree k x.0 u.now y.0 s.0 p.now made.now name.now)
        stack.old.items stack.new.items) }
{
    let first = first_part(made);
    put_steps(
        stack,
        &[
            Goal::Syntax(p),
            Goal::Syntax(first),
            Goal::Syntax(u),
            Goal::Leaf(Label::Object(x.0)),
            Goal::Leaf(Label::Object(y.0)),
            Goal::Leaf(Label::Declared(s.0)),
            Goal::Fresh(y, u),
            Goal::Substituted(x, u, p, first),
        ],
        Label::Form("su.", name),
    )
}

/// The proof that a pattern with u substituted for x is the given result; one step if x is not free
/// in the pattern. The search for x takes no longer than writing the proof, because the proof has
/// the syntax of the whole pattern. The only exception is the pattern x itself.
pub(crate) fn expand_substituted<'a>(
    stack: &mut Vec<Work<'a>>,
    x: VarNo,
    u: &'a MPat,
    pat: &'a MPat,
    made: &'a MPat,
) -> Result<(), AllocError>
    ensures { OnOk result (PutsOn
        (λ k. substitution_tree (own_labels k) x.0 u.now pat.now made.now)
        stack.old.items stack.new.items) }
{
    if fresh(x, pat) {
        return expand_unchanged(stack, x, u, pat);
    }
    expand_by_form(stack, x, u, pat, made)
}

/// The proof of the substitution by the form of a pattern, in which x is free.
fn expand_by_form<'a>(
    stack: &mut Vec<Work<'a>>,
    x: VarNo,
    u: &'a MPat,
    pat: &'a MPat,
    made: &'a MPat,
) -> Result<(), AllocError>
    ensures { OnOk result (PutsOn
        (λ k. substitution_by_form (own_labels k) x.0 u.now pat.now made.now)
        stack.old.items stack.new.items) }
{
    match shape_of(pat) {
        Shape::Unary(name, p) => put_one(stack, x, u, p, made, name),
        Shape::Binary(name, p, q) => put_two(stack, x, u, p, q, made, name),
        Shape::Sorted(name, p, s) => put_sorted(stack, x, u, p, s, made, name),
        Shape::Quantified(name, y, s, p) => put_under(stack, x, u, y, s, p, made, name),
        Shape::Var(_) => put_steps(
            stack,
            &[Goal::Syntax(u), Goal::Leaf(Label::Object(x.0))],
            Label::Row("su.v"),
        ),
        Shape::Nullary(_) | Shape::Meta(_) | Shape::Const(_) => expand_unchanged(stack, x, u, pat),
    }
}
