// How the proofs of freshness and of predicates are split into smaller works.
ghost use Rattle.std.specs.Prelude.{OnOk};
ghost use Rattle.mm_proof.specs.WorkStacks.{PutsOn, quantified_tree, fresh_two_tree};
ghost use Rattle.mm_proof.specs.WorkStacks.{fresh_one_tree};
ghost use Rattle.mm_proof.specs.WorkStacks.{fresh_sorted_tree, predicate_two_tree};
ghost use Rattle.mm_proof.specs.WorkStacks.{predicate_under_tree};
ghost use Rattle.mm_proof.specs.Labels.{own_labels};
ghost use Rattle.mm_proof.specs.Trees.{absent_tree, fresh_by_form, fresh_tree, predicate_tree};
ghost use Rattle.mm_proof.specs.Trees.{unchanged_tree};

use crate::patterns::expand_syntax;
use crate::searching::is_absent;
use crate::shapes::{Shape, shape_of};
use crate::stacks::put_steps;
use crate::words::Label;
use crate::works::{Goal, Work};
use ml_pat::{MForm, MPat, MSort, VarNo};
use std::alloc::AllocError;

/// The proof that x is not free under the quantifier of y. There is one row for y equal to x, and
/// one for another y.
fn put_quantified<'a>(
    stack: &mut Vec<Work<'a>>,
    x: VarNo,
    y: VarNo,
    s: MSort,
    body: &'a MPat,
    name: &'static str,
) -> Result<(), AllocError>
    ensures { OnOk result
        (PutsOn (λ k. quantified_tree k x.0 y.0 s.0 body.now name.now) stack.old.items
        stack.new.items) }
{
    if x == y {
        return put_steps(
            stack,
            &[
                Goal::Syntax(body),
                Goal::Leaf(Label::Object(x.0)),
                Goal::Leaf(Label::Declared(s.0)),
            ],
            Label::Bound("fr.", name),
        );
    }
    put_steps(
        stack,
        &[
            Goal::Syntax(body),
            Goal::Leaf(Label::Object(x.0)),
            Goal::Leaf(Label::Object(y.0)),
            Goal::Leaf(Label::Declared(s.0)),
            Goal::Fresh(x, body),
        ],
        Label::Form("fr.", name),
    )
}

/// The proof that x is not free in a form with two parts.
fn put_fresh_two<'a>(
    stack: &mut Vec<Work<'a>>,
    x: VarNo,
    p: &'a MPat,
    q: &'a MPat,
    name: &'static str,
) -> Result<(), AllocError>
    ensures { OnOk result (PutsOn (λ k. fresh_two_tree k x.0 p.now q.now name.now)
        stack.old.items stack.new.items) }
{
    put_steps(
        stack,
        &[
            Goal::Syntax(p),
            Goal::Syntax(q),
            Goal::Leaf(Label::Object(x.0)),
            Goal::Fresh(x, p),
            Goal::Fresh(x, q),
        ],
        Label::Form("fr.", name),
    )
}

/// The proof that x is not free in a form with one part.
fn put_fresh_one<'a>(
    stack: &mut Vec<Work<'a>>,
    x: VarNo,
    p: &'a MPat,
    name: &'static str,
) -> Result<(), AllocError>
    ensures { OnOk result (PutsOn (λ k. fresh_one_tree k x.0 p.now name.now) stack.old.items
        stack.new.items) }
{
    put_steps(
        stack,
        &[
            Goal::Syntax(p),
            Goal::Leaf(Label::Object(x.0)),
            Goal::Fresh(x, p),
        ],
        Label::Form("fr.", name),
    )
}

/// The proof that x is not free in a form with one part and a sort.
fn put_fresh_sorted<'a>(
    stack: &mut Vec<Work<'a>>,
    x: VarNo,
    p: &'a MPat,
    s: MSort,
    name: &'static str,
) -> Result<(), AllocError>
    ensures { OnOk result (PutsOn (λ k. fresh_sorted_tree k x.0 p.now s.0 name.now)
        stack.old.items stack.new.items) }
{
    put_steps(
        stack,
        &[
            Goal::Syntax(p),
            Goal::Leaf(Label::Object(x.0)),
            Goal::Leaf(Label::Declared(s.0)),
            Goal::Fresh(x, p),
        ],
        Label::Form("fr.", name),
    )
}

/// The proof that x is not free in a pattern; one step if x does not occur in the pattern. The
/// search for x takes no longer than writing the proof, because in both cases the proof has the
/// syntax of the whole pattern.
pub(crate) fn expand_fresh<'a>(
    stack: &mut Vec<Work<'a>>,
    x: VarNo,
    pat: &'a MPat,
) -> Result<(), AllocError>
    ensures { OnOk result (PutsOn (λ k. fresh_tree (own_labels k) x.0 pat.now)
        stack.old.items stack.new.items) }
{
    if is_absent(*stack.allocator(), x, pat)? {
        return put_absent(stack, x, pat);
    }
    expand_fresh_by_form(stack, x, pat)
}

/// The proof that x is not free in a pattern in which it does not occur.
fn put_absent<'a>(stack: &mut Vec<Work<'a>>, x: VarNo, pat: &'a MPat) -> Result<(), AllocError>
    ensures { OnOk result (PutsOn (λ k. absent_tree (own_labels k) x.0 pat.now)
        stack.old.items stack.new.items) }
{
    put_steps(
        stack,
        &[Goal::Syntax(pat), Goal::Leaf(Label::Object(x.0))],
        Label::Row("fr.d"),
    )
}

/// The proof that x is not free in a pattern, by its form.
fn expand_fresh_by_form<'a>(
    stack: &mut Vec<Work<'a>>,
    x: VarNo,
    pat: &'a MPat,
) -> Result<(), AllocError>
    ensures { OnOk result (PutsOn (λ k. fresh_by_form (own_labels k) x.0 pat.now)
        stack.old.items stack.new.items) }
{
    match shape_of(pat) {
        Shape::Unary(name, p) => put_fresh_one(stack, x, p, name),
        Shape::Binary(name, p, q) => put_fresh_two(stack, x, p, q, name),
        Shape::Sorted(name, p, s) => put_fresh_sorted(stack, x, p, s, name),
        Shape::Quantified(name, y, s, p) => put_quantified(stack, x, y, s, p, name),
        Shape::Nullary(_) | Shape::Var(_) | Shape::Meta(_) | Shape::Const(_) => put_absent(
            stack, x, pat,
        ),
    }
}

/// The proof that a pattern in which x is not free stays the same with u substituted for x.
pub(crate) fn expand_unchanged<'a>(
    stack: &mut Vec<Work<'a>>,
    x: VarNo,
    u: &'a MPat,
    pat: &'a MPat,
) -> Result<(), AllocError>
    ensures { OnOk result
        (PutsOn (λ k. unchanged_tree (own_labels k) x.0 u.now pat.now)
        stack.old.items stack.new.items) }
{
    put_steps(
        stack,
        &[
            Goal::Syntax(pat),
            Goal::Syntax(u),
            Goal::Leaf(Label::Object(x.0)),
            Goal::Fresh(x, pat),
        ],
        Label::Row("su.f"),
    )
}

/// The proof that a form of two predicates is a predicate.
fn put_predicate_two<'a>(
    stack: &mut Vec<Work<'a>>,
    p: &'a MPat,
    q: &'a MPat,
    name: &'static str,
) -> Result<(), AllocError>
    ensures { OnOk result (PutsOn (λ k. predicate_two_tree k p.now q.now name.now)
        stack.old.items stack.new.items) }
{
    put_steps(
        stack,
        &[
            Goal::Syntax(p),
            Goal::Syntax(q),
            Goal::Predicate(p),
            Goal::Predicate(q),
        ],
        Label::Form("pr.", name),
    )
}

/// The proof that a quantifier over a predicate is a predicate.
fn put_predicate_under<'a>(
    stack: &mut Vec<Work<'a>>,
    x: VarNo,
    s: MSort,
    p: &'a MPat,
    name: &'static str,
) -> Result<(), AllocError>
    ensures { OnOk result (PutsOn (λ k. predicate_under_tree k x.0 s.0 p.now name.now)
        stack.old.items stack.new.items) }
{
    put_steps(
        stack,
        &[
            Goal::Syntax(p),
            Goal::Leaf(Label::Object(x.0)),
            Goal::Leaf(Label::Declared(s.0)),
            Goal::Predicate(p),
        ],
        Label::Form("pr.", name),
    )
}

/// The proof that a pattern is everything or nothing, if its form shows this.
pub(crate) fn expand_predicate<'a>(
    stack: &mut Vec<Work<'a>>,
    pat: &'a MPat,
) -> Result<(), AllocError>
    ensures { OnOk result (PutsOn (λ k. predicate_tree (own_labels k) pat.now)
        stack.old.items stack.new.items) }
{
    match pat.form() {
        MForm::Bot => put_steps(stack, &[], Label::Form("pr.", "bot")),
        MForm::Top => put_steps(stack, &[], Label::Form("pr.", "top")),
        MForm::Imp(p, q) => put_predicate_two(stack, p, q, "imp"),
        MForm::And(p, q) => put_predicate_two(stack, p, q, "and"),
        MForm::Or(p, q) => put_predicate_two(stack, p, q, "or"),
        MForm::Equal(p, q) => put_steps(
            stack,
            &[Goal::Syntax(p), Goal::Syntax(q)],
            Label::Form("pr.", "eq"),
        ),
        MForm::Member(p, q) => put_steps(
            stack,
            &[Goal::Syntax(p), Goal::Syntax(q)],
            Label::Form("pr.", "mem"),
        ),
        MForm::Not(p) => put_steps(
            stack,
            &[Goal::Syntax(p), Goal::Predicate(p)],
            Label::Form("pr.", "not"),
        ),
        MForm::Fun(p, s) => put_steps(
            stack,
            &[Goal::Syntax(p), Goal::Leaf(Label::Declared(s.0))],
            Label::Form("pr.", "fun"),
        ),
        MForm::Ex(x, s, p) => put_predicate_under(stack, *x, *s, p, "ex"),
        MForm::All(x, s, p) => put_predicate_under(stack, *x, *s, p, "all"),
        MForm::App(_, _)
        | MForm::At(_, _)
        | MForm::Next(_)
        | MForm::Ev(_)
        | MForm::Var(_)
        | MForm::Meta(_)
        | MForm::Const(_) => expand_syntax(stack, pat),
    }
}
