// How the proof that a pattern is one is split into smaller goals.
ghost use Rattle.std.specs.Prelude.{OnOk};
ghost use Rattle.mm_proof.specs.WorkStacks.{PutsOn};
ghost use Rattle.mm_proof.specs.Labels.{own_labels};
ghost use Rattle.mm_proof.specs.Trees.{syntax_tree};

use crate::shapes::{Shape, shape_of};
use crate::stacks::{put_leaf, put_steps};
use crate::words::Label;
use crate::works::{Goal, Work};
use ml_pat::MPat;
use std::alloc::AllocError;

/// The proof that it is a pattern.
pub(crate) fn expand_syntax<'a>(stack: &mut Vec<Work<'a>>, pat: &'a MPat) -> Result<(), AllocError>
    ensures { OnOk result
        (PutsOn (λ k. syntax_tree (own_labels k) pat.now) stack.old.items stack.new.items) }
{
    match shape_of(pat) {
        Shape::Nullary(name) => put_steps(stack, &[], Label::Form("w.", name)),
        Shape::Unary(name, p) => put_steps(stack, &[Goal::Syntax(p)], Label::Form("w.", name)),
        Shape::Binary(name, p, q) => {
            let parts = [Goal::Syntax(p), Goal::Syntax(q)];
            put_steps(stack, &parts, Label::Form("w.", name))
        }
        Shape::Sorted(name, p, s) => {
            let parts = [Goal::Syntax(p), Goal::Leaf(Label::Declared(s.0))];
            put_steps(stack, &parts, Label::Form("w.", name))
        }
        Shape::Quantified(name, x, s, p) => {
            let parts = [
                Goal::Syntax(p),
                Goal::Leaf(Label::Object(x.0)),
                Goal::Leaf(Label::Declared(s.0)),
            ];
            put_steps(stack, &parts, Label::Form("w.", name))
        }
        Shape::Var(x) => put_steps(
            stack,
            &[Goal::Leaf(Label::Object(x.0))],
            Label::Row("w.var"),
        ),
        Shape::Meta(i) => put_leaf(stack, Label::Meta(i)),
        Shape::Const(c) => put_leaf(stack, Label::Declared(c.0)),
    }
}
