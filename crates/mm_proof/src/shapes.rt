// Patterns by shape.
ghost use Rattle.mm_proof.specs.Shapes.{HasShape};

use ml_pat::{ConstNo, MForm, MPat, MSort, VarNo};

/// A pattern by its shape: the name of its connective, and its parts.
#[derive(Clone, Copy)]
pub(crate) enum Shape<'a> {
    /// A connective alone.
    Nullary(&'static str),
    /// A connective over a part.
    Unary(&'static str, &'a MPat),
    /// A connective over two parts.
    Binary(&'static str, &'a MPat, &'a MPat),
    /// A connective over a part and a sort.
    Sorted(&'static str, &'a MPat, MSort),
    /// A quantifier of a variable of a sort.
    Quantified(&'static str, VarNo, MSort, &'a MPat),
    /// An object variable.
    Var(VarNo),
    /// A pattern variable.
    Meta(u32),
    /// A constant.
    Const(ConstNo),
}

/// The shape of a pattern.
pub(crate) fn shape_of(pat: &MPat) -> Shape<'_>
    ensures { HasShape pat.now result }
{
    match pat.form() {
        MForm::Bot => Shape::Nullary("bot"),
        MForm::Top => Shape::Nullary("top"),
        MForm::Imp(p, q) => Shape::Binary("imp", p, q),
        MForm::And(p, q) => Shape::Binary("and", p, q),
        MForm::Or(p, q) => Shape::Binary("or", p, q),
        MForm::Equal(p, q) => Shape::Binary("eq", p, q),
        MForm::Member(p, q) => Shape::Binary("mem", p, q),
        MForm::App(p, q) => Shape::Binary("app", p, q),
        MForm::Not(p) => Shape::Unary("not", p),
        MForm::Next(p) => Shape::Unary("next", p),
        MForm::Ev(p) => Shape::Unary("ev", p),
        MForm::At(p, s) => Shape::Sorted("at", p, *s),
        MForm::Fun(p, s) => Shape::Sorted("fun", p, *s),
        MForm::Ex(x, s, p) => Shape::Quantified("ex", *x, *s, p),
        MForm::All(x, s, p) => Shape::Quantified("all", *x, *s, p),
        MForm::Var(x) => Shape::Var(*x),
        MForm::Meta(i) => Shape::Meta(*i),
        MForm::Const(c) => Shape::Const(*c),
    }
}
