// What is open while words are read: a frame for each bracket, and one for the whole text.
ghost use Rattle.std.specs.Prelude.{◌≡◌, IfOk, option_map, Some};
ghost use Rattle.ml_pat.specs.Patterns.{nullary, unary, binary, sorted, quantified};
ghost use Rattle.pattern_reader.specs.Machine.{fed, headed, whole, with_object, with_sort};
ghost use Rattle.pattern_reader.specs.Views.{binary_of, frame_of, nullary_of, quantifier_of};
ghost use Rattle.pattern_reader.specs.Views.{sorted_of, unary_of};

use crate::words::{Binary, Nullary, Quantifier, Sorted, Unary};
use ml_pat::{MPat, MSort, VarNo};
use std::alloc::{AllocError, Global};

/// What was read of a text, or of a bracket after its parenthesis, and what is due.
#[derive(Drop)]
pub(crate) enum Frame {
    /// The whole text is due.
    Before,
    /// All of it was read.
    After(MPat),
    /// A connective is due.
    Opened,
    /// The part is due.
    OneDue(Unary),
    /// The end is due.
    OneRead(Unary, MPat),
    /// Both parts are due.
    TwoDue(Binary),
    /// The second part is due.
    SecondDue(Binary, MPat),
    /// The end is due.
    TwoRead(Binary, MPat, MPat),
    /// A pattern and a sort are due.
    AtSortDue(Sorted),
    /// The sort is due.
    SortDue(Sorted, MPat),
    /// The end is due.
    AtSortRead(Sorted, MPat, MSort),
    /// A variable, its sort and a pattern are due.
    BinderDue(Quantifier),
    /// The sort and the pattern are due.
    BinderSortDue(Quantifier, VarNo),
    /// The pattern is due.
    BodyDue(Quantifier, VarNo, MSort),
    /// The end is due.
    BodyRead(Quantifier, VarNo, MSort, MPat),
}

impl Frame {
    // The frame after a pattern, if one is due.
    pub(crate) fn fed(self, pat: MPat) -> Option<Frame>
        ensures { option_map frame_of result ≡ fed (frame_of self) pat }
    {
        match self {
            Frame::Before => Some(Frame::After(pat)),
            Frame::OneDue(c) => Some(Frame::OneRead(c, pat)),
            Frame::TwoDue(c) => Some(Frame::SecondDue(c, pat)),
            Frame::SecondDue(c, first) => Some(Frame::TwoRead(c, first, pat)),
            Frame::AtSortDue(c) => Some(Frame::SortDue(c, pat)),
            Frame::BodyDue(c, x, s) => Some(Frame::BodyRead(c, x, s, pat)),
            _ => None,
        }
    }

    // The frame after an object variable, if it or a pattern is due.
    pub(crate) fn with_object(self, alloc: Global, x: VarNo) -> Result<Option<Frame>, AllocError>
        ensures { IfOk result (λ r. option_map frame_of r ≡ with_object (frame_of self) x.0) }
    {
        match self {
            Frame::BinderDue(c) => Ok(Some(Frame::BinderSortDue(c, x))),
            other => Ok(other.fed(MPat::var(alloc, x)?)),
        }
    }

    // The frame after a sort, if one is due.
    pub(crate) fn with_sort(self, sort: MSort) -> Option<Frame>
        ensures { option_map frame_of result ≡ with_sort (frame_of self) sort.0 }
    {
        match self {
            Frame::SortDue(c, pat) => Some(Frame::AtSortRead(c, pat, sort)),
            Frame::BinderSortDue(c, x) => Some(Frame::BodyDue(c, x, sort)),
            _ => None,
        }
    }

    // The frame after a connective, if one is due. It is the given one.
    pub(crate) fn headed(self, with: Frame) -> Option<Frame>
        ensures { option_map frame_of result ≡ headed (frame_of self) (frame_of with) }
    {
        match self {
            Frame::Opened => Some(with),
            _ => None,
        }
    }

    // The pattern of the bracket, if only its end is due.
    pub(crate) fn whole(self, alloc: Global) -> Result<Option<MPat>, AllocError>
        ensures { IfOk result (λ r. r ≡ whole (frame_of self)) }
    {
        match self {
            Frame::OneRead(c, p) => Ok(Some(unary(alloc, c, &p)?)),
            Frame::TwoRead(c, p, q) => Ok(Some(binary(alloc, c, &p, &q)?)),
            Frame::AtSortRead(c, p, s) => Ok(Some(sorted(alloc, c, &p, s)?)),
            Frame::BodyRead(c, x, s, p) => Ok(Some(quantified(alloc, c, x, s, &p)?)),
            _ => Ok(None),
        }
    }
}

// The connective alone.
pub(crate) fn nullary(alloc: Global, c: Nullary) -> Result<MPat, AllocError>
    ensures { IfOk result (λ made. made ≡ nullary (nullary_of c)) }
{
    match c {
        Nullary::Bot => MPat::bot(alloc),
        Nullary::Top => MPat::top(alloc),
    }
}

// The connective on a pattern.
fn unary(alloc: Global, c: Unary, p: &MPat) -> Result<MPat, AllocError>
    ensures { IfOk result (λ made. made ≡ unary (unary_of c) p.now) }
{
    match c {
        Unary::Not => MPat::not(alloc, p),
        Unary::Next => MPat::next(alloc, p),
        Unary::Ev => MPat::ev(alloc, p),
    }
}

// The connective on two patterns.
fn binary(alloc: Global, c: Binary, p: &MPat, q: &MPat) -> Result<MPat, AllocError>
    ensures { IfOk result (λ made. made ≡ binary (binary_of c) p.now q.now) }
{
    match c {
        Binary::Imp => MPat::imp(alloc, p, q),
        Binary::And => MPat::and(alloc, p, q),
        Binary::Or => MPat::or(alloc, p, q),
        Binary::Equal => MPat::equal(alloc, p, q),
        Binary::Member => MPat::member(alloc, p, q),
        Binary::App => MPat::app(alloc, p, q),
    }
}

// The connective on a pattern and a sort.
fn sorted(alloc: Global, c: Sorted, p: &MPat, s: MSort) -> Result<MPat, AllocError>
    ensures { IfOk result (λ made. made ≡ sorted (sorted_of c) p.now s.0) }
{
    match c {
        Sorted::Fun => MPat::fun(alloc, p, s),
        Sorted::At => MPat::at(alloc, p, s),
    }
}

// The pattern under a quantifier.
fn quantified(
    alloc: Global,
    c: Quantifier,
    x: VarNo,
    s: MSort,
    p: &MPat,
) -> Result<MPat, AllocError>
    ensures { IfOk result (λ made. made ≡ quantified (quantifier_of c) x.0 s.0 p.now) }
{
    match c {
        Quantifier::Ex => MPat::ex(alloc, x, s, p),
        Quantifier::All => MPat::all(alloc, x, s, p),
    }
}
