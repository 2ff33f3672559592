// Trees of hypotheses, whose parts other trees share.

ghost use Rattle.std.specs.Prelude.{◌≡◌, ◌+◌, ◌<◌, ◌≤◌, ◌++◌, ◌∷◌, [], IfOk, length, option_map};
ghost use Rattle.std.specs.Prelude.{slice_get};
ghost use Rattle.mm_frame.specs.PlainFrames.{plain_hypothesis, plain_hypotheses};
ghost use Rattle.mm_frame.specs.PlacedHypotheses.{hypotheses_placed};
ghost use Rattle.mm_frame.specs.PlacedOrder.{placed_at};
ghost use Rattle.mm_frame.specs.PlacedOrder.{AllBelow, AllFrom, AllUpTo, HasPlace, IsAhead};
ghost use Rattle.mm_frame.specs.PlacedOrder.{IsAscending};

use crate::frames::Hyp;
use std::alloc::{AllocError, Global};
use std::marker::Model;
use std::rc::Rc;

/// Hypotheses by their places, ascending. One more hypothesis makes a tree of its own, which shares
/// all but a path with the first: so it takes time and memory in the logarithm of the greatest
/// place. Along a path, the lowest bit of each split is below that of the split before it. So a
/// path has at most 64 forks, and the recursion here is not deeper.
#[cycle(tree)]
#[derive(Drop)]
pub struct HypTree<'a> {
    count: usize,
    node: Node<'a>,
}

#[cycle(tree)]
#[derive(Drop)]
enum Node<'a> {
    /// One hypothesis, at its place.
    Leaf(usize, Hyp<'a>),
    /// The hypotheses at places before this one, and the others.
    Fork(usize, Rc<HypTree<'a>>, Rc<HypTree<'a>>),
}

impl<'a> Model for HypTree<'a> {
    ghost use Rattle.std.specs.Prelude.{List, length};
    ghost use Rattle.mm_frame.specs.PlacedHypotheses.{Placed};

    ghost Value = { List Placed };

    ghost use Rattle.mm_frame.specs.TreeView.{tree_placed};
    ghost use Rattle.mm_frame.specs.TreeOrder.{IsTree};

    ghost view = { tree_placed };

    ghost invariant = { IsTree };

    ghost size = { length };

    ghost use Rattle.std.proofs.Common.{arith, length-append};

    ghost size_decreases = { λ a h. Prim.grind (arith, length-append) };
}

impl<'a> HypTree<'a> {
    /// One hypothesis at its place.
    pub fn leaf(place: usize, hyp: Hyp<'a>) -> HypTree<'a>
        ensures { result ≡ (place, plain_hypothesis hyp.entry) ∷ [] }
    {
        HypTree {
            count: 1,
            node: Node::Leaf(place, hyp),
        }
    }

    /// The hypotheses of both, which a place separates.
    fn fork(
        alloc: Global,
        split: usize,
        low: Rc<HypTree<'a>>,
        high: Rc<HypTree<'a>>,
    ) -> Result<Rc<HypTree<'a>>, AllocError>
        requires below { AllBelow split low.value }
        requires from { AllFrom split high.value }
        ensures { IfOk result (λ t. t.value ≡ low.entry.value ++ high.entry.value) }
    {
        low.ascend();
        high.ascend();
        let Some(count) = low.len().checked_add(high.len()) else {
            return Err(AllocError);
        };
        let tree = HypTree {
            count,
            node: Node::Fork(split, low, high),
        };
        Ok(Rc::new(alloc, tree)?)
    }

    /// How many hypotheses there are: one at least.
    pub fn len(&self) -> usize
        ensures count { result ≡ length self.now }
        ensures some { 0 < result }
    {
        let _ = &self.node;
        self.count
    }

    /// The places ascend.
    pub fn ascend(&self)
        ensures { IsAscending self.now }
    {
        let _ = &self.node;
    }

    /// The first place.
    fn first(&self) -> usize
        ensures from { AllFrom result self.now }
        ensures one { HasPlace self.now result }
    {
        match &self.node {
            Node::Leaf(place, _) => *place,
            Node::Fork(_, low, _) => low.first(),
        }
    }

    /// The last place.
    fn last(&self) -> usize
        ensures up_to { AllUpTo result self.now }
        ensures one { HasPlace self.now result }
    {
        match &self.node {
            Node::Leaf(place, _) => *place,
            Node::Fork(_, _, high) => high.last(),
        }
    }

    /// The hypothesis with this number, from 0, in order of their places.
    pub fn nth(&self, number: usize) -> Option<&Hyp<'a>>
        ensures { option_map (λ h. plain_hypothesis h.now) result
            ≡ slice_get (hypotheses_placed self.now) number }
    {
        match &self.node {
            Node::Leaf(_, hyp) => if number == 0 { Some(hyp) } else { None },
            Node::Fork(_, low, high) => {
                let before = low.len();
                if number < before {
                    low.nth(number)
                } else {
                    high.nth(number - before)
                }
            }
        }
    }

    /// The hypotheses of both, where each place of the first comes before each of the second.
    fn join(
        alloc: Global,
        low: Rc<HypTree<'a>>,
        high: Rc<HypTree<'a>>,
    ) -> Result<Rc<HypTree<'a>>, AllocError>
        requires { IsAhead low.value high.value }
        ensures { IfOk result (λ t. t.value ≡ low.entry.value ++ high.entry.value) }
    {
        let split = split_between(low.last(), high.first());
        HypTree::fork(alloc, split, low, high)
    }

    /// The tree with one more hypothesis, or with another one at its place.
    pub fn with(
        this: &Rc<HypTree<'a>>,
        alloc: Global,
        place: usize,
        hyp: Hyp<'a>,
    ) -> Result<Rc<HypTree<'a>>, AllocError>
        ensures { IfOk result
            (λ t. t.value ≡ placed_at place (plain_hypothesis hyp.entry) this.now.value) }
    {
        match &this.node {
            Node::Leaf(own, _) => {
                if place < *own {
                    HypTree::with_first(this, alloc, place, hyp)
                } else if *own < place {
                    HypTree::with_last(this, alloc, place, hyp)
                } else {
                    Ok(Rc::new(alloc, HypTree::leaf(place, hyp))?)
                }
            }
            Node::Fork(split, low, high) => {
                if !is_in_block(place, *split) {
                    if place < this.first() {
                        return HypTree::with_first(this, alloc, place, hyp);
                    }
                    if this.last() < place {
                        return HypTree::with_last(this, alloc, place, hyp);
                    }
                }
                if place < *split {
                    let low = HypTree::with(low, alloc, place, hyp)?;
                    HypTree::fork(alloc, *split, low, high.clone()?)
                } else {
                    let high = HypTree::with(high, alloc, place, hyp)?;
                    HypTree::fork(alloc, *split, low.clone()?, high)
                }
            }
        }
    }

    /// The tree with one more hypothesis, before all others.
    fn with_first(
        this: &Rc<HypTree<'a>>,
        alloc: Global,
        place: usize,
        hyp: Hyp<'a>,
    ) -> Result<Rc<HypTree<'a>>, AllocError>
        requires { AllFrom (place + 1) this.now.value }
        ensures { IfOk result
            (λ t. t.value ≡ placed_at place (plain_hypothesis hyp.entry) this.now.value) }
    {
        let leaf = Rc::new(alloc, HypTree::leaf(place, hyp))?;
        HypTree::join(alloc, leaf, this.clone()?)
    }

    /// The tree with one more hypothesis, after all others.
    fn with_last(
        this: &Rc<HypTree<'a>>,
        alloc: Global,
        place: usize,
        hyp: Hyp<'a>,
    ) -> Result<Rc<HypTree<'a>>, AllocError>
        requires { AllBelow place this.now.value }
        ensures { IfOk result
            (λ t. t.value ≡ placed_at place (plain_hypothesis hyp.entry) this.now.value) }
    {
        let leaf = Rc::new(alloc, HypTree::leaf(place, hyp))?;
        HypTree::join(alloc, this.clone()?, leaf)
    }

    /// Appends copies of the hypotheses, in order.
    pub fn push_to(&self, hyps: &mut Vec<Hyp<'a>>) -> Result<(), AllocError>
        ensures { IfOk result (λ _. plain_hypotheses hyps.new.items
            ≡ plain_hypotheses hyps.old.items ++ hypotheses_placed self.now) }
    {
        match &self.node {
            Node::Leaf(_, hyp) => {
                let hyp = hyp.share()?;
                if hyps.push(hyp).is_err() {
                    return Err(AllocError);
                }
                Ok(())
            }
            Node::Fork(_, low, high) => {
                low.push_to(hyps)?;
                high.push_to(hyps)
            }
        }
    }
}

/// A number after the first and at most the second: of these the one whose lowest bit is the
/// highest.
fn split_between(before: usize, from: usize) -> usize
    requires { before < from }
    ensures after { before < result }
    ensures within { result ≤ from }
{
    let mut low = before;
    let mut high = from;
    let mut unit: usize = 1;
    while low / 2 != high / 2 {
        low /= 2;
        high /= 2;
        unit *= 2;
    }
    high * unit
}

/// Whether a place differs from the split at most in the lowest bit that the split has, and in
/// those below it. So all places under the split do.
fn is_in_block(place: usize, split: usize) -> bool {
    (split ^ place) / 2 < (split & split.wrapping_neg())
}
