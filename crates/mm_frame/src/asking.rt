// What an assertion asks for, and the labels of hypotheses in a table.

ghost use Rattle.std.specs.Prelude.{◌≡◌, ◌++◌, IfOk};
ghost use Rattle.mm_frame.specs.PlainFrames.{groups_of};
ghost use Rattle.mm_frame.specs.Labels.{HasLabels};

use crate::frames::Hyp;
use crate::tree::HypTree;
use std::alloc::{AllocError, Global};
use std::collections::BTreeMap;
use std::rc::Rc;

/// What an assertion asks for: its mandatory hypotheses in order, and the variables that have to
/// stay apart from each other.
#[derive(Drop)]
pub enum Mandatory<'a> {
    /// Lists of its own.
    Listed(Lists<'a>),
    /// What the active `$e` ask for, which other assertions share, and what it adds to that.
    Shared(Parts<'a>),
}

/// Hypotheses, and the variables that have to stay apart from each other, as lists.
#[derive(Drop)]
pub struct Lists<'a> {
    pub hyps: Vec<Hyp<'a>>,
    pub apart: Vec<Vec<u32>>,
}

/// Hypotheses in a tree, and the variables that have to stay apart from each other: lists that
/// other assertions share, and lists of its own.
#[derive(Drop)]
pub struct Parts<'a> {
    pub tree: Rc<HypTree<'a>>,
    pub common: Rc<Vec<Vec<u32>>>,
    pub own: Vec<Vec<u32>>,
}

/// The labels of hypotheses. It takes time in their number, times its logarithm.
pub fn own_labels<'a>(alloc: Global, hyps: &[Hyp<'a>]) -> Result<BTreeMap<&'a [u8], ()>, AllocError>
    ensures { IfOk result (λ m. HasLabels m hyps.now) }
{
    let mut labels = BTreeMap::new(alloc);
    for hyp in hyps {
        labels.insert(hyp.label(), ())?;
    }
    Ok(labels)
}

impl<'a> Mandatory<'a> {
    ghost use Rattle.std.specs.Prelude.{length, option_map, slice_get};
    ghost use Rattle.mm_frame.specs.PlainFrames.{plain_hypothesis, mandatory_hypotheses};

    /// How many hypotheses there are.
    pub fn count(&self) -> usize
        ensures { result ≡ length (mandatory_hypotheses self.now) }
    {
        match self {
            Mandatory::Listed(lists) => lists.hyps.len(),
            Mandatory::Shared(parts) => parts.tree.len(),
        }
    }

    /// The hypothesis with this number, from 0. It takes time in the logarithm of their number at
    /// most.
    pub fn hyp(&self, number: usize) -> Option<&Hyp<'a>>
        ensures { option_map (λ h. plain_hypothesis h.now) result
            ≡ slice_get (mandatory_hypotheses self.now) number }
    {
        match self {
            Mandatory::Listed(lists) => lists.hyps.get(number),
            Mandatory::Shared(parts) => parts.tree.nth(number),
        }
    }
}

impl<'a> Parts<'a> {
    ghost use Rattle.mm_frame.specs.PlainFrames.{plain_hypotheses, parts_hypotheses, parts_groups};

    /// The same as lists. It takes time in their lengths. Statements are shared.
    pub fn lists(&self, alloc: Global) -> Result<Lists<'a>, AllocError>
        ensures hyps { IfOk result
            (λ l. plain_hypotheses l.hyps.items ≡ parts_hypotheses self.now) }
        ensures apart { IfOk result (λ l. groups_of l.apart.items ≡ parts_groups self.now) }
    {
        let mut hyps = Vec::with_capacity(alloc, self.tree.len())?;
        self.tree.push_to(&mut hyps)?;
        let mut apart = Vec::with_capacity(alloc, self.common.len())?;
        push_copies(alloc, &mut apart, &self.common)?;
        push_copies(alloc, &mut apart, &self.own)?;
        Ok(Lists { hyps, apart })
    }
}

/// Appends copies of groups.
fn push_copies(alloc: Global, to: &mut Vec<Vec<u32>>, groups: &[Vec<u32>]) -> Result<(), AllocError>
    ensures { IfOk result
        (λ _. groups_of to.new.items ≡ groups_of to.old.items ++ groups_of groups.now) }
{
    for group in groups {
        let copy = Vec::from_slice(alloc, group)?;
        if to.push(copy).is_err() {
            return Err(AllocError);
        }
    }
    Ok(())
}
