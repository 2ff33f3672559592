// The lemmas that replace a side of a step by what it equals. Each is made when it is first needed.
ghost use Rattle.std.specs.Prelude.{IfOk, IfSome, Contains, ◌≡◌};
ghost use Rattle.prove_term.specs.Contexts.{Context, HasGrown, IsLemmaIn};
ghost use Rattle.prove_step.specs.SideLemmas.{IsSideLemma, step_of};
ghost use Rattle.prove_step.specs.KeptSides.{AreSideLemmas, IsSideLemmaIn};

use ml_derived::{assume, carry};
use ml_kernel::{Lemma, Thm};
use ml_pat::{MPat, VarNo};
use prove_term::Cx;
use std::alloc::{AllocError, Global};

// The variable that marks the place of a side.
const HOLE: VarNo = VarNo(0);

// A side of a step.
#[derive(Clone, Copy)]
pub(crate) enum Side {
    Left,
    Right,
}

// The lemmas that were made so far.
#[derive(Drop)]
pub(crate) struct SideLemmas {
    left: Option<Lemma>,
    right: Option<Lemma>,
}

impl SideLemmas {
    // No lemmas, as at the start of a run.
    pub(crate) fn none() -> SideLemmas
        ensures { (cx : Context) → AreSideLemmas cx result }
    {
        SideLemmas {
            left: None,
            right: None,
        }
    }

    // Returns the lemma for a side, if it was made.
    fn of(&self, side: Side) -> &Option<Lemma>
        ensures { (cx : Context) → AreSideLemmas cx self.now
            → IfSome result.now (IsSideLemmaIn cx side) }
    {
        match side {
            Side::Left => &self.left,
            Side::Right => &self.right,
        }
    }

    // Keeps the lemma for a side.
    fn keep(&mut self, side: Side, lemma: Lemma)
        ensures { (cx : Context) → AreSideLemmas cx self.old → IsSideLemmaIn cx side lemma →
            AreSideLemmas cx self.new }
    {
        match side {
            Side::Left => self.left = Some(lemma),
            Side::Right => self.right = Some(lemma),
        }
    }
}

// Returns the lemma for a side.
pub(crate) fn side_lemma(
    alloc: Global,
    cx: &mut Cx<'_>,
    lemmas: &mut SideLemmas,
    side: Side,
) -> Result<Lemma, AllocError>
    requires { AreSideLemmas cx.old lemmas.old }
    ensures lemma { IfOk result (IsSideLemmaIn cx.new side) }
    ensures lemmas { AreSideLemmas cx.new lemmas.new }
    ensures grown { HasGrown cx.old cx.new }
{
    if let Some(lemma) = lemmas.of(side) {
        return lemma.share(alloc);
    }
    let schema = side_schema(alloc, side)?;
    let lemma = added(alloc, cx, schema)?;
    lemmas.keep(side, lemma.share(alloc)?);
    Ok(lemma)
}

// Keeps the theorem as a lemma of the context, and returns it.
fn added(alloc: Global, cx: &mut Cx<'_>, thm: Thm) -> Result<Lemma, AllocError>
    requires { IsLemmaIn cx.old thm }
    ensures same { IfOk result (λ lemma. lemma ≡ thm) }
    ensures there { IfOk result (Contains cx.new.lemmas) }
    ensures grown { HasGrown cx.old cx.new }
{
    let shared = thm.share(alloc)?;
    let lemma = Lemma::close(shared)?;
    cx.add_lemma(alloc, thm)?;
    Ok(lemma)
}

// Proves `m:1 -> next m:2` from `m:0 = m:1` and `m:0 -> next m:2`, or the same for the right side.
fn side_schema(alloc: Global, side: Side) -> Result<Thm, AllocError>
    ensures says { IfOk result (IsSideLemma side) }
    ensures stays { IfOk result (λ t. (cx : Context) → IsLemmaIn cx t) }
{
    let first = MPat::meta(alloc, 0)?;
    let second = MPat::meta(alloc, 1)?;
    let other = MPat::meta(alloc, 2)?;
    let place = MPat::var(alloc, HOLE)?;
    let same = MPat::equal(alloc, &first, &second)?;
    let given = step_with(alloc, side, &first, &other)?;
    let context = step_with(alloc, side, &place, &other)?;
    let equality = assume(alloc, same)?;
    let step = assume(alloc, given)?;
    carry(alloc, &equality, &context, HOLE, &step)
}

// Returns the step that has `this` at the given side and `that` at the other side.
fn step_with(alloc: Global, side: Side, this: &MPat, that: &MPat) -> Result<MPat, AllocError>
    ensures { IfOk result (λ step. step ≡ step_of side this.now that.now) }
{
    match side {
        Side::Left => MPat::imp(alloc, this, &MPat::next(alloc, that)?),
        Side::Right => MPat::imp(alloc, that, &MPat::next(alloc, this)?),
    }
}
