// Assertions, kept for the steps of proofs.
ghost use Rattle.std.specs.Prelude.{◌≡◌, length, IfOk, option_map};
ghost use Rattle.mm_database.specs.Stack.{saving, stack_with};
ghost use Rattle.mm_frame.specs.PlainFrames.{plain_frame};
ghost use Rattle.mm_frame.specs.NumberedSteps.{numbered_applied};
ghost use Rattle.mm_verify.specs.StoredView.{stored_frame};
ghost use Rattle.mm_verify.specs.Applied.{AgreesWithStep};
ghost use Rattle.mm_verify.specs.Pairs.{AreNoted};

use crate::applying::apply;
use crate::assertion::Assertion;
use crate::entries::Entries;
use crate::place::Place;
use crate::spreads::Spreads;
use mm_frame::{Frame, Mandatory};
use std::alloc::{AllocError, Global};

/// An assertion. `stored_frame` is its frame.
#[derive(Drop)]
pub(crate) enum StoredAssertion<'a> {
    /// Each variable knows which entry gives its text.
    Built(Assertion<'a>),
    /// What it asks for is shared with others, as it may be long: it is built for each step that
    /// applies it, which takes as many entries from the stack as there are hypotheses.
    Shared(Frame<'a>),
}

impl<'a> StoredAssertion<'a> {
    /// The assertion with this frame.
    pub(crate) fn of(alloc: Global, frame: &Frame<'a>) -> Result<StoredAssertion<'a>, AllocError>
        ensures { IfOk result (λ k. stored_frame k ≡ plain_frame frame.now) }
    {
        match &*frame.mandatory {
            Mandatory::Listed(_) => Ok(StoredAssertion::Built(Assertion::of(alloc, frame)?)),
            Mandatory::Shared(_) => Ok(StoredAssertion::Shared(shared(frame)?)),
        }
    }

    /// Applies it, as `apply` does.
    pub(crate) fn apply<P: Place>(
        &self,
        alloc: Global,
        place: &P,
        entries: &mut Entries,
        buffer: &mut Vec<u32>,
        spreads: &mut Spreads,
    ) -> Result<bool, AllocError>
        requires noted { AreNoted (P.place place.now) spreads.old.notes }
        ensures noted { IfOk result (λ _. AreNoted (P.place place.now) spreads.new.notes) }
        ensures step { IfOk result
            (AgreesWithStep
            (option_map (λ s. saving s entries.old.saved)
            (stack_with (numbered_applied (P.place place.now) (stored_frame self.now))
            (length (stored_frame self.now).hypotheses) entries.old.stack))
            entries.old entries.new) }
    {
        match self {
            StoredAssertion::Built(assertion) => apply(
                alloc, place, assertion, entries, buffer, spreads,
            ),
            StoredAssertion::Shared(frame) => {
                let assertion = Assertion::of(alloc, frame)?;
                apply(alloc, place, &assertion, entries, buffer, spreads)
            }
        }
    }
}

/// The same frame, which shares what it asks for and its statement.
fn shared<'a>(frame: &Frame<'a>) -> Result<Frame<'a>, AllocError>
    ensures { IfOk result (λ f. plain_frame f ≡ plain_frame frame.now) }
{
    Ok(Frame {
        label: frame.label,
        mandatory: frame.mandatory.clone()?,
        statement: frame.statement.clone()?,
    })
}
