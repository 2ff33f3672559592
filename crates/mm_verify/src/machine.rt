// Proofs as steps on a stack.
ghost use Rattle.std.specs.Prelude.{◌≡◌, Some, IfOk, [], map};
ghost use Rattle.mm_database.specs.Frames.{statement_of};
ghost use Rattle.mm_database.specs.Steps.{cites, saves, repeats};
ghost use Rattle.mm_database.specs.Stack.{saving};
ghost use Rattle.mm_frame.specs.NumberedSteps.{gives};
ghost use Rattle.mm_frame.specs.PlainFrames.{plain_hypothesis};
ghost use Rattle.mm_frame.specs.NumberedSteps.{NumberedPlace};
ghost use Rattle.mm_verify.specs.Applied.{AgreesWithStep};
ghost use Rattle.mm_verify.specs.Pairs.{AreNoted};
ghost use Rattle.mm_verify.specs.Running.{step_of, saving_of, numbered_step};
ghost use Rattle.mm_verify.specs.Running.{left_fault as left_fault_of, steps_fault};

use crate::entries::Entries;
use crate::place::Place;
use crate::spreads::Spreads;
use crate::stored::StoredAssertion;
use mm_frame::Hyp;
use std::alloc::{AllocError, Global};

/// What a label cites, by what it does to the stack.
#[derive(Clone, Copy)]
pub(crate) enum Citation<'s, 'a> {
    /// Puts the statement of a hypothesis on top.
    Gives(&'s Hyp<'a>),
    /// Applies an assertion to the last entries.
    Applies(&'s StoredAssertion<'a>),
}

/// A step of a proof.
#[derive(Clone, Copy)]
pub(crate) enum Step<'s, 'a> {
    /// Does what is cited.
    Cites(Citation<'s, 'a>),
    /// Saves the last entry.
    Saves,
    /// Puts the saved entry with this number, from 0, on top.
    Repeats(usize),
}

/// The entries of the stack and the saved ones, a buffer for new entries, and lists for the tests
/// of `$d`.
#[derive(Drop)]
pub(crate) struct Machine {
    entries: Entries,
    buffer: Vec<u32>,
    spreads: Spreads,
}

/// Why steps do not prove a statement.
#[derive(Clone, Copy, PartialEq, Eq)]
pub(crate) enum ProofFault {
    /// A step does not fit.
    Step,
    /// The statement is not the only entry left.
    Conclusion,
}

impl Machine {
    /// Nothing on the stack, and nothing saved.
    pub(crate) fn new(alloc: Global) -> Result<Machine, AllocError>
        ensures { IfOk result (λ m. saving_of m ≡ saving [] []) }
    {
        Ok(Machine {
            entries: Entries::new(alloc)?,
            buffer: Vec::new(alloc),
            spreads: Spreads::new(alloc)?,
        })
    }

    /// Leaves nothing on the stack, and nothing saved.
    fn clear(&mut self)
        ensures saving { saving_of self.new ≡ saving [] [] }
        ensures noted { (p : NumberedPlace) → AreNoted p self.new.spreads.notes }
    {
        self.entries.clear();
        self.spreads.begin_proof();
    }

    /// Does a step. Returns whether the step fits. If it does not, nothing changes.
    fn take<P: Place>(
        &mut self,
        alloc: Global,
        place: &P,
        step: Step<'_, '_>,
    ) -> Result<bool, AllocError>
        requires noted { AreNoted (P.place place.now) self.old.spreads.notes }
        ensures noted { IfOk result (λ _. AreNoted (P.place place.now) self.new.spreads.notes) }
        ensures step { IfOk result (AgreesWithStep
            (numbered_step (P.place place.now) (step_of step.entry) (saving_of self.old))
            (saving_of self.old) (saving_of self.new)) }
    {
        match step {
            Step::Cites(Citation::Gives(hyp)) => self.give(place, hyp),
            Step::Cites(Citation::Applies(kept)) => {
                kept.apply(
                    alloc,
                    place,
                    &mut self.entries,
                    &mut self.buffer,
                    &mut self.spreads,
                )
            }
            Step::Saves => self.save(place),
            Step::Repeats(number) => self.repeat(place, number),
        }
    }

    /// Puts the statement of a hypothesis on top.
    fn give<P: Place>(&mut self, place: &P, hyp: &Hyp<'_>) -> Result<bool, AllocError>
        ensures spreads { self.new.spreads ≡ self.old.spreads }
        ensures step { IfOk result (AgreesWithStep
            (numbered_step (P.place place.now)
            (cites (gives (statement_of (plain_hypothesis hyp.now))))
            (saving_of self.old)) (saving_of self.old) (saving_of self.new)) }
    {
        match hyp {
            Hyp::Floating(_label, typecode, variable) => self
                .entries
                .push(&[*typecode, *variable])?,
            Hyp::Essential(_label, statement) => self.entries.push(statement.symbols())?,
        }
        Ok(true)
    }

    /// Saves the last entry. Returns false if there is none.
    fn save<P: Place>(&mut self, place: &P) -> Result<bool, AllocError>
        ensures spreads { self.new.spreads ≡ self.old.spreads }
        ensures step { IfOk result (AgreesWithStep
            (numbered_step (P.place place.now) saves (saving_of self.old))
            (saving_of self.old) (saving_of self.new)) }
    {
        self.entries.save()
    }

    /// Puts the saved entry with this number on top. Returns false if there is none.
    fn repeat<P: Place>(&mut self, place: &P, number: usize) -> Result<bool, AllocError>
        ensures spreads { self.new.spreads ≡ self.old.spreads }
        ensures step { IfOk result (AgreesWithStep
            (numbered_step (P.place place.now) (repeats number) (saving_of self.old))
            (saving_of self.old) (saving_of self.new)) }
    {
        self.entries.repeat(number)
    }

    /// The fault of what is left on the stack. Only the statement may be left.
    fn left_fault(&self, conclusion: &[u32]) -> Option<ProofFault>
        ensures { result ≡ left_fault_of conclusion.now (Some (saving_of self.now)) }
    {
        let stack = self.entries.stack();
        if stack.len() == 1 && *stack.entry(0) == *conclusion {
            None
        } else {
            Some(ProofFault::Conclusion)
        }
    }
}

/// Why steps do not prove a statement at a place, if they do not. The machine keeps its memory.
pub(crate) fn check_steps<P: Place>(
    alloc: Global,
    place: &P,
    steps: &[Step<'_, '_>],
    conclusion: &[u32],
    machine: &mut Machine,
) -> Result<Option<ProofFault>, AllocError>
    ensures { IfOk result
        (λ f. f ≡ steps_fault (P.place place.now) (map step_of steps.now) conclusion.now) }
{
    machine.clear();
    for step in steps {
        if !machine.take(alloc, place, *step)? {
            return Ok(Some(ProofFault::Step));
        }
    }
    Ok(machine.left_fault(conclusion))
}
