// The fault of a theorem's proof.
ghost use Rattle.std.specs.Prelude.{◌≡◌, ℕ, map, IfOk, OnOk, length, take};
ghost use Rattle.mm_text.specs.Reader.{words_of, statement_of};
ghost use Rattle.mm_database.specs.Database.{Context};
ghost use Rattle.mm_scope.specs.ScopeState.{scope_state};
ghost use Rattle.mm_frame.specs.PlainFrames.{plain_frame};
ghost use Rattle.mm_scope.specs.StandingLaws.{place_of};
ghost use Rattle.mm_verify.specs.StoredView.{stored_frame};
ghost use Rattle.mm_verify.specs.ProofSteps.{IsLabelled, steps_named};
ghost use Rattle.mm_verify.specs.Judging.{kind_of, proof_kind};

use crate::citable::Citable;
use crate::machine::{ProofFault, check_steps};
use crate::proof_text::read_proof;
use crate::room::Room;
use crate::stored::StoredAssertion;
use mm_scope::{Scopes, Theorem};
use std::alloc::{AllocError, Global};

/// The fault kinds: the text of a proof names no steps; a step does not fit; the statement is not
/// the only entry left.
const BAD_PROOF_TEXT: u8 = 12;

const BAD_STEP: u8 = 13;

const BAD_CONCLUSION: u8 = 14;

/// The kind of the fault of a theorem's proof, if it has one.
pub(crate) fn proof_fault<'a>(
    alloc: Global,
    scopes: &Scopes<'a>,
    assertions: &[StoredAssertion<'a>],
    bytes: &'a [u8],
    theorem: &Theorem<'a, '_>,
    room: &mut Room,
) -> Result<Option<u8>, AllocError>
    requires same { map stored_frame assertions.now ≡ (scope_state scopes.now).frames }
    ensures { IfOk result
        (λ k. IsLabelled (scope_state scopes.now) (plain_frame theorem.now.frame)
        → k
        ≡ proof_kind (place_of (scope_state scopes.now))
        (plain_frame theorem.now.frame).statement
        (steps_named (scope_state scopes.now) (plain_frame theorem.now.frame).hypotheses
        (words_of bytes.now theorem.now.proof.now))) }
{
    let known = Citable::new(scopes, assertions);
    match read_proof(
        alloc,
        &known,
        bytes,
        &theorem.frame,
        theorem.proof,
        &mut room.marks,
    )? {
        None => Ok(Some(BAD_PROOF_TEXT)),
        Some(steps) => Ok(kind(check_steps(
            alloc,
            &known,
            &steps,
            theorem.frame.statement.symbols(),
            &mut room.machine,
        )?)),
    }
}

/// The fault kind of the fault of steps.
fn kind(fault: Option<ProofFault>) -> Option<u8>
    ensures { result ≡ kind_of fault }
{
    match fault {
        None => None,
        Some(ProofFault::Step) => Some(BAD_STEP),
        Some(ProofFault::Conclusion) => Some(BAD_CONCLUSION),
    }
}

/// Appends the assertions of the frames that have none yet.
pub(crate) fn add_assertions<'a>(
    alloc: Global,
    scopes: &Scopes<'a>,
    assertions: &mut Vec<StoredAssertion<'a>>,
) -> Result<(), AllocError>
    requires front { map stored_frame assertions.old.items
        ≡ take (length assertions.old.items) (scope_state scopes.now).frames }
    ensures { OnOk result
        (map stored_frame assertions.new.items ≡ (scope_state scopes.now).frames) }
{
    let frames = scopes.frames();
    while assertions.len() < frames.len() {
        let frame = &frames[assertions.len()];
        assertions.push(StoredAssertion::of(alloc, frame)?)?;
    }
    Ok(())
}
