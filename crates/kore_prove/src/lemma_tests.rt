// Lemmas that are added to the proof of a run.
ghost use Rattle.std.specs.Prelude.{◌≡◌, IsTrue, IsFalse, IfSome};
ghost use Rattle.term_core.specs.RulePatterns.{plain_pattern};
ghost use Rattle.prove_run.specs.Starting.{IsStarting};
ghost use Rattle.kore_prove.specs.Runnable.{IsRunnable};

use crate::files::{Accepted, read_program, read_start};
use crate::proof_tests::last_stated;
use crate::test_calls::{Faults, PROVES, two_files};
use desk_io::{Desk, MemDesk};
use fun_eval::Engine;
use hint_file::Hints;
use mm_verify::verify;
use prove_run::{Proof, ProveEnd, start_reaches};
use run_proof::run_with_proof;
use std::alloc::Global;
use std::slice::from_ref;
use std::test::Fail;
use term_core::RulePat;

const UNDISTURBED: Faults<'static> = Faults {
    most: 5_000,
    desk: &[],
    out: &[],
    err: &[],
};

/// With a lemma the proof of a run is valid, and the theorem of the run is the last one.
#[test]
fn a_lemma_leaves_the_run_last(rt: HostRuntime) -> Result<(), Fail> {
    let alloc = rt.alloc();
    let mut desk = two_files(alloc, &PROVES, UNDISTURBED)?;
    assert_eq!(rt; added(alloc, &mut desk, None), Some(Ok(())));
    let database = desk.file("p.mm").unwrap_or_default();
    assert_eq!(rt;
        last_stated(database),
        Some("p |- ( \\imp f:a ( \\ev f:c ) ) ")
    );
    assert!(rt; verify(alloc, database).is_ok());
    Ok(())
}

/// A fault of the write of a lemma is one of the desk.
#[test]
fn a_fault_of_a_lemma_is_reported(rt: HostRuntime) -> Result<(), Fail> {
    let alloc = rt.alloc();
    let mut desk = two_files(alloc, &PROVES, UNDISTURBED)?;
    let faults = Faults {
        desk: &[1],
        ..UNDISTURBED
    };
    let mut other = two_files(alloc, &PROVES, faults)?;
    let Ok(()) = other.create_file("q.mm") else {
        panic!(rt; "no file was created");
    };
    let end = added(alloc, &mut desk, Some(&mut other));
    assert_eq!(rt; end, Some(Err(ProveEnd::Failed)));
    Ok(())
}

/// What it comes to if the theorem that the start reaches itself is added to the proof of the run
/// of two steps. The proof is written to the desk, and the lemma to the other desk, if there is
/// one.
fn added(
    alloc: Global,
    desk: &mut MemDesk,
    other: Option<&mut MemDesk>,
) -> Option<Result<(), ProveEnd>>
    requires none_created { IsFalse (⟦<MemDesk as Desk>⟧.created desk.old) }
    requires created { IfSome other (λ to. IsTrue (⟦<MemDesk as Desk>⟧.created to.now)) }
{
    let accepted = accepted(alloc, desk)?;
    let Ok(engine) = Engine::new(alloc, &accepted.program) else {
        return None;
    };
    let proof = proof_of_run(alloc, desk, &engine, &accepted)?;
    match other {
        Some(to) => Some(add_itself(alloc, to, &accepted.start, proof)),
        None => Some(add_itself(alloc, desk, &accepted.start, proof)),
    }
}

/// The definition and the term of the desk's files, if they are accepted.
fn accepted(alloc: Global, desk: &mut MemDesk) -> Option<Accepted>
    ensures runnable { IfSome result IsRunnable }
    ensures created { ⟦<MemDesk as Desk>⟧.created desk.new ≡ ⟦<MemDesk as Desk>⟧.created desk.old }
{
    let Ok(program) = read_program(alloc, desk, "d.kore") else {
        return None;
    };
    let Ok(start) = read_start(alloc, desk, "t.kore", &program) else {
        return None;
    };
    Some(Accepted { program, start })
}

/// The proof of the run, in a new file of the desk, if nothing fails.
fn proof_of_run<'p>(
    alloc: Global,
    desk: &mut MemDesk,
    engine: &Engine<'p>,
    accepted: &'p Accepted,
) -> Option<Proof<'p>>
    requires none_created { IsFalse (⟦<MemDesk as Desk>⟧.created desk.old) }
    requires runnable { IsRunnable accepted.now }
    requires program { engine.now ≡ accepted.now.program }
    ensures created { IfSome result (λ proof. IsTrue (⟦<MemDesk as Desk>⟧.created desk.new)) }
    ensures sound { IfSome result (λ proof. IsFalse proof.failed) }
    ensures start { IfSome result
        (λ proof. IsStarting proof.program (plain_pattern accepted.now.start)) }
{
    let Ok(()) = desk.create_file("p.mm") else {
        return None;
    };
    let mut hints = Hints::unwanted();
    match run_with_proof(
        alloc,
        desk,
        engine,
        &accepted.start,
        5,
        1_000,
        false,
        &mut hints,
    ) {
        Ok((_, proof)) => Some(proof),
        Err(_) => None,
    }
}

/// Adds the theorem that the start reaches itself.
fn add_itself(
    alloc: Global,
    desk: &mut MemDesk,
    start: &RulePat,
    proof: Proof<'_>,
) -> Result<(), ProveEnd>
    requires created { IsTrue (⟦<MemDesk as Desk>⟧.created desk.old) }
    requires sound { IsFalse proof.failed }
    requires start { IsStarting proof.program (plain_pattern start.now) }
{
    let (mut prover, rest) = proof.part();
    let itself = start_reaches(alloc, &mut prover, start, None)?;
    let mut proof = rest.join(prover);
    proof.add_lemmas(alloc, desk, from_ref(&itself))
}
