// A path that is proved step by step.
ghost use Rattle.std.specs.Prelude.{◌≡◌, ◌≤◌, IsTrue, IsFalse, IfOk, OnOk, OnErr, IsErrOf};
ghost use Rattle.term_core.specs.RulePatterns.{plain_pattern};
ghost use Rattle.rule_core.specs.ProgramView.{theory_of};
ghost use Rattle.desk_io.specs.Counts.{CountRose};
ghost use Rattle.run_proof.specs.ClosedProofs.{KeepsOthersNow};
ghost use Rattle.path_proof.specs.OpenPaths.{WritesFrontOfPath, WritesPath};
ghost use Rattle.path_proof.specs.PathProofs.{PutsPathFront, PutsPathProof};
ghost use Rattle.path_proof.specs.RecordedPaths.{CanProvePath, first_of, steps_of};

use desk_io::{Desk, DeskFault};
use hint_file::HintPath;
use prove_run::{Proof, ProveEnd};
use rule_core::Program;
use std::alloc::Global;

/// Proves a path that was read from a hint file. The proof is a Metamath database that justifies
/// that the initial term reaches the last configuration of the path, by compressed proofs. It is
/// appended to the desk's created file, step by step. The file is closed at the end, even after an
/// error.
///
/// Errors: out of memory, or a fault that the desk counted. After an error nothing was appended, or
/// the front of a proof of this path up to one of its configurations.
///
/// The text of a step grows with the configurations that it names, and with the calls of functions
/// that it makes. Memory holds the text of one step.
pub fn proved_path<'p, D: Desk>(
    alloc: Global,
    desk: &mut D,
    program: &'p Program,
    path: &'p HintPath,
) -> Result<(), DeskFault>
    requires file { IsTrue (D.created desk.old) }
    requires provable { CanProvePath program.now path.now }
    ensures justified { OnOk result (PutsPathProof
        (D.state desk.old).told (D.state desk.new).told (theory_of program.now)
        (plain_pattern path.now.start) (first_of path.now) (steps_of path.now)) }
    ensures front { OnErr result (PutsPathFront
        (D.state desk.old).told (D.state desk.new).told (theory_of program.now)
        (plain_pattern path.now.start) (first_of path.now) (steps_of path.now)) }
    ensures files { KeepsOthersNow (D.state desk.old).told (D.state desk.new).told }
    ensures created { IsFalse (D.created desk.new) }
    ensures failed { IsErrOf result DeskFault.Failed
        → CountRose (D.state desk.old).write_faults (D.state desk.new).write_faults }
    ensures counts { (D.state desk.old).write_faults ≤ (D.state desk.new).write_faults }
    ensures no_fault { OnOk result
        ((D.state desk.new).write_faults ≡ (D.state desk.old).write_faults) }
    ensures reads { (D.state desk.new).read_faults ≡ (D.state desk.old).read_faults }
{
    match open_proof(alloc, desk, program, path) {
        Ok(proof) => match proof.close(desk) {
            Ok(_) => Ok(()),
            Err(why) => Err(DeskFault::from(why)),
        },
        Err(why) => {
            let _closed = desk.close_file();
            Err(DeskFault::from(why))
        }
    }
}

// Begins the proof of a path, and takes its steps. The file stays open.
//
// Errors: out of memory, or a fault that the desk counted. Then nothing was appended, or the front
// of a proof of this path up to one of its configurations.
fn open_proof<'p, D: Desk>(
    alloc: Global,
    desk: &mut D,
    program: &'p Program,
    path: &'p HintPath,
) -> Result<Proof<'p>, ProveEnd>
    requires file { IsTrue (D.created desk.old) }
    requires provable { CanProvePath program.now path.now }
    ensures proved { OnOk result (WritesPath
        (D.state desk.old).told (D.state desk.new).told (theory_of program.now)
        (plain_pattern path.now.start) (first_of path.now) (steps_of path.now)) }
    ensures sound { IfOk result (λ proof. IsFalse proof.failed) }
    ensures front { OnErr result (WritesFrontOfPath
        (D.state desk.old).told (D.state desk.new).told (theory_of program.now)
        (plain_pattern path.now.start) (first_of path.now) (steps_of path.now)) }
    ensures created { IsTrue (D.created desk.new) }
    ensures failed { IsErrOf result ProveEnd.Failed
        → CountRose (D.state desk.old).write_faults (D.state desk.new).write_faults }
    ensures counts { (D.state desk.old).write_faults ≤ (D.state desk.new).write_faults }
    ensures no_fault { OnOk result
        ((D.state desk.new).write_faults ≡ (D.state desk.old).write_faults) }
    ensures reads { (D.state desk.new).read_faults ≡ (D.state desk.old).read_faults }
{
    let mut proof = Proof::begin(alloc, program, &path.start, Some(&path.first), desk)?;
    let mut here = path.first.result();
    for step in &path.steps {
        let _high = here.height();
        proof.step(alloc, desk, step)?;
        here = step.right.result();
    }
    Ok(proof)
}
