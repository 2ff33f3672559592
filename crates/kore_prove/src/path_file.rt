// The path that a hint file lists, its two lines, and the file of its proof.
ghost use Rattle.std.specs.Prelude.{◌≡◌, ◌≤◌, Some, IsFalse, IsSome, IfOk, IfErr, OnOk, OnErr};
ghost use Rattle.std.specs.Prelude.{IsErrOf, length};
ghost use Rattle.desk_io.specs.Counts.{CountRose};
ghost use Rattle.desk_io.specs.KeptFiles.{KeepsFiles, KeepsOthers};
ghost use Rattle.term_core.specs.Patterns.{ground_pattern};
ghost use Rattle.kore_show.specs.KorePatterns.{kore_pattern};
ghost use Rattle.path_proof.specs.RecordedPaths.{CanProvePath, first_of, last_of, steps_of};
ghost use Rattle.kore_prove.specs.PathsRead.{HintsEnding, ListsPath, HoldsProofOf};
ghost use Rattle.kore_prove.specs.PathsRead.{MayHoldFrontOf};
ghost use Rattle.kore_prove.specs.PlainEnds.{plain_end};
ghost use Rattle.kore_prove.specs.ProvedPath.{path_lines};
ghost use Rattle.kore_prove.specs.Requests.{prove_request};
ghost use Rattle.kore_prove.specs.Runnable.{IsProgram};

use crate::reading::unread_end;
use crate::report::End;
use command_words::ProveWords;
use desk_io::{Desk, DeskFault, read_file};
use fun_eval::Engine;
use hint_file::{HintEnd, HintPath};
use itoa::Buffer;
use kore_print::print_pattern;
use kore_show::shown;
use path_proof::proved_path;
use rule_core::{Program, Signature};
use std::alloc::{AllocError, Global};
use term_core::{Term, pattern_of};

/// The greatest number of bytes of hints.
const HINTS_LIMIT: usize = 268_435_456;

/// The path that the hint file of a request lists, over the program of its definition. All lines
/// are checked.
pub fn read_path<'a, D: Desk>(
    alloc: Global,
    desk: &mut D,
    asked: &ProveWords<'a>,
    program: &Program,
) -> Result<HintPath, End<'a>>
    requires { IsProgram program.now }
    ensures found { IfOk result (ListsPath
        (D.state desk.old).told (prove_request asked.now) program.now) }
    ensures provable { IfOk result (CanProvePath program.now) }
    ensures shown { IfOk result (λ path. IsSome (kore_pattern program.now.sig
        (ground_pattern (last_of (first_of path) (steps_of path))))) }
    ensures cause { IfErr result (λ end. HintsEnding
        (D.state desk.old).told (prove_request asked.now) program.now
        (D.state desk.old).read_faults (D.state desk.new).read_faults (plain_end end)) }
    ensures counts { (D.state desk.old).read_faults ≤ (D.state desk.new).read_faults }
    ensures writes { (D.state desk.new).write_faults ≡ (D.state desk.old).write_faults }
    ensures files { KeepsFiles (D.state desk.old).told (D.state desk.new).told }
    ensures created { D.created desk.new ≡ D.created desk.old }
{
    let bytes = match read_file(alloc, desk, asked.hints, HINTS_LIMIT) {
        Ok(bytes) => bytes,
        Err(end) => return Err(unread_end(end, asked.hints)),
    };
    let Ok(engine) = Engine::new(alloc, program) else {
        return Err(End::OutOfMemory);
    };
    match HintPath::read(alloc, program, &engine, &bytes, asked.calls) {
        Ok(path) => Ok(path),
        Err(end) => match end {
            HintEnd::Bad(line, number) => Err(End::HintsRefused(number, line)),
            HintEnd::Memory => Err(End::OutOfMemory),
        },
    }
}

/// Proves a path in the file of this name, and returns its two lines. The file is created first,
/// written step by step, and closed.
///
/// Errors: out of memory, or a fault that the desk counted. After an error the file is as before, is
/// empty, or holds the front of a proof of this path up to one of its configurations.
pub fn proved_path_lines<D: Desk>(
    alloc: Global,
    desk: &mut D,
    program: &Program,
    path: &HintPath,
    file: &str,
) -> Result<Vec<u8>, DeskFault>
    requires none_created { IsFalse (D.created desk.old) }
    requires provable { CanProvePath program.now path.now }
    requires shown { IsSome (kore_pattern program.now.sig
        (ground_pattern (last_of (first_of path.now) (steps_of path.now)))) }
    ensures lines { IfOk result (λ lines. path_lines program.now.sig (length (steps_of path.now))
        (last_of (first_of path.now) (steps_of path.now)) ≡ Some lines.items) }
    ensures proof { OnOk result (HoldsProofOf
        (D.state desk.old).told (D.state desk.new).told file.now program.now path.now) }
    ensures front { OnErr result (MayHoldFrontOf
        (D.state desk.old).told (D.state desk.new).told file.now program.now path.now) }
    ensures failed { IsErrOf result DeskFault.Failed
        → CountRose (D.state desk.old).write_faults (D.state desk.new).write_faults }
    ensures files { KeepsOthers (λ other. Some file.now ≡ Some other) (D.state desk.old).told
        (D.state desk.new).told }
    ensures created { D.created desk.new ≡ D.created desk.old }
    ensures reads { (D.state desk.new).read_faults ≡ (D.state desk.old).read_faults }
{
    let lines = lines_of_path(alloc, &program.sig, path)?;
    desk.create_file(file)?;
    match proved_path(alloc, desk, program, path) {
        Ok(()) => Ok(lines),
        Err(fault) => Err(fault),
    }
}

// The two lines of a path. `AllocError`: out of memory.
fn lines_of_path(alloc: Global, sig: &Signature, path: &HintPath) -> Result<Vec<u8>, AllocError>
    requires { IsSome (kore_pattern sig.now
        (ground_pattern (last_of (first_of path.now) (steps_of path.now)))) }
    ensures { IfOk result (λ lines. path_lines sig.now (length (steps_of path.now))
        (last_of (first_of path.now) (steps_of path.now)) ≡ Some lines.items) }
{
    let last = pattern_of(alloc, last_configuration(path))?;
    let text = print_pattern(alloc, &shown(alloc, sig, &last)?)?;
    let mut lines = Vec::from_slice(alloc, "proved ".as_bytes())?;
    lines.extend_from_slice(Buffer::new().format(path.steps.len()).as_bytes())?;
    lines.push(b'\n')?;
    lines.extend_from_slice(text.as_bytes())?;
    lines.push(b'\n')?;
    Ok(lines)
}

// The last configuration of a path.
fn last_configuration(path: &HintPath) -> &Term
    ensures { result.now ≡ last_of (first_of path.now) (steps_of path.now) }
{
    match path.steps.last() {
        Some(step) => step.right.result(),
        None => path.first.result(),
    }
}
