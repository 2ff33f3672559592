// The proof of a path that a hint file lists, and its lines.
ghost use Rattle.std.specs.Prelude.{◌≡◌, IsFalse, IfOk, IfErr};
ghost use Rattle.kore_prove.specs.Courses.{course_of};
ghost use Rattle.kore_prove.specs.PlainEnds.{plain_end};
ghost use Rattle.kore_prove.specs.Requests.{prove_request};
ghost use Rattle.kore_prove.specs.RunsDone.{IsPathDone, IsPathEnded};

use crate::files::read_program;
use crate::path_file::{proved_path_lines, read_path};
use crate::reading::definition_end;
use crate::report::{End, write_end};
use command_words::ProveWords;
use desk_io::{Desk, Sink, send_whole};
use std::alloc::Global;

/// Reads the definition and the hints, checks all lines of the hints, writes the proof of the path
/// to its file, and prints the two lines of the path to `out`.
pub fn prove_command<'a, D: Desk, O: Sink>(
    alloc: Global,
    asked: &ProveWords<'a>,
    desk: &mut D,
    out: &mut O,
) -> Result<(), End<'a>>
    requires none_created { IsFalse (D.created desk.old) }
    ensures done { IfOk result (λ _. IsPathDone (prove_request asked.now) (course_of
        (D.state desk.old) (D.state desk.new) (O.state out.old) (O.state out.new))) }
    ensures ended { IfErr result (λ end. IsPathEnded (prove_request asked.now) (course_of
        (D.state desk.old) (D.state desk.new) (O.state out.old) (O.state out.new))
        (plain_end end)) }
    ensures created { D.created desk.new ≡ D.created desk.old }
{
    let program = match read_program(alloc, desk, asked.definition) {
        Ok(program) => program,
        Err(end) => return Err(definition_end(end, asked.definition)),
    };
    let path = match read_path(alloc, desk, asked, &program) {
        Ok(path) => path,
        Err(end) => return Err(end),
    };
    let lines = match proved_path_lines(alloc, desk, &program, &path, asked.proof) {
        Ok(lines) => lines,
        Err(fault) => return Err(write_end(fault)),
    };
    match send_whole(out, &lines) {
        Ok(()) => Ok(()),
        Err(fault) => Err(write_end(fault)),
    }
}
