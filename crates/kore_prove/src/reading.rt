// What a run needs: the accepted definition and the accepted term.
ghost use Rattle.std.specs.Prelude.{◌≡◌, ℕ, Option, IfOk, IfErr};
ghost use Rattle.desk_io.specs.Told.{Told};
ghost use Rattle.desk_io.specs.KeptFiles.{KeepsFiles};
ghost use Rattle.term_core.specs.RulePatterns.{plain_pattern};
ghost use Rattle.rule_core.specs.Theories.{RewriteTheory};
ghost use Rattle.rule_core.specs.ProgramView.{theory_of};
ghost use Rattle.kore_rules.specs.Refused.{IsRefused, IsRefusedTerm};
ghost use Rattle.kore_prove.specs.Causes.{ReadCause};
ghost use Rattle.kore_prove.specs.FileCauses.{FileCause, UnreadCause};
ghost use Rattle.kore_prove.specs.FileCauses.{UnreadEnding, DefinitionEnding};
ghost use Rattle.kore_prove.specs.Files.{HoldsProgram, HoldsRun};
ghost use Rattle.kore_prove.specs.Limits.{definition_limit, term_limit};
ghost use Rattle.kore_prove.specs.PlainEnds.{plain_end};
ghost use Rattle.kore_prove.specs.Requests.{request};
ghost use Rattle.kore_prove.specs.Runnable.{IsRunnable};
ghost use Rattle.kore_prove.specs.RunWords.{RunRequest};

use crate::files::{Accepted, FileEnd, read_program, read_start};
use crate::report::End;
use command_words::RunWords;
use desk_io::{Desk, ReadEnd};
use kore_rules::Refusal;
use std::alloc::Global;

/// The program and the initial term in the files of a run. The definition is read first.
pub fn read_run<'a, D: Desk>(
    alloc: Global,
    desk: &mut D,
    asked: &RunWords<'a>,
) -> Result<Accepted, End<'a>>
    ensures found { IfOk result (λ a. HoldsRun
        (request asked.now) (D.state desk.old).told (theory_of a.program) (plain_pattern a.start)) }
    ensures runnable { IfOk result IsRunnable }
    ensures cause { IfErr result (λ end. ReadCause (request asked.now)
        (D.state desk.old).told (D.state desk.old).read_faults (D.state desk.new).read_faults
        (plain_end end)) }
    ensures writes { (D.state desk.new).write_faults ≡ (D.state desk.old).write_faults }
    ensures files { KeepsFiles (D.state desk.old).told (D.state desk.new).told }
    ensures created { D.created desk.new ≡ D.created desk.old }
{
    let program = match read_program(alloc, desk, asked.definition) {
        Ok(program) => program,
        Err(end) => return Err(definition_end(end, asked.definition)),
    };
    let start = match read_start(alloc, desk, asked.term, &program) {
        Ok(start) => start,
        Err(end) => return Err(term_end(end, asked.term)),
    };
    Ok(Accepted { program, start })
}

/// The end of a call whose file was not read as a whole.
pub fn unread_end(end: ReadEnd, name: &str) -> End<'_>
    ensures { (told : Option Told) (limit reads reads' : ℕ)
        → UnreadCause told name.now limit reads reads' end
        → UnreadEnding told name.now limit reads reads' (plain_end result) }
{
    match end {
        ReadEnd::NoFile => End::NoSuchFile(name),
        ReadEnd::Failed => End::ReadFault,
        ReadEnd::TooLarge => End::TooLarge(name),
        ReadEnd::Memory => End::OutOfMemory,
    }
}

/// The end of a call whose definition was not read or not accepted.
pub fn definition_end(end: FileEnd, name: &str) -> End<'_>
    ensures { (told : Option Told) (reads reads' : ℕ)
        → FileCause IsRefused told name.now definition_limit reads reads' end
        → DefinitionEnding told name.now reads reads' (plain_end result) }
{
    match end {
        FileEnd::Unread(end) => unread_end(end, name),
        FileEnd::Refused(refusal) => match refusal {
            Refusal::Refused(number, byte) => End::DefinitionRefused(number, byte),
            Refusal::Memory => End::OutOfMemory,
        },
    }
}

// The end of a call whose term was not read or not accepted.
fn term_end(end: FileEnd, name: &str) -> End<'_>
    ensures { (asked : RunRequest) (told : Option Told) (reads reads' : ℕ) (theory : RewriteTheory)
        (top : Option ℕ)
        → asked.term ≡ name.now → HoldsProgram told asked.definition theory top
        → FileCause (IsRefusedTerm theory.sig top) told asked.term term_limit reads reads' end
        → ReadCause asked told reads reads' (plain_end result) }
{
    match end {
        FileEnd::Unread(end) => match end {
            ReadEnd::NoFile => End::NoSuchFile(name),
            ReadEnd::Failed => End::ReadFault,
            ReadEnd::TooLarge => End::TooLarge(name),
            ReadEnd::Memory => End::OutOfMemory,
        },
        FileEnd::Refused(refusal) => match refusal {
            Refusal::Refused(number, byte) => End::TermRefused(number, byte),
            Refusal::Memory => End::OutOfMemory,
        },
    }
}
