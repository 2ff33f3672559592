// The files of a run: the definition and the term.
ghost use Rattle.std.specs.Prelude.{◌≡◌, ◌≤◌, IfOk, IfErr};
ghost use Rattle.desk_io.specs.KeptFiles.{KeepsFiles};
ghost use Rattle.term_core.specs.RulePatterns.{plain_pattern};
ghost use Rattle.rule_core.specs.ProgramView.{theory_of};
ghost use Rattle.rule_core.specs.WellSorted.{IsStart};
ghost use Rattle.kore_rules.specs.Refused.{IsRefused, IsRefusedTerm};
ghost use Rattle.kore_rules.specs.RefusedTexts.{top_of};
ghost use Rattle.kore_prove.specs.FileCauses.{FileCause};
ghost use Rattle.kore_prove.specs.Files.{HoldsProgram, HoldsStart};
ghost use Rattle.kore_prove.specs.Runnable.{IsProgram};

use desk_io::{Desk, ReadEnd, read_file};
use kore_rules::{Refusal, accept, accept_term};
use rule_core::Program;
use std::alloc::Global;
use term_core::RulePat;

/// The greatest number of bytes of a definition.
const DEFINITION_LIMIT: usize = 33_554_432;

/// The greatest number of bytes of a term.
const TERM_LIMIT: usize = 1_048_576;

/// Why a file has no program or no initial term of a run.
#[derive(Drop)]
pub enum FileEnd {
    /// The file was not read as a whole.
    Unread(ReadEnd),
    /// Its bytes were refused.
    Refused(Refusal),
}

/// An accepted definition and an accepted term of it.
#[derive(Drop)]
pub struct Accepted {
    pub program: Program,
    pub start: RulePat,
}

/// The program in the file of that name.
pub fn read_program<D: Desk>(alloc: Global, desk: &mut D, name: &str) -> Result<Program, FileEnd>
    ensures found { IfOk result
        (λ p. HoldsProgram (D.state desk.old).told name.now (theory_of p) (top_of p)) }
    ensures program { IfOk result IsProgram }
    ensures cause { IfErr result (FileCause IsRefused
        (D.state desk.old).told name.now DEFINITION_LIMIT (D.state desk.old).read_faults
        (D.state desk.new).read_faults) }
    ensures counts { (D.state desk.old).read_faults ≤ (D.state desk.new).read_faults }
    ensures writes { (D.state desk.new).write_faults ≡ (D.state desk.old).write_faults }
    ensures files { KeepsFiles (D.state desk.old).told (D.state desk.new).told }
    ensures created { D.created desk.new ≡ D.created desk.old }
{
    match read_file(alloc, desk, name, DEFINITION_LIMIT) {
        Ok(bytes) => match accept(alloc, &bytes) {
            Ok(program) => Ok(program),
            Err(refusal) => Err(FileEnd::Refused(refusal)),
        },
        Err(end) => Err(FileEnd::Unread(end)),
    }
}

/// The initial term, in the file of that name, of a run of the program.
pub fn read_start<D: Desk>(
    alloc: Global,
    desk: &mut D,
    name: &str,
    program: &Program,
) -> Result<RulePat, FileEnd>
    requires { IsProgram program.now }
    ensures found { IfOk result (λ start. HoldsStart
        (D.state desk.old).told name.now (theory_of program.now) (top_of program.now)
        (plain_pattern start)) }
    ensures start { IfOk result (λ start. IsStart (theory_of program.now) (plain_pattern start)) }
    ensures cause { IfErr result (FileCause (IsRefusedTerm program.now.sig (top_of program.now))
        (D.state desk.old).told name.now TERM_LIMIT (D.state desk.old).read_faults
        (D.state desk.new).read_faults) }
    ensures counts { (D.state desk.old).read_faults ≤ (D.state desk.new).read_faults }
    ensures writes { (D.state desk.new).write_faults ≡ (D.state desk.old).write_faults }
    ensures files { KeepsFiles (D.state desk.old).told (D.state desk.new).told }
    ensures created { D.created desk.new ≡ D.created desk.old }
{
    match read_file(alloc, desk, name, TERM_LIMIT) {
        Ok(bytes) => match accept_term(alloc, program, &bytes) {
            Ok(start) => Ok(start),
            Err(refusal) => Err(FileEnd::Refused(refusal)),
        },
        Err(end) => Err(FileEnd::Unread(end)),
    }
}
