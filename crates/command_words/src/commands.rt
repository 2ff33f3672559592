// What the words of the command line ask for.
ghost use Rattle.std.specs.Prelude.{◌≡◌, ◌≤◌, map, IfOk, IfSome, IfNone, Err, true, false, codes};
ghost use Rattle.std.specs.Prelude.{string_bytes, option_copied, option_map, Some, ◌↔◌};
ghost use Rattle.std.specs.Option.{option_map_or};
ghost use Rattle.std.specs.Str.Parse.{digits_value};
ghost use Rattle.command_words.specs.CommandLine.{is_named, is_run, is_verify, is_check, is_drill};
ghost use Rattle.command_words.specs.CommandLine.{is_prove, are_bad, are_bad_files, is_number_to};
ghost use Rattle.command_words.specs.CommandLine.{is_true, names_one_file};
ghost use Rattle.command_words.specs.CommandLine.{is_drill_number, most_drilled};
ghost use Rattle.command_words.specs.Commands.{Gives, GivesRun, GivesFile, GivesCheck, GivesProve};
ghost use Rattle.command_words.specs.Commands.{GivesDrill};
ghost use Rattle.command_words.specs.Plain.{is_plain, IsReadBy};
ghost use Rattle.clap.specs.Matches.{first_value, found_of};
ghost use Rattle.clap.specs.Simple.{app_of};
ghost use Rattle.clap.specs.Takes.{takes};

use crate::definitions::{
    check_definition, drill_definition, prove_definition, run_definition, verify_definition,
};
use crate::numbers::number_to;
use clap::ArgMatches;
use clap::error::ErrorKind;
use std::alloc::{AllocError, Global};
use thiserror::Error;

/// What the words ask for.
#[derive(Clone, Copy)]
pub enum Command<'a> {
    /// To run a term.
    Run(RunWords<'a>),
    /// To verify the database in the file of this name.
    Verify(&'a str),
    /// To check what the database in a file justifies.
    Check(CheckWords<'a>),
    /// To prove the steps of a hint file.
    Prove(ProveWords<'a>),
    /// To drill the program.
    Drill(DrillWords<'a>),
}

/// What a call is to run.
#[derive(Clone, Copy)]
pub struct RunWords<'a> {
    /// The name of the file with the definition.
    pub definition: &'a str,
    /// The name of the file with the term.
    pub term: &'a str,
    /// The greatest number of steps, at most 1,000,000.
    pub limit: u32,
    /// The greatest number of calls of functions, at most 10,000,000.
    pub calls: u32,
    /// The name of the file for the proof, if one is wanted.
    pub proof: Option<&'a str>,
    /// The name of the file for the hints of the steps, if they are wanted. It is another name than
    /// that of the file for the proof.
    pub hints: Option<&'a str>,
    /// Whether the proof is to show that a stuck run is stuck. Then there is a file for it.
    pub stuck: bool,
}

/// What a call is to check.
#[derive(Clone, Copy)]
pub struct CheckWords<'a> {
    /// The name of the file with the definition.
    pub definition: &'a str,
    /// The name of the file with the database.
    pub file: &'a str,
}

/// What a call is to prove.
#[derive(Clone, Copy)]
pub struct ProveWords<'a> {
    /// The name of the file with the definition.
    pub definition: &'a str,
    /// The name of the file with the initial term and the steps.
    pub hints: &'a str,
    /// The name of the file for the proof.
    pub proof: &'a str,
    /// The greatest number of calls of functions, at most 10,000,000.
    pub calls: u32,
}

/// What a call is to drill.
#[derive(Clone, Copy)]
pub struct DrillWords<'a> {
    /// The number of steps, 1 to 1,000.
    pub steps: u32,
    /// The name of the file for the proof.
    pub file: &'a str,
}

/// Why the words were not read.
#[derive(Debug, Drop, PartialEq, Eq, Clone, Copy, Error)]
pub enum WordsEnd {
    /// No command takes the words.
    #[error("bad words")]
    Bad,
    /// Memory ran out.
    #[error("out of memory")]
    Memory,
}

/// The greatest number of steps that words may name.
const MAX_STEPS: u32 = 1_000_000;

/// The greatest number of calls that words may name.
const MAX_CALLS: u32 = 10_000_000;

/// The number of calls if the words state none.
const USUAL_CALLS: u32 = 1_000_000;

/// The greatest number of steps of a drill.
const MAX_DRILLED: u32 = 1_000;

impl From<AllocError> for WordsEnd {
    ghost use Rattle.command_words.specs.declared.commands.WordsEnd.TheVariants.{Memory};

    ghost from_gives = { λ _ end. end ≡ Memory };

    fn from(_error: AllocError) -> Self {
        WordsEnd::Memory
    }
}

/// What the words ask for. The result borrows from the words.
///
/// Errors: `Bad` exactly when no command takes the words; `Memory` if memory ran out.
pub fn read_words<'a>(alloc: Global, words: &'a [String]) -> Result<Command<'a>, WordsEnd>
    ensures good { IfOk result (λ c. (are_bad (map string_bytes words.entry.now) ≡ false)
        × Gives (map string_bytes words.entry.now) c) }
    ensures bad { result ≡ Err WordsEnd.Bad → are_bad (map string_bytes words.entry.now) ≡ true }
{
    if is_named("run", words) {
        run_words(alloc, words).map(Command::Run)
    } else if is_named("verify", words) {
        verify_words(alloc, words).map(Command::Verify)
    } else if is_named("check", words) {
        check_words(alloc, words).map(Command::Check)
    } else if is_named("prove", words) {
        prove_words(alloc, words).map(Command::Prove)
    } else if is_named("drill", words) {
        drill_words(alloc, words).map(Command::Drill)
    } else {
        Err(WordsEnd::Bad)
    }
}

// Whether the first word is this one.
fn is_named(name: &str, words: &[String]) -> bool
    ensures { result ≡ is_named name.now (map string_bytes words.now) }
{
    match words {
        [] => false,
        [first, ..] => first.as_str() == name,
    }
}

// What a run command asks for.
fn run_words<'a>(alloc: Global, words: &'a [String]) -> Result<RunWords<'a>, WordsEnd>
    requires { is_named (codes "run") (map string_bytes words.now) ≡ true }
    ensures good { IfOk result (λ r. (is_run (map string_bytes words.entry.now) ≡ true)
        × GivesRun (map string_bytes words.entry.now) r) }
    ensures bad { result ≡ Err WordsEnd.Bad → is_run (map string_bytes words.entry.now) ≡ false }
{
    let command = run_definition(alloc)?;
    let matches = matches_for(command, words)?;
    let definition = matches.get_str("def").ok_or(WordsEnd::Bad)?;
    let term = matches.get_str("term").ok_or(WordsEnd::Bad)?;
    let limit = number_in(MAX_STEPS, matches.get_str("limit")).ok_or(WordsEnd::Bad)?;
    let calls = number_or(MAX_CALLS, matches.get_str("calls"), USUAL_CALLS).ok_or(WordsEnd::Bad)?;
    let proof = matches.get_str("proof");
    let hints = matches.get_str("hints");
    let stuck = is_set(&matches, "stuck");
    if are_bad_files(stuck, proof, hints) {
        return Err(WordsEnd::Bad);
    }
    Ok(RunWords {
        definition,
        term,
        limit,
        calls,
        proof,
        hints,
        stuck,
    })
}

// Whether the words state this flag.
fn is_set(matches: &ArgMatches<'_>, flag: &str) -> bool
    ensures { result ≡ is_true (first_value (found_of matches.now) flag.now) }
{
    match matches.get_str(flag) {
        Some(value) => value == "true",
        None => false,
    }
}

// Whether the proof and the hints would go to one file, or a proof is to show more and none is
// wanted.
fn are_bad_files(stuck: bool, proof: Option<&str>, hints: Option<&str>) -> bool
    ensures { result ≡ are_bad_files stuck (option_copied proof.entry)
        (option_copied hints.entry) }
{
    (stuck && proof.is_none()) || name_one_file(proof, hints)
}

// Whether both names are there and are the same.
fn name_one_file(name: Option<&str>, other: Option<&str>) -> bool
    ensures { result ≡ names_one_file (option_copied name.entry) (option_copied other.entry) }
{
    match (name, other) {
        (Some(name), Some(other)) => name == other,
        _ => false,
    }
}

// The file that a verify command names.
fn verify_words<'a>(alloc: Global, words: &'a [String]) -> Result<&'a str, WordsEnd>
    requires { is_named (codes "verify") (map string_bytes words.now) ≡ true }
    ensures good { IfOk result (λ file. (is_verify (map string_bytes words.entry.now) ≡ true)
        × GivesFile (map string_bytes words.entry.now) file.now) }
    ensures bad { result ≡ Err WordsEnd.Bad → is_verify (map string_bytes words.entry.now) ≡ false }
{
    let command = verify_definition(alloc)?;
    let matches = matches_for(command, words)?;
    matches.get_str("file").ok_or(WordsEnd::Bad)
}

// What a check command asks for.
fn check_words<'a>(alloc: Global, words: &'a [String]) -> Result<CheckWords<'a>, WordsEnd>
    requires { is_named (codes "check") (map string_bytes words.now) ≡ true }
    ensures good { IfOk result (λ c. (is_check (map string_bytes words.entry.now) ≡ true)
        × GivesCheck (map string_bytes words.entry.now) c) }
    ensures bad { result ≡ Err WordsEnd.Bad → is_check (map string_bytes words.entry.now) ≡ false }
{
    let command = check_definition(alloc)?;
    let matches = matches_for(command, words)?;
    let definition = matches.get_str("def").ok_or(WordsEnd::Bad)?;
    let file = matches.get_str("file").ok_or(WordsEnd::Bad)?;
    Ok(CheckWords { definition, file })
}

// What a prove command asks for.
fn prove_words<'a>(alloc: Global, words: &'a [String]) -> Result<ProveWords<'a>, WordsEnd>
    requires { is_named (codes "prove") (map string_bytes words.now) ≡ true }
    ensures good { IfOk result (λ p. (is_prove (map string_bytes words.entry.now) ≡ true)
        × GivesProve (map string_bytes words.entry.now) p) }
    ensures bad { result ≡ Err WordsEnd.Bad → is_prove (map string_bytes words.entry.now) ≡ false }
{
    let command = prove_definition(alloc)?;
    let matches = matches_for(command, words)?;
    let definition = matches.get_str("def").ok_or(WordsEnd::Bad)?;
    let hints = matches.get_str("hints").ok_or(WordsEnd::Bad)?;
    let proof = matches.get_str("proof").ok_or(WordsEnd::Bad)?;
    let calls = number_or(MAX_CALLS, matches.get_str("calls"), USUAL_CALLS).ok_or(WordsEnd::Bad)?;
    Ok(ProveWords {
        definition,
        hints,
        proof,
        calls,
    })
}

// What a drill command asks for.
fn drill_words<'a>(alloc: Global, words: &'a [String]) -> Result<DrillWords<'a>, WordsEnd>
    requires { is_named (codes "drill") (map string_bytes words.now) ≡ true }
    ensures good { IfOk result (λ d. (is_drill (map string_bytes words.entry.now) ≡ true)
        × GivesDrill (map string_bytes words.entry.now) d) }
    ensures bad { result ≡ Err WordsEnd.Bad → is_drill (map string_bytes words.entry.now) ≡ false }
{
    let command = drill_definition(alloc)?;
    let matches = matches_for(command, words)?;
    let steps = steps_in(matches.get_str("n")).ok_or(WordsEnd::Bad)?;
    let file = matches.get_str("file").ok_or(WordsEnd::Bad)?;
    Ok(DrillWords { steps, file })
}

// The number of steps of a drill that the word states. `None` if there is no word or a bad one.
fn steps_in(word: Option<&str>) -> Option<u32>
    ensures number { IfSome result
        (λ n. option_map (digits_value 10) (option_copied word.entry) ≡ Some n) }
    ensures bounds { IfSome result (λ n. (1 ≤ n) × (n ≤ most_drilled)) }
    ensures good { IfSome result
        (λ n. option_map_or is_drill_number (option_copied word.entry) false ≡ true) }
    ensures bad { IfNone result
        (option_map_or is_drill_number (option_copied word.entry) false ≡ false) }
{
    match number_in(MAX_DRILLED, word) {
        Some(0) => None,
        number => number,
    }
}

// The number that the word states, at most `most`. `None` if there is no word or a bad one.
fn number_in(most: u32, word: Option<&str>) -> Option<u32>
    ensures number { IfSome result
        (λ n. option_map (digits_value 10) (option_copied word.entry) ≡ Some n) }
    ensures good { IfSome result
        (λ n. option_map_or (is_number_to most) (option_copied word.entry) false ≡ true) }
    ensures bad { IfNone result
        (option_map_or (is_number_to most) (option_copied word.entry) false ≡ false) }
{
    number_to(most, word?)
}

// The number that the word states, at most `most`, or `usual` if there is no word. `None` if the
// word is bad.
fn number_or(most: u32, word: Option<&str>, usual: u32) -> Option<u32>
    ensures number { IfSome result
        (λ n. n ≡ option_map_or (digits_value 10) (option_copied word.entry) usual) }
    ensures good { IfSome result
        (λ n. option_map_or (is_number_to most) (option_copied word.entry) true ≡ true) }
    ensures bad { IfNone result
        (option_map_or (is_number_to most) (option_copied word.entry) true ≡ false) }
{
    match word {
        Some(word) => number_to(most, word),
        None => Some(usual),
    }
}

// Parses the words for a command without subcommands. `Bad` comes only if the command's definition
// does not take them.
fn matches_for<'a>(
    command: clap::Command<'a>,
    words: &'a [String],
) -> Result<ArgMatches<'a>, WordsEnd>
    requires { is_plain (app_of command) ≡ true }
    ensures read { IfOk result
        (IsReadBy (app_of command.entry) (map string_bytes words.entry.now)) }
    ensures bad { result ≡ Err WordsEnd.Bad →
        takes (app_of command.entry) (map string_bytes words.entry.now) ≡ false }
{
    match command.try_get_matches_from(words) {
        Ok(matches) => Ok(matches),
        Err(error) => Err(end_of(error.kind())),
    }
}

// Why words were not parsed: `Memory` exactly if memory ran out.
fn end_of(kind: ErrorKind) -> WordsEnd
    ensures memory { result ≡ WordsEnd.Memory ↔ kind ≡ ErrorKind.OutOfMemory }
    ensures bad { result ≡ WordsEnd.Bad ↔ (kind ≡ ErrorKind.OutOfMemory → ⊥) }
{
    match kind {
        ErrorKind::OutOfMemory => WordsEnd::Memory,
        _ => WordsEnd::Bad,
    }
}
