// The definitions of the commands, for clap.
ghost use Rattle.std.specs.Prelude.{◌≡◌, IfOk, codes, false};
ghost use Rattle.clap.specs.Walk.{rule_of};
ghost use Rattle.clap.specs.Simple.{app_of, with_rule};
ghost use Rattle.command_words.specs.CommandLine.{positional_rule, option_rule, flag_rule};
ghost use Rattle.command_words.specs.CommandLine.{bare_app, run_app, verify_app, check_app};
ghost use Rattle.command_words.specs.CommandLine.{prove_app, drill_app};

use clap::{Arg, ArgAction, Command};
use std::alloc::{AllocError, Global};

// `run DEF TERM --limit N [--calls N] [--proof FILE] [--hints HINTS] [--stuck]`
pub(crate) fn run_definition<'a>(alloc: Global) -> Result<Command<'a>, AllocError>
    ensures { IfOk result (λ c. app_of c ≡ run_app) }
{
    let named = with(
        with(bare(alloc, "run"), positional(alloc, "def"))?,
        positional(alloc, "term"),
    )?;
    let limited = with(named, option(alloc, "limit", true))?;
    let proved = with(
        with(limited, option(alloc, "calls", false))?,
        option(alloc, "proof", false),
    )?;
    with(
        with(proved, option(alloc, "hints", false))?,
        flag(alloc, "stuck"),
    )
}

// `verify FILE`
pub(crate) fn verify_definition<'a>(alloc: Global) -> Result<Command<'a>, AllocError>
    ensures { IfOk result (λ c. app_of c ≡ verify_app) }
{
    with(bare(alloc, "verify"), positional(alloc, "file"))
}

// `check DEF FILE`
pub(crate) fn check_definition<'a>(alloc: Global) -> Result<Command<'a>, AllocError>
    ensures { IfOk result (λ c. app_of c ≡ check_app) }
{
    with(
        with(bare(alloc, "check"), positional(alloc, "def"))?,
        positional(alloc, "file"),
    )
}

// `prove DEF HINTS --proof FILE [--calls N]`
pub(crate) fn prove_definition<'a>(alloc: Global) -> Result<Command<'a>, AllocError>
    ensures { IfOk result (λ c. app_of c ≡ prove_app) }
{
    let named = with(
        with(bare(alloc, "prove"), positional(alloc, "def"))?,
        positional(alloc, "hints"),
    )?;
    with(
        with(named, option(alloc, "proof", true))?,
        option(alloc, "calls", false),
    )
}

// `drill N FILE`
pub(crate) fn drill_definition<'a>(alloc: Global) -> Result<Command<'a>, AllocError>
    ensures { IfOk result (λ c. app_of c ≡ drill_app) }
{
    with(
        with(bare(alloc, "drill"), positional(alloc, "n"))?,
        positional(alloc, "file"),
    )
}

// A command without arguments and without help.
fn bare<'a>(alloc: Global, name: &'a str) -> Command<'a>
    ensures { app_of result ≡ bare_app name.entry.now }
{
    Command::new(alloc, name).disable_help_flag(true)
}

// The command with one more argument.
fn with<'a>(command: Command<'a>, arg: Arg<'a>) -> Result<Command<'a>, AllocError>
    requires { arg.global ≡ false }
    ensures { IfOk result (λ c. app_of c ≡ with_rule (app_of command.entry) (rule_of arg.entry)) }
{
    command.arg(arg)
}

// A required word that no option precedes.
fn positional<'a>(alloc: Global, id: &'a str) -> Arg<'a>
    ensures rule { rule_of result ≡ positional_rule id.entry.now }
    ensures local { result.global ≡ false }
{
    Arg::new(alloc, id).action(ArgAction::Set).required(true)
}

// `--NAME VALUE`
fn option<'a>(alloc: Global, id: &'a str, is_required: bool) -> Arg<'a>
    ensures rule { rule_of result ≡ option_rule id.entry.now is_required }
    ensures local { result.global ≡ false }
{
    Arg::new(alloc, id)
        .long(id)
        .action(ArgAction::Set)
        .required(is_required)
}

// `--NAME`
fn flag<'a>(alloc: Global, id: &'a str) -> Arg<'a>
    ensures rule { rule_of result ≡ flag_rule id.entry.now }
    ensures local { result.global ≡ false }
{
    Arg::new(alloc, id).long(id).action(ArgAction::SetTrue)
}
