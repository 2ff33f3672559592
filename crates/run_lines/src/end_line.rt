// The line of a run's end.
ghost use Rattle.std.specs.Prelude.{◌≡◌, ◌++◌, IfOk, decimal};
ghost use Rattle.rule_core.specs.RunView.{cause_of};
ghost use Rattle.run_loop.specs.RunEnds.{plain_run};
ghost use Rattle.run_lines.specs.Lines.{hook_name, symbol_name, blocked_line, end_line};
ghost use Rattle.run_lines.specs.Causes.{IsNamedCause};

use hook_table::hook_rows;
use itoa::Buffer;
use rule_core::{Blocked, Signature};
use run_loop::RunEnd;
use std::alloc::{AllocError, Global};
use term_core::{HookNo, SymId};

// `stuck N`, `limit N` or `blocked N CAUSE NAME`
pub(crate) fn end_line(alloc: Global, sig: &Signature, end: &RunEnd) -> Result<Vec<u8>, AllocError>
    ensures { IfOk result (λ line. line.items ≡ end_line sig.now (plain_run end.now)) }
{
    match end {
        RunEnd::Stuck(steps, _) => numbered(alloc, "stuck ", *steps),
        RunEnd::Limit(steps, _) => numbered(alloc, "limit ", *steps),
        RunEnd::Blocked(steps, why, _) => blocked(alloc, sig, *steps, *why),
        RunEnd::Unstarted(why) => blocked(alloc, sig, 0, *why),
    }
}

// A word and a number.
fn numbered(alloc: Global, word: &str, steps: u32) -> Result<Vec<u8>, AllocError>
    ensures { IfOk result (λ line. line.items ≡ word.now ++ decimal steps) }
{
    let mut line = Vec::from_slice(alloc, word.as_bytes())?;
    line.extend_from_slice(Buffer::new().format(steps).as_bytes())?;
    Ok(line)
}

// `blocked N CAUSE NAME`
fn blocked(alloc: Global, sig: &Signature, steps: u32, why: Blocked) -> Result<Vec<u8>, AllocError>
    ensures { IfOk result (λ line. line.items ≡ blocked_line sig.now steps (cause_of why)) }
{
    let (word, name) = cause_and_name(sig, why);
    let mut line = numbered(alloc, "blocked ", steps)?;
    line.push(b' ')?;
    line.extend_from_slice(word.as_bytes())?;
    line.push(b' ')?;
    line.extend_from_slice(name.as_bytes())?;
    Ok(line)
}

// Why an evaluation has no value, as a word, and the name of the hook or symbol at which it has
// none.
fn cause_and_name<'s>(sig: &'s Signature, why: Blocked) -> (&'static str, &'s str)
    ensures { IsNamedCause sig.now why result.0.now result.1.now }
{
    match why {
        Blocked::NoValue(hook, _) => ("NoValue", hook_name(hook)),
        Blocked::Closed(symbol) => ("Closed", symbol_name(sig, symbol)),
        Blocked::NoEquation(symbol) => ("NoEquation", symbol_name(sig, symbol)),
        Blocked::Calls(symbol) => ("Calls", symbol_name(sig, symbol)),
        Blocked::Height(symbol) => ("Height", symbol_name(sig, symbol)),
        Blocked::Nest(symbol) => ("Nest", symbol_name(sig, symbol)),
    }
}

// The name of a hook.
fn hook_name(hook: HookNo) -> &'static str
    ensures { result.now ≡ hook_name hook.0 }
{
    match hook_rows().get(hook.0 as usize) {
        Some(row) => row.name,
        None => "",
    }
}

// The name of a symbol.
fn symbol_name(sig: &Signature, symbol: SymId) -> &str
    ensures { result.now ≡ symbol_name sig.now symbol.0 }
{
    match sig.symbols.name(symbol.0 as usize) {
        Some(name) => name,
        None => "",
    }
}
