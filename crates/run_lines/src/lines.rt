// The two lines of a run.
ghost use Rattle.std.specs.Prelude.{◌≡◌, IsSome, IfOk, Some};
ghost use Rattle.kore_ast.specs.Plain.{pattern_tree as kore_tree};
ghost use Rattle.term_core.specs.RulePatterns.{plain_pattern};
ghost use Rattle.term_core.specs.Patterns.{ground_pattern};
ghost use Rattle.kore_show.specs.KorePatterns.{kore_pattern};
ghost use Rattle.run_loop.specs.RunEnds.{plain_run};
ghost use Rattle.run_lines.specs.Lines.{kept_pattern, lines_of};

use crate::end_line::end_line;
use kore_ast::Pat;
use kore_print::print_pattern;
use kore_show::shown;
use rule_core::Signature;
use run_loop::RunEnd;
use std::alloc::{AllocError, Global};
use term_core::{RulePat, Term, pattern_of};

/// The two lines of a run of an initial term that ended with this end, with the names of the
/// signature. What the run keeps must have a Kore pattern. Every well-sorted pattern without
/// variables has one (`shown_laws` of `kore_show`). `AllocError`: out of memory.
///
/// The time is linear in the length of the output, plus one pass over the symbols. Two copies of
/// the last configuration are made, one after the other.
pub fn run_lines(
    alloc: Global,
    sig: &Signature,
    start: &RulePat,
    end: &RunEnd,
) -> Result<Vec<u8>, AllocError>
    requires { IsSome (kept_pattern sig.now (plain_pattern start.now) (plain_run end.now)) }
    ensures { IfOk result
        (λ lines.
        lines_of sig.now (plain_pattern start.now) (plain_run end.now) ≡ Some lines.items) }
{
    let kept = kept_pattern(alloc, sig, start, end)?;
    let text = print_pattern(alloc, &kept)?;
    let mut lines = end_line(alloc, sig, end)?;
    lines.push(b'\n')?;
    lines.extend_from_slice(text.as_bytes())?;
    lines.push(b'\n')?;
    Ok(lines)
}

// The Kore pattern of what a run keeps.
fn kept_pattern(
    alloc: Global,
    sig: &Signature,
    start: &RulePat,
    end: &RunEnd,
) -> Result<Pat, AllocError>
    requires { IsSome (kept_pattern sig.now (plain_pattern start.now) (plain_run end.now)) }
    ensures { IfOk result
        (λ p. kept_pattern sig.now (plain_pattern start.now) (plain_run end.now)
        ≡ Some (kore_tree p)) }
{
    match end {
        RunEnd::Stuck(_, last) | RunEnd::Limit(_, last) | RunEnd::Blocked(_, _, last) => {
            shown_term(alloc, sig, last)
        }
        RunEnd::Unstarted(_) => shown(alloc, sig, start),
    }
}

// The Kore pattern of a term.
fn shown_term(alloc: Global, sig: &Signature, term: &Term) -> Result<Pat, AllocError>
    requires { IsSome (kore_pattern sig.now (ground_pattern term.now)) }
    ensures { IfOk result
        (λ p. kore_pattern sig.now (ground_pattern term.now) ≡ Some (kore_tree p)) }
{
    let pattern = pattern_of(alloc, term)?;
    shown(alloc, sig, &pattern)
}
