// The lines of a hint text.
ghost use Rattle.std.specs.Prelude.{◌≡◌, ◌<◌, IsSome, IfOk, OnOk, OnErr, Some, length};
ghost use Rattle.std.specs.Prelude.{slice_get, string_bytes};
ghost use Rattle.term_core.specs.Patterns.{ground_pattern};
ghost use Rattle.term_core.specs.RulePatterns.{plain_pattern};
ghost use Rattle.rule_core.specs.ProgramView.{theory_of, rewrite_rule};
ghost use Rattle.rule_core.specs.Records.{result_of};
ghost use Rattle.rule_core.specs.RecordView.{plain_record, plain_step};
ghost use Rattle.kore_show.specs.KorePatterns.{kore_pattern};
ghost use Rattle.hint_file.specs.HintTexts.{first_lines, joined, numbered_line, shown_text};
ghost use Rattle.hint_file.specs.HintTexts.{stated_line};

use crate::places::rule_of;
use itoa::Buffer;
use kore_print::print_pattern;
use kore_show::shown;
use rule_core::{Program, Signature, StepRecord};
use std::alloc::{AllocError, Global};
use term_core::{RulePat, Term, pattern_of};

/// Adds lines 1 and 2 of the hint text of steps from this initial term. The term must have a Kore
/// pattern. Every well-sorted pattern without variables has one (`shown_laws` of `kore_show`).
/// `AllocError`: out of memory. The bytes are then as before.
///
/// The time is linear in what is written, plus one pass over the symbols.
pub fn start_hints(
    alloc: Global,
    program: &Program,
    start: &RulePat,
    to: &mut Vec<u8>,
) -> Result<(), AllocError>
    requires { IsSome (kore_pattern program.now.sig (plain_pattern start.now)) }
    ensures written { OnOk result
        (joined (Some to.old.items) (first_lines program.now.sig (plain_pattern start.now))
        ≡ Some to.new.items) }
    ensures err { OnErr result (to.new.items ≡ to.old.items) }
{
    let text = text_of(alloc, &program.sig, start)?;
    let mut lines = Vec::from_slice(alloc, "kore-hints 1".as_bytes())?;
    lines.push(b'\n')?;
    lines.extend_from_slice(text.as_bytes())?;
    lines.push(b'\n')?;
    to.extend_from_slice(&lines)
}

/// Adds the line of the step that a record states. The program must have its rule, and the
/// configuration after the step must have a Kore pattern. `AllocError`: out of memory. The bytes
/// are then as before.
///
/// The time is linear in what is written, plus one pass over the symbols.
pub fn push_hint(
    alloc: Global,
    program: &Program,
    made: &StepRecord,
    to: &mut Vec<u8>,
) -> Result<(), AllocError>
    requires rule { made.now.rule < length (theory_of program.now).rules }
    requires shown { IsSome
        (kore_pattern program.now.sig
        (ground_pattern (result_of (plain_record made.now.right)))) }
    ensures written { OnOk result
        (joined (Some to.old.items) (stated_line (theory_of program.now) (plain_step made.now))
        ≡ Some to.new.items) }
    ensures err { OnErr result (to.new.items ≡ to.old.items) }
{
    push_step(alloc, program, made.rule, made.right.result(), to)
}

// Adds the line of the step by the rule with this number to a configuration. The bytes are as
// before if memory runs out.
pub(crate) fn push_step(
    alloc: Global,
    program: &Program,
    number: u32,
    after: &Term,
    to: &mut Vec<u8>,
) -> Result<(), AllocError>
    requires rule { number < length (theory_of program.now).rules }
    requires shown { IsSome (kore_pattern program.now.sig (ground_pattern after.now)) }
    ensures written { OnOk result
        (joined (Some to.old.items) (numbered_line (theory_of program.now) number after.now)
        ≡ Some to.new.items) }
    ensures err { OnErr result (to.new.items ≡ to.old.items) }
{
    let rule = rule_of(program, number);
    let after = pattern_of(alloc, after)?;
    let text = text_of(alloc, &program.sig, &after)?;
    let mut line = Vec::from_slice(alloc, Buffer::new().format(rule.at).as_bytes())?;
    line.push(b' ')?;
    line.extend_from_slice(text.as_bytes())?;
    line.push(b'\n')?;
    to.extend_from_slice(&line)
}

// The canonical text of a pattern.
pub(crate) fn text_of(
    alloc: Global,
    sig: &Signature,
    pattern: &RulePat,
) -> Result<String, AllocError>
    requires { IsSome (kore_pattern sig.now (plain_pattern pattern.now)) }
    ensures { IfOk result
        (λ text. shown_text sig.now (plain_pattern pattern.now) ≡ Some (string_bytes text)) }
{
    print_pattern(alloc, &shown(alloc, sig, pattern)?)
}
