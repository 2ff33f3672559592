// The hint text of a run while it is made.
ghost use Rattle.std.specs.Prelude.{◌≡◌, ◌<◌, IsSome, OnOk, Some, None, [], length};
ghost use Rattle.term_core.specs.Patterns.{ground_pattern};
ghost use Rattle.term_core.specs.RulePatterns.{plain_pattern};
ghost use Rattle.rule_core.specs.ProgramView.{theory_of};
ghost use Rattle.kore_show.specs.KorePatterns.{kore_pattern};
ghost use Rattle.hint_file.specs.HintTexts.{first_lines, numbered_line};
ghost use Rattle.hint_file.specs.RunTexts.{AddsText, text_so_far};

use crate::writing::{push_step, start_hints};
use rule_core::Program;
use std::alloc::{AllocError, Global};
use term_core::{RulePat, Term};

/// The hint text of a run so far, if it is wanted. It is held in memory: some ten bytes a step and
/// the canonical texts of all configurations.
#[derive(Drop)]
pub struct Hints {
    /// The text, or `None` if no hints are wanted.
    pub text: Option<Vec<u8>>,
}

impl Hints {
    /// No hints are wanted.
    pub fn unwanted() -> Hints
        ensures { text_so_far result ≡ None }
    {
        Hints { text: None }
    }

    /// Hints are wanted, and there is no text yet.
    pub fn wanted(alloc: Global) -> Hints
        ensures { text_so_far result ≡ Some [] }
    {
        Hints {
            text: Some(Vec::new(alloc)),
        }
    }

    /// Adds lines 1 and 2, if hints are wanted. `AllocError`: out of memory. The text is then of no
    /// further use.
    pub fn start(
        &mut self,
        alloc: Global,
        program: &Program,
        start: &RulePat,
    ) -> Result<(), AllocError>
        requires { IsSome (kore_pattern program.now.sig (plain_pattern start.now)) }
        ensures { OnOk result
            (AddsText (first_lines program.now.sig (plain_pattern start.now)) self.old self.new) }
    {
        match &mut self.text {
            Some(text) => start_hints(alloc, program, start, text),
            None => Ok(()),
        }
    }

    /// Adds the line of the step by the rule with this number to the configuration after it, if
    /// hints are wanted. `AllocError`: out of memory. The text is then of no further use.
    pub fn push(
        &mut self,
        alloc: Global,
        program: &Program,
        number: u32,
        after: &Term,
    ) -> Result<(), AllocError>
        requires rule { number < length (theory_of program.now).rules }
        requires shown { IsSome (kore_pattern program.now.sig (ground_pattern after.now)) }
        ensures { OnOk result
            (AddsText (numbered_line (theory_of program.now) number after.now) self.old
            self.new) }
    {
        match &mut self.text {
            Some(text) => push_step(alloc, program, number, after, text),
            None => Ok(()),
        }
    }
}
