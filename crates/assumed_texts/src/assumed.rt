// What a program may assume.
ghost use Rattle.std.specs.Prelude.{◌≡◌, ◌↔◌, ◌≤◌, ◌^◌, IsTrue, IfOk, length};
ghost use Rattle.rule_core.specs.ProgramView.{theory_of};
ghost use Rattle.rule_core.specs.WellSorted.{IsWellSorted};
ghost use Rattle.ml_image.specs.Assumed.{IsAssumed};
ghost use Rattle.ml_image.specs.Gained.{HasGained};
ghost use Rattle.pattern_reader.specs.Readings.{AreKept, AreUtf8, texts};
ghost use Rattle.assumed_texts.specs.AssumedTexts.{CanBeAssumed, SaysAssumed};
ghost use Rattle.assumed_texts.specs.Deciding.{Decides};
ghost use Rattle.assumed_texts.specs.Filing.{HasWritten};

use crate::filing::{Filed, file_all, has_image};
use crate::structure::says_structure;
use crate::written::written_images;
use ml_pat::{MPat, Names};
use pattern_reader::read_pattern;
use rule_core::Program;
use std::alloc::{AllocError, Global};
use std::marker::Model;
use true_facts::is_true_fact;

/// A program, to be asked what its proofs may assume. It keeps the images of the rules and of the
/// equations of functions, and numbers of the tokens that it was asked about. Contracts see it as
/// the program.
#[derive(Drop)]
pub struct Assumed<'p> {
    program: &'p Program,
    names: Names,
    images: Filed,
}

impl<'p> Model for Assumed<'p> {
    ghost use Rattle.std.specs.Coded.{codes};
    ghost use Rattle.term_core.specs.contracts.rule_patterns.RulePat as rule_pattern;
    ghost use Rattle.rule_core.specs.declared.rules.Program.{Program};

    ghost Value = { Program };

    ghost coded = { Prim.hlevel (codes, rule_pattern.the_row.coded) };

    ghost use Rattle.assumed_texts.specs.AssumedView.{program_of, IsReady};

    ghost view = { program_of };

    ghost invariant = { IsReady };
}

impl<'p> Assumed<'p> {
    /// Makes the images of the program's rules and equations. It takes time linear in these. An
    /// error: out of memory.
    pub fn new(alloc: Global, program: &'p Program) -> Result<Self, AllocError>
        requires { CanBeAssumed program.now }
        ensures { IfOk result (λ a. a ≡ program.now) }
    {
        let hasher = program.sig.symbols.hasher();
        let mut names = Names::hashed_by(alloc, hasher.start);
        let list = written_images(alloc, program, &mut names)?;
        let images = file_all(alloc, hasher, &names, &list)?;
        Ok(Assumed {
            program,
            names,
            images,
        })
    }

    /// Whether the tokens say that something holds that the program may assume. Afterwards the
    /// program is the same. An error: out of memory.
    pub fn says(&mut self, alloc: Global, tokens: &[&[u8]]) -> Result<bool, AllocError>
        requires { AreUtf8 tokens.now }
        ensures says { IfOk result
            (λ b. IsTrue b ↔ SaysAssumed (theory_of self.old) (texts tokens.now)) }
        ensures program { self.new ≡ self.old }
    {
        says_in(alloc, self.program, &mut self.names, &self.images, tokens)
    }
}

// Whether the tokens say that something holds that the program may assume, if these are the images
// of its rules and equations.
fn says_in(
    alloc: Global,
    program: &Program,
    names: &mut Names,
    images: &Filed,
    tokens: &[&[u8]],
) -> Result<bool, AllocError>
    requires program { CanBeAssumed program.now }
    requires images { HasWritten (theory_of program.now) names.old images.now.by_text
        images.now.others.items }
    requires tokens { AreUtf8 tokens.now }
    ensures says { IfOk result
        (λ b. IsTrue b ↔ SaysAssumed (theory_of program.now) (texts tokens.now)) }
    ensures names { AreKept names.old names.new }
{
    let [turnstile, rest @ ..] = tokens else {
        return Ok(false);
    };
    if *turnstile != b"|-".as_slice() {
        return Ok(false);
    }
    let Some(pat) = read_pattern(alloc, names, rest)? else {
        return Ok(false);
    };
    names.tokens_differ();
    is_assumed(alloc, program, names, images, &pat)
}

// Whether the pattern is the image of what the program may assume, if these are the images of its
// rules and equations.
fn is_assumed(
    alloc: Global,
    program: &Program,
    names: &mut Names,
    images: &Filed,
    pat: &MPat,
) -> Result<bool, AllocError>
    requires program { CanBeAssumed program.now }
    requires images { HasWritten (theory_of program.now) names.old images.now.by_text
        images.now.others.items }
    ensures answer { IfOk result
        (Decides program.now.sig names.old names.new (IsAssumed (theory_of program.now)) pat.now) }
    ensures names { HasGained program.now.sig names.old names.new }
{
    if has_image(alloc, names, images, pat)? {
        return Ok(true);
    }
    if says_structure(alloc, &program.sig, names, pat)? {
        return Ok(true);
    }
    is_true_fact(alloc, &program.sig, names, pat)
}
