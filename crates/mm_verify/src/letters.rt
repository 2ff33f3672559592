// The letters of compressed proofs.
ghost use Rattle.std.specs.Prelude.{◌≤◌, ◌<◌, ◌^◌, length};
ghost use Rattle.mm_frame.specs.PlainFrames.{mandatory_hypotheses};

use crate::digits::{Behind, Letter, extended, meaning, read_letter, value};
use crate::machine::{Citation, Step};
use mm_frame::Mandatory;
use mm_text::MmToken;
use std::alloc::{AllocError, Global};

/// The steps of the letters that were read so far. The first numbers stand for the
/// mandatory hypotheses, and the next ones for what is listed.
#[derive(Drop)]
pub(crate) struct ReadSteps<'s, 'a> {
    mandatory: &'s Mandatory<'a>,
    listed: Vec<Citation<'s, 'a>>,
    steps: Vec<Step<'s, 'a>>,
    behind: Behind,
    saved: usize,
    ghost few: { saved ≤ length steps.items },
    ghost counted: { length (mandatory_hypotheses mandatory.now) < 2 ^ 64 },
}

impl<'s, 'a> ReadSteps<'s, 'a> {
    ghost use Rattle.mm_verify.specs.declared.digits.Behind.TheVariants.{Nothing};
    ghost use Rattle.std.specs.Prelude.{◌≡◌, ℕ, ◌∷◌, [], IfOk, map};
    ghost use Rattle.mm_text.specs.Compressed.{letter_of, last_digit, digit, saves};
    ghost use Rattle.mm_verify.specs.Running.{step_of};
    ghost use Rattle.std.specs.Prelude.{option_map};
    ghost use Rattle.mm_verify.specs.Running.{steps_in};
    ghost use Rattle.mm_verify.specs.Reading.{meant, letters_of, ReadsOn};

    /// Nothing is read yet. There is room for `count` steps.
    pub(crate) fn new(
        alloc: Global,
        mandatory: &'s Mandatory<'a>,
        listed: Vec<Citation<'s, 'a>>,
        count: usize,
    ) -> Result<ReadSteps<'s, 'a>, AllocError>
        ensures mandatory { IfOk result (λ r. r.mandatory.now ≡ mandatory.now) }
        ensures listed { IfOk result (λ r. r.listed ≡ listed.entry) }
        ensures steps { IfOk result (λ r. r.steps.items ≡ []) }
        ensures behind { IfOk result (λ r. r.behind ≡ Nothing) }
        ensures saved { IfOk result (λ r. r.saved ≡ 0) }
    {
        let _count = mandatory.count();
        Ok(ReadSteps {
            mandatory,
            listed,
            steps: Vec::with_capacity(alloc, count)?,
            behind: Behind::Nothing,
            saved: 0,
        })
    }

    /// Reads a letter. Returns false if it may not occur here, or if it completes a number that
    /// stands for no step.
    fn take_letter(&mut self, byte: u8) -> Result<bool, AllocError>
        ensures { IfOk result (ReadsOn self.old (byte ∷ []) self.new) }
    {
        match read_letter(byte) {
            Letter::Last(d) => self.end_number(d),
            Letter::Leading(d) => Ok(self.add_digit(d)),
            Letter::Save => self.save(),
            Letter::Other => Ok(false),
        }
    }

    /// Reads the last digit of a number. Returns false if the number stands for no step.
    fn end_number(&mut self, d: u8) -> Result<bool, AllocError>
        requires { 1 ≤ d }
        ensures { IfOk result (λ done.
            (b : ℕ) → letter_of b ≡ last_digit d → ReadsOn self.old (b ∷ []) self.new done) }
    {
        let Some(number) = extended(value(self.behind), 20, d) else {
            return Ok(false);
        };
        match meaning(self.mandatory, &self.listed, self.saved, number) {
            None => Ok(false),
            Some(step) => {
                self.steps.push(step)?;
                self.behind = Behind::Number;
                Ok(true)
            }
        }
    }

    /// Reads a digit before the last one.
    fn add_digit(&mut self, d: u8) -> bool
        ensures { (b : ℕ) → letter_of b ≡ digit d → ReadsOn self.old (b ∷ []) self.new result }
    {
        match extended(value(self.behind), 5, d) {
            None => false,
            Some(value) => {
                self.behind = Behind::Digits(value);
                true
            }
        }
    }

    /// Reads a `Z`.
    fn save(&mut self) -> Result<bool, AllocError>
        ensures { IfOk result
            (λ done. (b : ℕ) → letter_of b ≡ saves → ReadsOn self.old (b ∷ []) self.new done) }
    {
        if self.behind != Behind::Number {
            return Ok(false);
        }
        self.steps.push(Step::Saves)?;
        self.behind = Behind::Save;
        self.saved += 1;
        Ok(true)
    }

    /// Reads the letters of a token.
    fn take_word(&mut self, word: &[u8]) -> Result<bool, AllocError>
        ensures { IfOk result (ReadsOn self.old word.now self.new) }
    {
        for byte in word {
            if !self.take_letter(*byte)? {
                return Ok(false);
            }
        }
        Ok(true)
    }

    /// Reads the letters of tokens.
    pub(crate) fn take_words(
        &mut self,
        bytes: &[u8],
        tokens: &[MmToken],
    ) -> Result<bool, AllocError>
        ensures { IfOk result (ReadsOn self.old (letters_of bytes.now tokens.now) self.new) }
    {
        for token in tokens {
            if !self.take_word(token.word(bytes))? {
                return Ok(false);
            }
        }
        Ok(true)
    }

    /// All steps, if the letters may end here.
    pub(crate) fn ended(self) -> Option<Vec<Step<'s, 'a>>>
        ensures { option_map steps_in result ≡ meant self.entry [] }
    {
        match self.behind {
            Behind::Number | Behind::Save => Some(self.steps),
            Behind::Nothing | Behind::Digits(_) => None,
        }
    }
}
