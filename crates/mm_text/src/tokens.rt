// The tokens of a text, outside its comments.

ghost use Rattle.std.specs.Prelude.{◌≡◌, ◌≤◌, length};
ghost use Rattle.mm_text.specs.Ahead.{Closes, closed};

use crate::fault::MmFault;
use crate::pieces::{Ahead, closes_comment, has_comment_mark, next_piece, opens_comment};

/// A token by its place: the bytes from `from` up to `to`, without the byte at `to`.
#[derive(Clone, Copy, PartialEq, Eq)]
pub struct MmToken {
    pub from: usize,
    pub to: usize,
}

impl MmToken {
    ghost use Rattle.std.specs.List.{slice_range};

    /// The bytes of the token in its text. Bytes after the end of the text are left out.
    pub fn word<'a>(&self, bytes: &'a [u8]) -> &'a [u8]
        ensures { result.now ≡ slice_range bytes.now self.now.from self.now.to }
    {
        let to = self.to.min(bytes.len());
        let from = self.from.min(to);
        &bytes[from..to]
    }
}

/// The tokens of a text from a place on.
#[derive(Drop)]
pub struct MmTokens<'a> {
    bytes: &'a [u8],
    at: usize,
    ghost within: { at ≤ length bytes.now },
}

impl<'a> MmTokens<'a> {
    ghost use Rattle.std.specs.Prelude.{IfOk};
    ghost use Rattle.mm_text.specs.Tokens.{tokens_from};
    ghost use Rattle.mm_text.specs.Next.{left, Gives, Lies};

    /// All tokens of the text.
    pub fn new(bytes: &'a [u8]) -> MmTokens<'a>
        ensures text { result.bytes.now ≡ bytes.now }
        ensures all { left result ≡ tokens_from 0 bytes.now }
    {
        MmTokens { bytes, at: 0 }
    }

    /// The text.
    pub fn text(&self) -> &'a [u8]
        ensures { result.now ≡ self.now.bytes.now }
    {
        self.bytes
    }

    /// Reads the next token. `None` if and only if the text ends. Allocates nothing. These are
    /// faults: a byte that is not allowed (kind 1, at that byte); a comment that has no end or has
    /// a comment mark in it, or a comment that is closed but was not opened (kind 2, at its `$(` or
    /// `$)`). At the end and at a fault nothing is read, so the next call returns the same.
    pub fn next(&mut self) -> Result<Option<MmToken>, MmFault>
        ensures text { self.new.bytes.now ≡ self.old.bytes.now }
        ensures gives { Gives self.old.bytes.now (left self.old) (left self.new) result }
        ensures lies { IfOk result (Lies self.old.bytes.now self.old.at self.new.at) }
    {
        let mut at = self.at;
        loop {
            self.at = at;
            match next_piece(self.bytes, at) {
                Ahead::End => return Ok(None),
                Ahead::Stray(stray) => return Err(MmFault { kind: 1, at: stray }),
                Ahead::Run(token) => {
                    let word = &self.bytes[token.from..token.to];
                    if closes_comment(word) {
                        return Err(MmFault {
                            kind: 2,
                            at: token.from,
                        });
                    }
                    if !opens_comment(word) {
                        self.at = token.to;
                        return Ok(Some(token));
                    }
                    at = comment_end(self.bytes, token.from, token.to)?;
                }
            }
        }
    }
}

/// The place after the comment whose `$(` begins at `opened` and ends at `from`.
fn comment_end(bytes: &[u8], opened: usize, from: usize) -> Result<usize, MmFault>
    requires { from ≤ length bytes.now }
    ensures { Closes bytes.now opened from result }
{
    let mut at = from;
    let mut bad = None;
    loop {
        match next_piece(bytes, at) {
            Ahead::End => return Err(MmFault {
                kind: 2,
                at: opened,
            }),
            Ahead::Stray(stray) => {
                bad = bad.or(Some(stray));
                at = stray + 1;
            }
            Ahead::Run(token) => {
                let word = &bytes[token.from..token.to];
                if closes_comment(word) {
                    return closed(token.to, bad);
                }
                if has_comment_mark(word) {
                    return Err(MmFault {
                        kind: 2,
                        at: opened,
                    });
                }
                at = token.to;
            }
        }
    }
}

/// The place after a comment, or a fault if a byte in the comment is not allowed.
fn closed(end: usize, bad: Option<usize>) -> Result<usize, MmFault>
    ensures { result ≡ closed end bad }
{
    match bad {
        None => Ok(end),
        Some(stray) => Err(MmFault { kind: 1, at: stray }),
    }
}
