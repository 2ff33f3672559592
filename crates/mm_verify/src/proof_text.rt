// The texts of proofs, as steps.
ghost use Rattle.std.specs.Prelude.{◌≡◌, ℕ, map, IfOk, IfSome, Some, None, true, false, option_map};
ghost use Rattle.std.specs.Prelude.{◌||◌, []};
ghost use Rattle.std.specs.Prelude.{if◌then◌else◌, codes};
ghost use Rattle.mm_text.specs.Bytes.{has_token};
ghost use Rattle.mm_text.specs.Reader.{words_of};
ghost use Rattle.mm_frame.specs.PlainFrames.{plain_frame, plain_hypotheses};
ghost use Rattle.mm_frame.specs.PlainFrames.{mandatory_hypotheses};
ghost use Rattle.mm_scope.specs.StateReads.{is_mandatory_named};
ghost use Rattle.mm_scope.specs.ScopeState.{scope_state};
ghost use Rattle.mm_database.specs.ProofText.{lettered_steps};
ghost use Rattle.mm_verify.specs.Running.{citation_of, step_of, steps_in};
ghost use Rattle.mm_verify.specs.Reading.{letters_of, behind_items, citations_in, table_of};
ghost use Rattle.mm_verify.specs.Citing.{all_cited};
ghost use Rattle.std.specs.List.{list_any};
ghost use Rattle.std.specs.List.Sorted.{IsStrictlyIncreasing};
ghost use Rattle.mm_verify.specs.ProofSteps.{IsLabelled};
ghost use Rattle.mm_verify.specs.ProofSteps.{clashes, listed_citations, compressed_proof};
ghost use Rattle.mm_verify.specs.ProofSteps.{citing as citing_all, steps_named, labels_in};
ghost use Rattle.mm_database.specs.ProofText.{before_close, behind_close};

use crate::citable::Citable;
use crate::label_marks::{Marks, are_surely_distinct};
use crate::letters::ReadSteps;
use crate::machine::{Citation, Step};
use mm_frame::{Frame, Hyp, Mandatory, ascending, own_labels};
use mm_text::MmToken;
use std::alloc::{AllocError, Global};

/// The steps of a proof of an assertion with this frame. Returns `None` exactly when the text of
/// the proof names no steps. It takes time in the number of the proof's tokens and letters and in
/// the length of the statement, times the logarithm of these numbers. If the frame has lists, it
/// takes time in their lengths too.
pub(crate) fn read_proof<'s, 'a>(
    alloc: Global,
    known: &Citable<'s, 'a>,
    bytes: &'a [u8],
    frame: &'s Frame<'a>,
    proof: &[MmToken],
    marks: &mut Marks,
) -> Result<Option<Vec<Step<'s, 'a>>>, AllocError>
    ensures { IfOk result
        (λ r. IsLabelled (scope_state known.now.scopes.now) (plain_frame frame.now)
        → option_map steps_in r
        ≡ steps_named (scope_state known.now.scopes.now) (plain_frame frame.now).hypotheses
        (words_of bytes.now proof.now)) }
{
    match proof {
        [] => Ok(None),
        [first, rest @ ..] => {
            if first.word(bytes) == b"(".as_slice() {
                read_compressed(alloc, known, bytes, frame, rest, marks)
            } else {
                read_normal(alloc, known, bytes, proof)
            }
        }
    }
}

/// The steps of a proof that is a list of labels.
fn read_normal<'s, 'a>(
    alloc: Global,
    known: &Citable<'s, 'a>,
    bytes: &'a [u8],
    proof: &[MmToken],
) -> Result<Option<Vec<Step<'s, 'a>>>, AllocError>
    ensures { IfOk result (λ r. option_map steps_in r
        ≡ option_map citing_all
        (all_cited (scope_state known.now.scopes.now) (words_of bytes.now proof.now))) }
{
    match all_cited(alloc, known, bytes, proof)? {
        None => Ok(None),
        Some(citations) => Ok(Some(citing(alloc, &citations)?)),
    }
}

/// The steps that only cite.
fn citing<'s, 'a>(
    alloc: Global,
    citations: &[Citation<'s, 'a>],
) -> Result<Vec<Step<'s, 'a>>, AllocError>
    ensures { IfOk result (λ v. map step_of v.items ≡ citing_all (map citation_of citations.now)) }
{
    let mut steps = Vec::with_capacity(alloc, citations.len())?;
    for citation in citations {
        steps.push(Step::Cites(*citation))?;
    }
    Ok(steps)
}

/// What labels cite, if each cites something.
fn all_cited<'s, 'a>(
    alloc: Global,
    known: &Citable<'s, 'a>,
    bytes: &'a [u8],
    labels: &[MmToken],
) -> Result<Option<Vec<Citation<'s, 'a>>>, AllocError>
    ensures { IfOk result (λ r. option_map citations_in r
        ≡ all_cited (scope_state known.now.scopes.now) (words_of bytes.now labels.now)) }
{
    let mut citations = Vec::new(alloc);
    if cite_all(known, bytes, labels, &mut citations)? {
        Ok(Some(citations))
    } else {
        Ok(None)
    }
}

/// Appends what labels cite. Returns false if one of them cites nothing.
fn cite_all<'s, 'a>(
    known: &Citable<'s, 'a>,
    bytes: &'a [u8],
    labels: &[MmToken],
    citations: &mut Vec<Citation<'s, 'a>>,
) -> Result<bool, AllocError>
    ensures { IfOk result (λ all. behind_items (map citation_of citations.old.items)
        (all_cited (scope_state known.now.scopes.now) (words_of bytes.now labels.now))
        ≡ (if all then Some (map citation_of citations.new.items) else None)) }
{
    citations.reserve(labels.len())?;
    for label in labels {
        match known.cite(label.word(bytes)) {
            None => return Ok(false),
            Some(citation) => citations.push(citation)?,
        }
    }
    Ok(true)
}

/// The steps of a compressed proof, by the tokens after its `(`.
fn read_compressed<'s, 'a>(
    alloc: Global,
    known: &Citable<'s, 'a>,
    bytes: &'a [u8],
    frame: &'s Frame<'a>,
    tokens: &[MmToken],
    marks: &mut Marks,
) -> Result<Option<Vec<Step<'s, 'a>>>, AllocError>
    ensures { IfOk result
        (λ r. IsLabelled (scope_state known.now.scopes.now) (plain_frame frame.now)
        → option_map steps_in r
        ≡ compressed_proof (scope_state known.now.scopes.now)
        (plain_frame frame.now).hypotheses (words_of bytes.now tokens.now)) }
{
    match split_at_close(bytes, tokens) {
        None => Ok(None),
        Some((labels, letters)) => match read_listed(alloc, known, bytes, frame, labels, marks)? {
            None => Ok(None),
            Some(listed) => read_letters(alloc, &frame.mandatory, listed, bytes, letters),
        },
    }
}

/// The tokens before the first `)`, and those after it.
fn split_at_close<'t>(bytes: &[u8], tokens: &'t [MmToken]) -> Option<(&'t [MmToken], &'t [MmToken])>
    ensures found { IfSome result
        (λ r. (has_token (words_of bytes.now tokens.now) (codes ")") ≡ true)
        × (words_of bytes.now r.0.now ≡ before_close (words_of bytes.now tokens.now))
        × (words_of bytes.now r.1.now ≡ behind_close (words_of bytes.now tokens.now))) }
    ensures none { result ≡ None → has_token (words_of bytes.now tokens.now) (codes ")") ≡ false }
{
    let mut at = 0;
    while at < tokens.len() {
        if tokens[at].word(bytes) == b")".as_slice() {
            return Some((&tokens[..at], &tokens[at + 1..]));
        }
        at += 1;
    }
    None
}

/// What the listed labels of a compressed proof cite. Returns `None` if one of them cites nothing,
/// occurs twice or is that of a mandatory hypothesis.
fn read_listed<'s, 'a>(
    alloc: Global,
    known: &Citable<'s, 'a>,
    bytes: &'a [u8],
    frame: &Frame<'a>,
    labels: &[MmToken],
    marks: &mut Marks,
) -> Result<Option<Vec<Citation<'s, 'a>>>, AllocError>
    ensures { IfOk result
        (λ r. IsLabelled (scope_state known.now.scopes.now) (plain_frame frame.now)
        → option_map citations_in r
        ≡ listed_citations (scope_state known.now.scopes.now)
        (plain_frame frame.now).hypotheses (words_of bytes.now labels.now)) }
{
    if clash(alloc, known, bytes, frame, labels, marks)? {
        return Ok(None);
    }
    all_cited(alloc, known, bytes, labels)
}

/// Whether a label occurs twice or is that of a mandatory hypothesis. If the hypotheses are shared,
/// it takes time in the length of the statement, and not in their number.
fn clash<'a>(
    alloc: Global,
    known: &Citable<'_, 'a>,
    bytes: &'a [u8],
    frame: &Frame<'a>,
    labels: &[MmToken],
    marks: &mut Marks,
) -> Result<bool, AllocError>
    ensures { IfOk result
        (λ r. IsLabelled (scope_state known.now.scopes.now) (plain_frame frame.now)
        → r
        ≡ clashes (labels_in (plain_frame frame.now).hypotheses)
        (words_of bytes.now labels.now)) }
{
    match &*frame.mandatory {
        Mandatory::Listed(lists) => has_clash(alloc, bytes, &lists.hyps, labels, marks),
        Mandatory::Shared(_) => {
            let symbols = frame.statement.symbols();
            clash_with_mandatory(alloc, known, bytes, symbols, labels, marks)
        }
    }
}

/// Whether a label occurs twice or is that of an active hypothesis that is mandatory for a
/// statement of these symbols.
fn clash_with_mandatory<'a>(
    alloc: Global,
    known: &Citable<'_, 'a>,
    bytes: &'a [u8],
    symbols: &[u32],
    labels: &[MmToken],
    marks: &mut Marks,
) -> Result<bool, AllocError>
    ensures { IfOk result (λ r. r
        ≡ (list_any (is_mandatory_named (scope_state known.now.scopes.now) symbols.now)
        (words_of bytes.now labels.now)
        || clashes [] (words_of bytes.now labels.now))) }
{
    let copy = Vec::from_slice(alloc, symbols)?;
    let own = ascending(copy);
    if cite_mandatory(known, bytes, &own, labels) {
        return Ok(true);
    }
    has_clash(alloc, bytes, &[], labels, marks)
}

/// Whether a label is that of an active hypothesis that is mandatory for these symbols, which
/// ascend.
fn cite_mandatory<'a>(
    known: &Citable<'_, 'a>,
    bytes: &'a [u8],
    symbols: &[u32],
    labels: &[MmToken],
) -> bool
    requires { IsStrictlyIncreasing symbols.now }
    ensures { result
        ≡ list_any (is_mandatory_named (scope_state known.now.scopes.now) symbols.now)
        (words_of bytes.now labels.now) }
{
    for label in labels {
        if known.is_mandatory(label.word(bytes), symbols) {
            return true;
        }
    }
    false
}

/// Whether a label occurs twice or is that of one of these hypotheses.
fn has_clash<'a>(
    alloc: Global,
    bytes: &'a [u8],
    hyps: &[Hyp<'a>],
    labels: &[MmToken],
    marks: &mut Marks,
) -> Result<bool, AllocError>
    ensures { IfOk result
        (λ r. r ≡ clashes (labels_in (plain_hypotheses hyps.now)) (words_of bytes.now labels.now)) }
{
    if are_surely_distinct(bytes, hyps, labels, marks) {
        return Ok(false);
    }
    let mut seen = own_labels(alloc, hyps)?;
    let mut at = labels.len();
    while at > 0 {
        at -= 1;
        if seen.insert(labels[at].word(bytes), ())?.is_some() {
            return Ok(true);
        }
    }
    Ok(false)
}

/// The steps that the letters of some tokens stand for. Returns `None` exactly when they stand for
/// no steps. The first numbers stand for the hypotheses, the next ones for what is listed, and the
/// next for the saved entries, in order. It takes time in the number of letters.
pub(crate) fn read_letters<'s, 'a>(
    alloc: Global,
    mandatory: &'s Mandatory<'a>,
    listed: Vec<Citation<'s, 'a>>,
    bytes: &[u8],
    tokens: &[MmToken],
) -> Result<Option<Vec<Step<'s, 'a>>>, AllocError>
    ensures { IfOk result (λ r. option_map steps_in r
        ≡ lettered_steps (table_of (mandatory_hypotheses mandatory.now) listed.entry.items)
        (letters_of bytes.now tokens.now)) }
{
    let mut read = ReadSteps::new(alloc, mandatory, listed, count_letters(tokens))?;
    if read.take_words(bytes, tokens)? {
        Ok(read.ended())
    } else {
        Ok(None)
    }
}

/// How many letters tokens have. They stand for at most this many steps.
fn count_letters(tokens: &[MmToken]) -> usize {
    let mut count: usize = 0;
    for token in tokens {
        count = count.saturating_add(token.to.saturating_sub(token.from));
    }
    count
}
