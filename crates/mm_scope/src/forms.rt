// What the tokens of a statement say.

ghost use Rattle.std.specs.Prelude.{◌≡◌, [], option_map};
ghost use Rattle.mm_text.specs.Reader.{words_of};
ghost use Rattle.mm_database.specs.Forms.{form_of, keyword_of, has_dollar, before_dollar};
ghost use Rattle.mm_database.specs.Forms.{from_dollar};
ghost use Rattle.mm_database.specs.Forms.{is_end, block_form, labelled_form};
ghost use Rattle.mm_scope.specs.FormsRead.{form_read, keyword_read};
ghost use Rattle.mm_scope.specs.FormParts.{proof_read, proof_for, names_symbols};

use mm_text::MmToken;

/// The keyword of a statement.
#[derive(Clone, Copy, PartialEq, Eq)]
pub enum Keyword {
    /// `$c`
    Constants,
    /// `$v`
    Variables,
    /// `$f`
    Floating,
    /// `$e`
    Essential,
    /// `$d`
    Disjoint,
    /// `$a`
    Axiom,
    /// `$p`
    Theorem,
}

/// A statement with a keyword: the tokens before the keyword, those between it and the next token
/// with a `$`, and, if it is a `$p`, those of its proof.
#[derive(Clone, Copy)]
pub struct Plain<'t> {
    pub labels: &'t [MmToken],
    pub keyword: Keyword,
    pub symbols: &'t [MmToken],
    pub proof: &'t [MmToken],
}

/// What a statement says.
#[derive(Clone, Copy)]
pub enum Form<'t> {
    BlockStart,
    BlockEnd,
    Plain(Plain<'t>),
}

/// What the tokens of a statement say. Returns `None` exactly when a token with `$` is unknown or
/// misplaced, a `$p` has no `$=`, or a `$c` or `$v` names no symbol.
pub fn read_form<'t>(bytes: &[u8], tokens: &'t [MmToken]) -> Option<Form<'t>>
    ensures { option_map (form_read bytes.now) result ≡ form_of (words_of bytes.now tokens.now) }
{
    if tokens.len() == 1 {
        return block_form(tokens[0].word(bytes));
    }
    let (labels, rest) = split_at_dollar(bytes, tokens);
    labelled_form(bytes, labels, rest)
}

/// The form of a statement, from its labels and the tokens from its keyword on.
fn labelled_form<'t>(bytes: &[u8], labels: &'t [MmToken], rest: &'t [MmToken]) -> Option<Form<'t>>
    ensures { option_map (form_read bytes.now) result
        ≡ labelled_form (words_of bytes.now labels.now) (words_of bytes.now rest.now) }
{
    let (first, rest) = rest.split_first()?;
    let keyword = keyword_of(first.word(bytes))?;
    let (symbols, rest) = split_at_dollar(bytes, rest);
    let proof = proof_of(bytes, keyword, symbols, rest)?;
    Some(Form::Plain(Plain {
        labels,
        keyword,
        symbols,
        proof,
    }))
}

/// The form of a token that is a whole statement.
fn block_form<'t>(word: &[u8]) -> Option<Form<'t>>
    ensures { option_map (form_read []) result ≡ block_form word.now }
{
    if word == b"${".as_slice() {
        Some(Form::BlockStart)
    } else if word == b"$}".as_slice() {
        Some(Form::BlockEnd)
    } else {
        None
    }
}

/// The tokens before the first one with a `$`, and those from it on.
fn split_at_dollar<'t>(bytes: &[u8], tokens: &'t [MmToken]) -> (&'t [MmToken], &'t [MmToken])
    ensures front { words_of bytes.now result.0.now
        ≡ before_dollar (words_of bytes.now tokens.now) }
    ensures back { words_of bytes.now result.1.now ≡ from_dollar (words_of bytes.now tokens.now) }
{
    let mut at = 0;
    while at < tokens.len() {
        if has_dollar(tokens[at].word(bytes)) {
            break;
        }
        at += 1;
    }
    tokens.split_at(at)
}

/// Whether a byte of the token is `$`.
fn has_dollar(word: &[u8]) -> bool
    ensures { result ≡ has_dollar word.now }
{
    word.contains(&b'$')
}

/// The keyword that the token spells.
fn keyword_of(word: &[u8]) -> Option<Keyword>
    ensures { option_map keyword_read result ≡ keyword_of word.now }
{
    if word == b"$c".as_slice() {
        Some(Keyword::Constants)
    } else if word == b"$v".as_slice() {
        Some(Keyword::Variables)
    } else if word == b"$f".as_slice() {
        Some(Keyword::Floating)
    } else if word == b"$e".as_slice() {
        Some(Keyword::Essential)
    } else if word == b"$d".as_slice() {
        Some(Keyword::Disjoint)
    } else if word == b"$a".as_slice() {
        Some(Keyword::Axiom)
    } else if word == b"$p".as_slice() {
        Some(Keyword::Theorem)
    } else {
        None
    }
}

/// The tokens of the proof in what follows the symbols; empty if the keyword has no proof. Returns
/// `None` if what follows is misplaced, or a symbol is needed and missing.
fn proof_of<'t>(
    bytes: &[u8],
    keyword: Keyword,
    symbols: &[MmToken],
    rest: &'t [MmToken],
) -> Option<&'t [MmToken]>
    ensures { option_map (λ p. words_of bytes.now p.now) result
        ≡ proof_for keyword (words_of bytes.now symbols.now) (words_of bytes.now rest.now) }
{
    if keyword == Keyword::Theorem {
        return theorem_proof(bytes, rest);
    }
    if is_end(bytes, rest) && (!symbols.is_empty() || !names_symbols(keyword)) {
        Some(&rest[..0])
    } else {
        None
    }
}

/// The tokens between `$=` and the end of the statement.
fn theorem_proof<'t>(bytes: &[u8], rest: &'t [MmToken]) -> Option<&'t [MmToken]>
    ensures { option_map (λ p. words_of bytes.now p.now) result
        ≡ proof_read (words_of bytes.now rest.now) }
{
    let (equals, rest) = rest.split_first()?;
    if equals.word(bytes) != b"$=".as_slice() {
        return None;
    }
    let (proof, end) = split_at_dollar(bytes, rest);
    if is_end(bytes, end) {
        Some(proof)
    } else {
        None
    }
}

/// Whether a statement with this keyword must name a symbol.
fn names_symbols(keyword: Keyword) -> bool
    ensures { result ≡ names_symbols keyword }
{
    matches!(keyword, Keyword::Constants | Keyword::Variables)
}

/// Whether `$.` is all that is left.
fn is_end(bytes: &[u8], tokens: &[MmToken]) -> bool
    ensures { result ≡ is_end (words_of bytes.now tokens.now) }
{
    tokens.len() == 1 && tokens[0].word(bytes) == b"$.".as_slice()
}
