// Tokens as they are written, each with white space after it.
ghost use Rattle.std.specs.Prelude.{◌≡◌, ◌∷◌, [], ◌++◌, OnOk, decimal, map};
ghost use Rattle.mm_proof.specs.Labels.{two_numbers};
ghost use Rattle.mm_proof.specs.Tokens.{name_of};
ghost use Rattle.mm_proof.specs.Writing.{label_token, word_token};
ghost use Rattle.mm_text.specs.Written.{white_after, written};

use itoa::Buffer;
use ml_pat::Names;
use std::alloc::AllocError;

/// A label that a proof cites.
#[derive(Clone, Copy)]
pub enum Label {
    /// A row of the header.
    Row(&'static str),
    /// The row of the header about a connective: a prefix, and the name of the connective.
    Form(&'static str, &'static str),
    /// The row about a quantifier of the variable itself: a prefix, and the name of the quantifier.
    Bound(&'static str, &'static str),
    /// The declaration of the name with this number.
    Declared(u64),
    /// The `$f` of an object variable.
    Object(u32),
    /// The `$f` of a pattern variable.
    Meta(u32),
    /// The `$e` with this number.
    Premise(u64),
    /// The statement with this number.
    Stated(u64),
}

/// A token of a statement.
#[derive(Clone, Copy)]
pub enum Word {
    /// A constant of the header, or a keyword.
    Fixed(&'static str),
    /// The connective with this name.
    Connective(&'static str),
    /// The token with this number among the names.
    Name(u64),
    /// The token of an object variable.
    Object(u32),
    /// The token of a pattern variable.
    Meta(u32),
    /// A label.
    Label(Label),
}

/// Adds a token, in the block of the statement with the number `serial`, and white space.
pub fn push_word(to: &mut Vec<u8>, names: &Names, serial: u64, word: Word) -> Result<(), AllocError>
    ensures { OnOk result
        (to.new.items ≡ to.old.items ++ written (word_token names.now serial word ∷ [])) }
{
    let start = to.len();
    push_bare(to, names, serial, word)?;
    let white = white_after(&to[start..]);
    to.push(white)?;
    Ok(())
}

/// Adds a token and white space.
pub(crate) fn push_token(to: &mut Vec<u8>, token: &[u8]) -> Result<(), AllocError>
    ensures { OnOk result (to.new.items ≡ to.old.items ++ written (token.now ∷ [])) }
{
    to.extend_from_slice(token)?;
    to.push(white_after(token))?;
    Ok(())
}

/// The white space after a token: the end of the line after the end of a statement, and otherwise a
/// space.
fn white_after(token: &[u8]) -> u8
    ensures { result ≡ white_after token.now }
{
    match token {
        [b'$', b'{' | b'}' | b'.'] => b'\n',
        _ => b' ',
    }
}

/// Adds tokens, each with white space after it.
pub fn push_words(
    to: &mut Vec<u8>,
    names: &Names,
    serial: u64,
    words: &[Word],
) -> Result<(), AllocError>
    ensures { OnOk result
        (to.new.items ≡ to.old.items ++ written (map (word_token names.now serial) words.now)) }
{
    for word in words {
        push_word(to, names, serial, *word)?;
    }
    Ok(())
}

/// Adds a token without white space.
fn push_bare(to: &mut Vec<u8>, names: &Names, serial: u64, word: Word) -> Result<(), AllocError>
    ensures { OnOk result (to.new.items ≡ to.old.items ++ word_token names.now serial word) }
{
    match word {
        Word::Fixed(token) => to.extend_from_slice(token.as_bytes()),
        Word::Connective(name) => push_both(to, "\\", name),
        Word::Name(no) => push_name(to, names, no),
        Word::Object(x) => push_numbered(to, "x:", u64::from(x)),
        Word::Meta(i) => push_numbered(to, "m:", u64::from(i)),
        Word::Label(label) => push_label(to, serial, label),
    }
}

/// Adds the token of a label, in the block of the statement with the number `serial`.
pub(crate) fn push_label(to: &mut Vec<u8>, serial: u64, label: Label) -> Result<(), AllocError>
    ensures { OnOk result (to.new.items ≡ to.old.items ++ label_token serial label) }
{
    match label {
        Label::Row(token) => to.extend_from_slice(token.as_bytes()),
        Label::Form(prefix, name) => push_both(to, prefix, name),
        Label::Bound(prefix, name) => {
            push_both(to, prefix, name)?;
            to.push(b'b')?;
            Ok(())
        }
        Label::Declared(no) => push_numbered(to, "n.", no),
        Label::Object(x) => push_twice(to, "x.", serial, u64::from(x)),
        Label::Meta(i) => push_twice(to, "m.", serial, u64::from(i)),
        Label::Premise(j) => push_twice(to, "e.", serial, j),
        Label::Stated(k) => push_numbered(to, "t.", k),
    }
}

/// Adds two texts.
fn push_both(to: &mut Vec<u8>, front: &'static str, behind: &'static str) -> Result<(), AllocError>
    ensures { OnOk result (to.new.items ≡ to.old.items ++ (front.now ++ behind.now)) }
{
    to.extend_from_slice(front.as_bytes())?;
    to.extend_from_slice(behind.as_bytes())
}

/// Adds the token with this number, or nothing if there is none.
fn push_name(to: &mut Vec<u8>, names: &Names, no: u64) -> Result<(), AllocError>
    ensures { OnOk result (to.new.items ≡ to.old.items ++ name_of names.now no) }
{
    if let Some(token) = names.token(no) {
        to.extend_from_slice(token.as_bytes())?;
    }
    Ok(())
}

/// Adds a letter and its mark, and a number.
fn push_numbered(to: &mut Vec<u8>, front: &'static str, no: u64) -> Result<(), AllocError>
    ensures { OnOk result (to.new.items ≡ to.old.items ++ (front.now ++ decimal no)) }
{
    to.extend_from_slice(front.as_bytes())?;
    to.extend_from_slice(Buffer::new().format(no).as_bytes())
}

/// Adds a letter and its mark, and two numbers with a dot between them.
fn push_twice(
    to: &mut Vec<u8>,
    front: &'static str,
    first: u64,
    second: u64,
) -> Result<(), AllocError>
    ensures { OnOk result (to.new.items ≡ to.old.items ++ (front.now ++ two_numbers first second)) }
{
    push_numbered(to, front, first)?;
    push_numbered(to, ".", second)
}
