// The head of a block: its variables, which of them have to stay apart, and its hypotheses.
ghost use Rattle.std.specs.Prelude.{◌≡◌, [], ◌∷◌, ◌++◌, IfOk, OnOk, map};
ghost use Rattle.mm_claims.specs.Blocks.{head_statements, premise_statements};
ghost use Rattle.mm_claims.specs.Blocks.{separation_statements, separations, variable_statements};
ghost use Rattle.mm_render.specs.HeadText.{AddsWordsOf, AreWordsOf, IsWordOf, pattern_separations};
ghost use Rattle.mm_render.specs.HeadText.{separation};
ghost use Rattle.mm_claims.specs.Variables.{object_tokens, variable_label, variable_token};
ghost use Rattle.mm_render.specs.VariablesView.{plain_variables, variable_of};
ghost use Rattle.mm_proof.specs.Writing.{word_token};
ghost use Rattle.mm_database.specs.StatementTexts.{written_statements};

use crate::mandatory::label_of;
use crate::variables::Variable;
use ml_pat::{MPat, Names};
use mm_proof::{Label, TextPart, Word, push_text, push_word, push_words};
use std::alloc::{AllocError, Global};

/// Adds the head of the block with the number `serial`: its variables, which of them have to stay
/// apart, and its hypotheses.
pub(crate) fn push_head(
    to: &mut Vec<u8>,
    names: &Names,
    serial: u64,
    variables: &[Variable],
    hypotheses: &[MPat],
) -> Result<(), AllocError>
    ensures { OnOk result (to.new.items
        ≡ to.old.items
        ++ written_statements
        (head_statements names.now serial (plain_variables variables.now) hypotheses.now)) }
{
    push_variables(to, names, serial, variables)?;
    push_separations(to, names, serial, variables)?;
    push_premises(to, names, serial, hypotheses)
}

/// Adds the declarations of variables, each with its type.
fn push_variables(
    to: &mut Vec<u8>,
    names: &Names,
    serial: u64,
    variables: &[Variable],
) -> Result<(), AllocError>
    ensures { OnOk result (to.new.items
        ≡ to.old.items
        ++ written_statements (variable_statements serial (plain_variables variables.now))) }
{
    for variable in variables {
        push_variable(to, names, serial, *variable)?;
    }
    Ok(())
}

/// Adds the declaration of a variable, and its type.
fn push_variable(
    to: &mut Vec<u8>,
    names: &Names,
    serial: u64,
    variable: Variable,
) -> Result<(), AllocError>
    ensures { OnOk result (to.new.items
        ≡ to.old.items
        ++ written_statements (variable_statements serial (variable_of variable ∷ []))) }
{
    let token = token_word(variable);
    let typecode = match variable {
        Variable::Object(_) => "#Var",
        Variable::Pattern(_) => "#Pattern",
    };
    push_words(
        to,
        names,
        serial,
        &[
            Word::Fixed("$v"),
            token,
            Word::Fixed("$."),
            Word::Label(label_of(variable)),
            Word::Fixed("$f"),
            Word::Fixed(typecode),
            token,
            Word::Fixed("$."),
        ],
    )
}

/// The token of a variable.
fn token_word(variable: Variable) -> Word
    ensures { IsWordOf (λ k. variable_token (variable_of variable)) result }
{
    match variable {
        Variable::Object(x) => Word::Object(x.0),
        Variable::Pattern(i) => Word::Meta(i),
    }
}

/// Adds which variables have to stay apart: the object variables from each other, and each pattern
/// variable from the object variables.
fn push_separations(
    to: &mut Vec<u8>,
    names: &Names,
    serial: u64,
    variables: &[Variable],
) -> Result<(), AllocError>
    ensures { OnOk result (to.new.items
        ≡ to.old.items
        ++ written_statements
        (separation_statements (separations (plain_variables variables.now)))) }
{
    let mut words = object_words(*to.allocator(), variables)?;
    push_separation(to, names, serial, &words)?;
    push_pattern_separations(to, names, serial, &mut words, variables)
}

/// Adds for each pattern variable that it has to stay apart from some object variables, whose
/// tokens are `words`.
fn push_pattern_separations(
    to: &mut Vec<u8>,
    names: &Names,
    serial: u64,
    words: &mut Vec<Word>,
    variables: &[Variable],
) -> Result<(), AllocError>
    ensures { OnOk result (to.new.items
        ≡ to.old.items
        ++ written_statements (pattern_separations
        (map (word_token names.now serial) words.old.items)
        (plain_variables variables.now))) }
{
    for variable in variables {
        push_separations_of(to, names, serial, words, *variable)?;
    }
    Ok(())
}

/// Adds that a variable has to stay apart from the object variables with the tokens `words`, if it
/// is a pattern variable.
fn push_separations_of(
    to: &mut Vec<u8>,
    names: &Names,
    serial: u64,
    words: &mut Vec<Word>,
    variable: Variable,
) -> Result<(), AllocError>
    ensures text { OnOk result (to.new.items
        ≡ to.old.items
        ++ written_statements (pattern_separations
        (map (word_token names.now serial) words.old.items) (variable_of variable ∷ []))) }
    ensures words { OnOk result (words.new.items ≡ words.old.items) }
{
    if let Variable::Pattern(i) = variable {
        words.push(Word::Meta(i))?;
        push_separation(to, names, serial, words)?;
        words.pop();
    }
    Ok(())
}

/// The tokens of the object variables among some.
fn object_words(alloc: Global, variables: &[Variable]) -> Result<Vec<Word>, AllocError>
    ensures { IfOk result
        (λ words. AreWordsOf (object_tokens (plain_variables variables.now)) words.items) }
{
    let mut words = Vec::new(alloc);
    for variable in variables {
        push_object(&mut words, *variable)?;
    }
    Ok(words)
}

/// Adds the token of a variable, if it is an object variable.
fn push_object(words: &mut Vec<Word>, variable: Variable) -> Result<(), AllocError>
    ensures { OnOk result
        (AddsWordsOf (object_tokens (variable_of variable ∷ [])) words.old.items words.new.items) }
{
    if let Variable::Object(x) = variable {
        words.push(Word::Object(x.0))?;
    }
    Ok(())
}

/// Adds that variables have to stay apart, if there are at least two.
fn push_separation(
    to: &mut Vec<u8>,
    names: &Names,
    serial: u64,
    words: &[Word],
) -> Result<(), AllocError>
    ensures { OnOk result (to.new.items
        ≡ to.old.items
        ++ written_statements (separation (map (word_token names.now serial) words.now))) }
{
    if words.len() < 2 {
        return Ok(());
    }
    push_word(to, names, serial, Word::Fixed("$d"))?;
    push_words(to, names, serial, words)?;
    push_word(to, names, serial, Word::Fixed("$."))
}

/// Adds hypotheses.
fn push_premises(
    to: &mut Vec<u8>,
    names: &Names,
    serial: u64,
    hypotheses: &[MPat],
) -> Result<(), AllocError>
    ensures { OnOk result (to.new.items
        ≡ to.old.items
        ++ written_statements (premise_statements names.now serial 0 hypotheses.now)) }
{
    for (no, hypothesis) in hypotheses.iter().enumerate() {
        push_premise(to, names, serial, no as u64, hypothesis)?;
    }
    Ok(())
}

/// Adds the hypothesis with the number `no`.
fn push_premise(
    to: &mut Vec<u8>,
    names: &Names,
    serial: u64,
    no: u64,
    hypothesis: &MPat,
) -> Result<(), AllocError>
    ensures { OnOk result (to.new.items
        ≡ to.old.items
        ++ written_statements (premise_statements names.now serial no (hypothesis.now ∷ []))) }
{
    push_text(
        to,
        names,
        serial,
        &[
            TextPart::One(Word::Label(Label::Premise(no))),
            TextPart::One(Word::Fixed("$e")),
            TextPart::One(Word::Fixed("|-")),
            TextPart::Pattern(hypothesis),
            TextPart::One(Word::Fixed("$.")),
        ],
    )
}
