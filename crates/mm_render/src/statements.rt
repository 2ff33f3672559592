// Whole statements, each in a block of its own if it has variables or hypotheses.
ghost use Rattle.std.specs.Prelude.{◌≡◌, [], ◌∷◌, ◌++◌, OnOk};
ghost use Rattle.mm_claims.specs.Blocks.{axiom_statements};
ghost use Rattle.mm_render.specs.ClaimView.{plain_claim};
ghost use Rattle.mm_render.specs.PlaceTable.{found_at, premises_at};
ghost use Rattle.mm_render.specs.ProvedText.{WritesTheorem};
ghost use Rattle.mm_claims.specs.Statements.{axiom_statement};
ghost use Rattle.mm_render.specs.TheoremText.{statement_front, theorem_front};
ghost use Rattle.mm_render.specs.VariablesView.{plain_variables};
ghost use Rattle.mm_database.specs.StatementTexts.{written_statements};

use crate::claims::{Claim, needs_block};
use crate::derivations::write_derivation;
use crate::heads::push_head;
use crate::needed::needed_variables;
use crate::places::StatementContext;
use crate::variables::Variable;
use ml_kernel::Deriv;
use ml_pat::{MPat, Names};
use mm_proof::{Label, ProofTable, TextPart, Word, push_text, push_word, push_words};
use std::alloc::AllocError;

/// Adds a claim as an axiom, under the label with this number.
pub(crate) fn push_axiom(
    to: &mut Vec<u8>,
    names: &Names,
    serial: u64,
    claim: &Claim,
) -> Result<(), AllocError>
    ensures { OnOk result (to.new.items
        ≡ to.old.items
        ++ written_statements (axiom_statements names.now serial (plain_claim claim.now))) }
{
    if !needs_block(&claim.variables, &claim.hypotheses) {
        return push_plain_axiom(to, names, serial, &claim.conclusion);
    }
    push_word(to, names, serial, Word::Fixed("${"))?;
    push_head(to, names, serial, &claim.variables, &claim.hypotheses)?;
    push_plain_axiom(to, names, serial, &claim.conclusion)?;
    push_word(to, names, serial, Word::Fixed("$}"))
}

/// Adds the `$a` of a pattern.
fn push_plain_axiom(
    to: &mut Vec<u8>,
    names: &Names,
    serial: u64,
    pattern: &MPat,
) -> Result<(), AllocError>
    ensures { OnOk result (to.new.items
        ≡ to.old.items ++ written_statements (axiom_statement names.now serial pattern.now ∷ [])) }
{
    push_text(
        to,
        names,
        serial,
        &[
            TextPart::One(Word::Label(Label::Stated(serial))),
            TextPart::One(Word::Fixed("$a")),
            TextPart::One(Word::Fixed("|-")),
            TextPart::Pattern(pattern),
            TextPart::One(Word::Fixed("$.")),
        ],
    )
}

/// Adds a claim as the theorem of the statement `at`, with its proof by a derivation.
pub(crate) fn push_theorem(
    to: &mut Vec<u8>,
    table: &mut ProofTable,
    at: &StatementContext<'_>,
    claim: &Claim,
    derivation: &Deriv,
) -> Result<(), AllocError>
    ensures { OnOk result
        (WritesTheorem at.now.names.now at.now.serial (found_at at.now) (premises_at at.now)
        (plain_claim claim.now) derivation.now to.old.items to.new.items) }
{
    let variables = needed_variables(*to.allocator(), at, &claim.variables, derivation)?;
    if !needs_block(&variables, &claim.hypotheses) {
        push_statement_front(to, at.names, at.serial, &claim.conclusion)?;
        write_derivation(to, table, at, claim, derivation)?;
        return push_word(to, at.names, at.serial, Word::Fixed("$."));
    }
    push_theorem_front(to, at.names, at.serial, &variables, claim)?;
    write_derivation(to, table, at, claim, derivation)?;
    push_words(
        to,
        at.names,
        at.serial,
        &[Word::Fixed("$."), Word::Fixed("$}")],
    )
}

/// Adds the front of a theorem's block, up to its proof: its head, its label and its conclusion.
fn push_theorem_front(
    to: &mut Vec<u8>,
    names: &Names,
    serial: u64,
    variables: &[Variable],
    claim: &Claim,
) -> Result<(), AllocError>
    ensures { OnOk result (to.new.items
        ≡ to.old.items
        ++ theorem_front names.now serial (plain_variables variables.now)
        claim.now.hypotheses.items claim.now.conclusion) }
{
    push_word(to, names, serial, Word::Fixed("${"))?;
    push_head(to, names, serial, variables, &claim.hypotheses)?;
    push_statement_front(to, names, serial, &claim.conclusion)
}

/// Adds a theorem up to its proof: its label and its conclusion.
fn push_statement_front(
    to: &mut Vec<u8>,
    names: &Names,
    serial: u64,
    conclusion: &MPat,
) -> Result<(), AllocError>
    ensures { OnOk result
        (to.new.items ≡ to.old.items ++ statement_front names.now serial conclusion.now) }
{
    push_text(
        to,
        names,
        serial,
        &[
            TextPart::One(Word::Label(Label::Stated(serial))),
            TextPart::One(Word::Fixed("$p")),
            TextPart::One(Word::Fixed("|-")),
            TextPart::Pattern(conclusion),
            TextPart::One(Word::Fixed("$=")),
        ],
    )
}
