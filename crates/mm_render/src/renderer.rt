// What is written: whole statements, after a text that fits.
ghost use Rattle.std.specs.Prelude.{◌≡◌, ◌+◌, ◌<◌, ◌≤◌, [], ◌∷◌, ◌++◌, false, IsTrue, IfOk, OnErr};
ghost use Rattle.std.specs.Prelude.{OnOk, drop};
ghost use Rattle.std.specs.Prelude.{length, option_copied, take, unwrap_or};
ghost use Rattle.mm_header.specs.HeaderText.{header_bytes};
ghost use Rattle.mm_claims.specs.Blocks.{axiom_statements, open_assertion};
ghost use Rattle.mm_claims.specs.ClaimVariables.{claim_of, claim_variables};
ghost use Rattle.mm_render.specs.ClaimView.{plain_claim};
ghost use Rattle.mm_claims.specs.Fitting.{AreNames};
ghost use Rattle.mm_claims.specs.Keeping.{AppendsFitting, AppendsFittingNames, Gains, MayState};
ghost use Rattle.mm_claims.specs.Keeping.{axiom_at, with_last};
ghost use Rattle.mm_claims.specs.Keeping.{with_stated};
ghost use Rattle.mm_claims.specs.Rendered.{header_rendered, nothing_rendered};
ghost use Rattle.mm_claims.specs.Places.{StatesLemma};
ghost use Rattle.mm_render.specs.ProvedText.{WritesProof};
ghost use Rattle.mm_proof.specs.Tokens.{name_of};
ghost use Rattle.mm_claims.specs.Statements.{all_name_statements, name_statements, typecode_of};
ghost use Rattle.mm_database.specs.StatementTexts.{written_statements};

use crate::claims::{Claim, Stated, claim_of};
use crate::places::{StatementContext, premise_places, statement_key};
use crate::statements::{push_axiom, push_theorem};
use ml_kernel::{AxiomNo, Theory, Thm};
use ml_pat::Names;
use mm_header::header_text;
use mm_proof::{Label, ProofTable, Word, push_words};
use std::alloc::{AllocError, Global};
use std::collections::BTreeMap;
use std::marker::Model;

/// What was written of a proof file. Contracts see it as what it keeps. The numbers of statements
/// have 64 bits. After 2^64 - 1 statements, another one returns the error for out of memory.
pub struct Renderer {
    begun: bool,
    named: u64,
    // How many claims were stated.
    written: u64,
    // The claims that may always be cited, and the place of each under its bytes.
    stated: Vec<Stated>,
    places: BTreeMap<Vec<u8>, u64>,
    // The last claim of a run.
    run: Option<Stated>,
    // The nodes of the proof that is written. Each proof empties the table but keeps its capacity.
    // So a proof that is no longer than those before it allocates nothing for its nodes.
    table: ProofTable,
}

impl Model for Renderer {
    ghost use Rattle.mm_claims.specs.Rendered.{Rendered};
    ghost use Rattle.mm_render.specs.KeptCode.{kept_code};

    ghost Value = { Rendered };

    ghost coded = { kept_code };

    ghost use Rattle.mm_render.specs.KeptView.{kept_of, FindsKept};

    ghost view = { kept_of };

    ghost invariant = { FindsKept };
}

// A renderer is dropped by one call, and not field by field at each end of each call that owns one.
impl Drop for Renderer {
    fn drop(self) {
        let Renderer {
            begun: _,
            named: _,
            written: _,
            stated: _,
            places: _,
            run: _,
            table: _,
        } = self;
    }
}

impl Renderer {
    /// A renderer that has written nothing.
    pub fn new(alloc: Global) -> Renderer
        ensures { result ≡ nothing_rendered }
    {
        Renderer {
            begun: false,
            named: 0,
            written: 0,
            stated: Vec::new(alloc),
            places: BTreeMap::new(alloc),
            run: None,
            table: ProofTable::new(alloc),
        }
    }

    /// Adds the header. The error: out of memory; then nothing changes.
    pub fn begin(&mut self, to: &mut Vec<u8>) -> Result<(), AllocError>
        requires { self.old ≡ nothing_rendered }
        ensures text { OnOk result (to.new.items ≡ to.old.items ++ header_bytes) }
        ensures kept { OnOk result (self.new ≡ header_rendered) }
        ensures fits { OnOk result (AppendsFitting self.old self.new header_bytes) }
        ensures unchanged { OnErr result (to.new.items ≡ to.old.items) }
        ensures as_before { OnErr result (self.new ≡ self.old) }
    {
        header_text(to)?;
        self.begun = true;
        Ok(())
    }

    /// How many of the names were declared.
    pub fn declared(&self) -> u64
        ensures { result ≡ self.now.named }
    {
        self.named
    }

    /// Declares each name that is not declared yet: as a constant, and with its type by an axiom.
    /// The error: out of memory; then nothing changes.
    pub fn declare(&mut self, names: &Names, to: &mut Vec<u8>) -> Result<(), AllocError>
        requires { self.old.named ≤ length names.now }
        ensures text { OnOk result (to.new.items
            ≡ to.old.items
            ++ written_statements
            (all_name_statements self.old.named (drop self.old.named names.now))) }
        ensures kept { OnOk result (self.new ≡ record self.old { named = length names.now }) }
        ensures fits { OnOk result (AreNames names.now → IsTrue self.old.begun →
            AppendsFittingNames names.now self.old self.new
            (written_statements
            (all_name_statements self.old.named (drop self.old.named names.now)))) }
        ensures unchanged { OnErr result (to.new.items ≡ to.old.items) }
        ensures as_before { OnErr result (self.new ≡ self.old) }
    {
        names.tokens_differ();
        let mut text = Vec::new(*to.allocator());
        push_names(&mut text, names, self.named)?;
        to.extend_from_slice(&text)?;
        self.named = names.count();
        Ok(())
    }

    /// States an axiom of a theory under the next label, in a block with its variables if it has
    /// any. If the axiom is over the declared names, each text that fits still fits with it
    /// appended, and has gained exactly this axiom. The error: out of memory; then nothing changes.
    pub fn axiom(
        &mut self,
        names: &Names,
        theory: &Theory,
        no: AxiomNo,
        to: &mut Vec<u8>,
    ) -> Result<(), AllocError>
        requires { no.0 < length theory.now }
        ensures text { OnOk result (to.new.items ≡ to.old.items ++ written_statements
            (axiom_statements names.now self.old.count (claim_of [] (axiom_at theory.now no.0)))) }
        ensures kept { OnOk result
            (self.new ≡ with_stated self.old (claim_of [] (axiom_at theory.now no.0))) }
        ensures gains { OnOk result (MayState names.now self.old (axiom_at theory.now no.0) →
            Gains names.now self.old self.new
            (written_statements (axiom_statements names.now self.old.count
            (claim_of [] (axiom_at theory.now no.0))))
            (claim_variables [] (axiom_at theory.now no.0))
            (open_assertion false (take self.old.named names.now) self.old.count
            (claim_of [] (axiom_at theory.now no.0)))) }
        ensures unchanged { OnErr result (to.new.items ≡ to.old.items) }
        ensures as_before { OnErr result (self.new ≡ self.old) }
    {
        let alloc = *to.allocator();
        let claim = claim_of(alloc, &[], theory.at(no))?;
        let mut text = Vec::new(alloc);
        push_axiom(&mut text, names, self.written, &claim)?;
        self.keep(claim, &text, to)
    }

    /// States a theorem under the next label, with its proof. It is in a block with its hypotheses
    /// and with the variables that occur in it or in its proof, if there are any. If the theorem is
    /// over the declared names, and its proof uses only these and cites only what is kept, each
    /// text that fits still fits with it appended, and has gained exactly this theorem. The theorem
    /// is kept. The error: out of memory; then nothing changes.
    pub fn lemma(&mut self, names: &Names, lemma: &Thm, to: &mut Vec<u8>) -> Result<(), AllocError>
        ensures states { OnOk result
            (StatesLemma names.now self.old self.new lemma.now to.old.items to.new.items) }
        ensures kept { OnOk result
            (self.new ≡ with_stated self.old (claim_of lemma.now.hypotheses lemma.now.conclusion)) }
        ensures unchanged { OnErr result (to.new.items ≡ to.old.items) }
        ensures as_before { OnErr result (self.new ≡ self.old) }
    {
        let mut text = Vec::new(*to.allocator());
        let claim = self.write_proof(names, lemma, &mut text)?;
        self.keep(claim, &text, to)
    }

    /// States a theorem of a run in the same way. It replaces the theorem of a run that was stated
    /// before it, which can no longer be cited.
    pub fn theorem(
        &mut self,
        names: &Names,
        theorem: &Thm,
        to: &mut Vec<u8>,
    ) -> Result<(), AllocError>
        ensures states { OnOk result
            (StatesLemma names.now self.old self.new theorem.now to.old.items to.new.items) }
        ensures kept { OnOk result
            (self.new
            ≡ with_last self.old (claim_of theorem.now.hypotheses theorem.now.conclusion)) }
        ensures unchanged { OnErr result (to.new.items ≡ to.old.items) }
        ensures as_before { OnErr result (self.new ≡ self.old) }
    {
        let mut text = Vec::new(*to.allocator());
        let claim = self.write_proof(names, theorem, &mut text)?;
        self.keep_last(claim, &text, to)
    }

    // The number of the next statement.
    fn serial(&self) -> u64
        ensures { result ≡ self.now.count }
    {
        self.written
    }

    // Adds a theorem with its proof to a text, and returns its claim.
    fn write_proof(
        &mut self,
        names: &Names,
        theorem: &Thm,
        to: &mut Vec<u8>,
    ) -> Result<Claim, AllocError>
        ensures claim { IfOk result (λ claim. plain_claim claim ≡ claim_of theorem.now.hypotheses
            theorem.now.conclusion) }
        ensures text { OnOk result
            (WritesProof names.now self.old theorem.now to.old.items to.new.items) }
        ensures as_before { self.new ≡ self.old }
    {
        let alloc = *to.allocator();
        // Its contract says that the theorem's derivation concludes what the theorem does.
        let hypotheses = theorem.hypotheses();
        let claim = claim_of(alloc, hypotheses, theorem.conclusion())?;
        let premises = premise_places(alloc, hypotheses)?;
        let serial = self.serial();
        let at = StatementContext {
            names,
            serial,
            stated: &self.stated,
            places: &self.places,
            last: &self.run,
            premises: &premises,
        };
        push_theorem(to, &mut self.table, &at, &claim, theorem.derivation())?;
        Ok(claim)
    }

    // Adds the text of a statement, and keeps what was stated. If there is an error, nothing
    // changes.
    fn keep(&mut self, claim: Claim, text: &[u8], to: &mut Vec<u8>) -> Result<(), AllocError>
        ensures text { OnOk result (to.new.items ≡ to.old.items ++ text.now) }
        ensures kept { OnOk result (self.new ≡ with_stated self.old (plain_claim claim)) }
        ensures unchanged { OnErr result (to.new.items ≡ to.old.items) }
        ensures as_before { OnErr result (self.new ≡ self.old) }
    {
        let number = self.written;
        let written = next_number(number)?;
        let key = statement_key(*to.allocator(), &claim.hypotheses, &claim.conclusion)?;
        self.stated.reserve(1)?;
        to.reserve(text.len())?;
        let place = self.stated.len() as u64;
        self.places.insert(key, place)?;
        to.extend_from_slice(text).unwrap();
        self.stated.push(Stated { number, claim }).unwrap();
        self.written = written;
        Ok(())
    }

    // Adds the text of a statement, and keeps what was stated as the last of a run. If there is an
    // error, nothing changes.
    fn keep_last(&mut self, claim: Claim, text: &[u8], to: &mut Vec<u8>) -> Result<(), AllocError>
        ensures text { OnOk result (to.new.items ≡ to.old.items ++ text.now) }
        ensures kept { OnOk result (self.new ≡ with_last self.old (plain_claim claim)) }
        ensures unchanged { OnErr result (to.new.items ≡ to.old.items) }
        ensures as_before { OnErr result (self.new ≡ self.old) }
    {
        let number = self.written;
        let written = next_number(number)?;
        to.extend_from_slice(text)?;
        self.run = Some(Stated { number, claim });
        self.written = written;
        Ok(())
    }
}

// The number after this one. The error: it does not fit in 64 bits.
fn next_number(number: u64) -> Result<u64, AllocError>
    ensures { IfOk result (λ next. next ≡ number + 1) }
{
    number.checked_add(1).ok_or(AllocError)
}

/// Adds the declarations of the names from a number on.
fn push_names(to: &mut Vec<u8>, names: &Names, first: u64) -> Result<(), AllocError>
    requires { first ≤ length names.now }
    ensures { OnOk result (to.new.items
        ≡ to.old.items ++ written_statements (all_name_statements first (drop first names.now))) }
{
    for no in first..names.count() {
        push_declaration(to, names, no)?;
    }
    Ok(())
}

/// Adds the declaration of the name with this number.
fn push_declaration(to: &mut Vec<u8>, names: &Names, no: u64) -> Result<(), AllocError>
    ensures { OnOk result (to.new.items
        ≡ to.old.items ++ written_statements (name_statements no (name_of names.now no))) }
{
    let typecode = typecode_of(names.token(no));
    push_words(
        to,
        names,
        0,
        &[
            Word::Fixed("$c"),
            Word::Name(no),
            Word::Fixed("$."),
            Word::Label(Label::Declared(no)),
            Word::Fixed("$a"),
            Word::Fixed(typecode),
            Word::Name(no),
            Word::Fixed("$."),
        ],
    )
}

/// The typecode that a name is declared with: that of a sort if it begins with `s`, and otherwise
/// that of a pattern.
fn typecode_of(token: Option<&str>) -> &'static str
    ensures { result.now ≡ typecode_of (unwrap_or (option_copied token.entry) []) }
{
    match token.map(str::as_bytes) {
        Some([b's', ..]) => "#Sort",
        _ => "#Pattern",
    }
}
