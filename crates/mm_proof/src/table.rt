// The proof that is being built, as a table of its distinct nodes.
ghost use Rattle.std.specs.Prelude.{◌≡◌, [], ◌∷◌, ◌++◌, IfOk, OnOk, length, map, slice_get, Some};
ghost use Rattle.std.specs.Prelude.{MatchBool, OnErr};
ghost use Rattle.mm_text.specs.Written.{written};
ghost use Rattle.proof_nodes.specs.Compression.{proof_text};
ghost use Rattle.proof_nodes.specs.Tables.{with_cited};
ghost use Rattle.mm_proof.specs.KnownTrees.{EndsWithSyntax};
ghost use Rattle.mm_proof.specs.Labels.{own_labels};
ghost use Rattle.mm_proof.specs.Listings.{Builds, HasOneTree, WritesProof, empty_listing, token_at};
ghost use Rattle.mm_proof.specs.Listings.{trees_of};
ghost use Rattle.mm_proof.specs.TableView.{AreNumbersOf, HasGrown, tokens_of};
ghost use Rattle.mm_proof.specs.Trees.{syntax_tree};
ghost use Rattle.mm_proof.specs.Writing.{label_token};

use crate::known::{KnownSyntax, keep_node, known_node};
use crate::words::{Label, push_label, push_token};
use indexmap::IndexSet;
use ml_pat::MPat;
use proof_nodes::{CompressedProof, ProofNodes};
use std::alloc::{AllocError, Global};
use std::collections::BTreeMap;
use std::marker::Model;

/// A proof that is being built in the block of a statement: trees on a stack, the last one on top.
/// A tree that occurs many times is held once. Patterns whose proofs were built are held too, so
/// that they are not taken apart again. Contracts see the number of the statement, the tokens of the
/// labels and the nodes.
#[derive(Drop)]
pub struct ProofTable {
    serial: u64,
    // The tokens of the labels. The number of a label is the index of its token.
    tokens: IndexSet<Vec<u8>>,
    nodes: ProofNodes,
    // The token of the label that is looked up.
    sought: Vec<u8>,
    // Proofs that patterns are patterns, by the fingerprints of these.
    known: BTreeMap<u64, KnownSyntax>,
}

impl Model for ProofTable {
    ghost use Rattle.mm_proof.specs.Listings.{Listing};

    ghost Value = { Listing };

    ghost use Rattle.mm_proof.specs.TableView.{listing_of, IsTable};

    ghost view = { listing_of };

    ghost invariant = { IsTable };
}

impl ProofTable {
    /// No tree, in the block of the statement 0. It allocates no memory yet.
    pub fn new(alloc: Global) -> Self
        ensures { result ≡ empty_listing 0 }
    {
        ProofTable {
            serial: 0,
            tokens: IndexSet::new(alloc),
            nodes: ProofNodes::new(alloc),
            sought: Vec::new(alloc),
            known: BTreeMap::new(alloc),
        }
    }

    /// Drops all trees, for a proof in the block of another statement. Memory is kept for it.
    pub fn start(&mut self, serial: u64)
        ensures { self.new ≡ empty_listing serial }
    {
        self.serial = serial;
        self.tokens.clear();
        self.nodes.clear();
        self.known.clear();
    }

    /// What the table takes its memory from.
    pub fn allocator(&self) -> Global {
        *self.sought.allocator()
    }

    /// Puts a label over the last `takes` trees. If there are fewer, it takes all. `AllocError`:
    /// out of memory; then trees may be gone. It costs a look-up for the label and for each tree.
    pub fn cite(&mut self, label: Label, takes: usize) -> Result<(), AllocError>
        ensures serial { OnOk result (self.new.serial ≡ self.old.serial) }
        ensures trees { OnOk result (trees_of self.new
            ≡ with_cited (label_token self.old.serial label) takes (trees_of self.old)) }
    {
        let number = label_number(&mut self.tokens, &mut self.sought, self.serial, label)?;
        let takes = takes.min(self.nodes.depth());
        self.nodes.cite(number, takes)
    }

    /// Pushes the proof that a pattern is one again, if it is kept. The result says whether it is; if
    /// not, nothing changes. `AllocError`: out of memory, and nothing changes.
    pub(crate) fn repeat_syntax(&mut self, pat: &MPat) -> Result<bool, AllocError>
        ensures repeated { IfOk result (λ found. MatchBool found
            (Builds (λ k. syntax_tree (own_labels k) pat.now ∷ []) self.old self.new)
            (self.new ≡ self.old)) }
        ensures err { OnErr result (self.new ≡ self.old) }
    {
        let Some(node) = known_node(&self.known, pat) else {
            return Ok(false);
        };
        self.nodes.repeat(node)?;
        Ok(true)
    }

    /// Keeps the last tree, which is the proof that a pattern is one, to be found again for the
    /// pattern. `AllocError`: out of memory.
    pub(crate) fn keep_syntax(&mut self, pat: &MPat) -> Result<(), AllocError>
        requires { EndsWithSyntax self.old.serial pat.now (trees_of self.old) }
        ensures { self.new ≡ self.old }
    {
        let node = self.nodes.last().unwrap();
        keep_node(&mut self.known, pat, node)
    }

    /// Writes the only tree as a compressed proof, in a statement with these mandatory labels: its
    /// tokens, each with white space after it. `AllocError`: out of memory. It takes time linear in
    /// the number of distinct nodes.
    pub fn push_proof(&mut self, to: &mut Vec<u8>, mandatory: &[Label]) -> Result<(), AllocError>
        requires { HasOneTree self.old }
        ensures { OnOk result (WritesProof self.old mandatory.now to.old.items to.new.items) }
    {
        let tokens = &mut self.tokens;
        let numbers = label_numbers(tokens, &mut self.sought, self.serial, mandatory)?;
        let proof = self.nodes.compress(&numbers)?;
        push_compressed(to, self.tokens.as_slice(), &proof)
    }
}

/// The numbers of labels, in the block of the statement with the number `serial`.
fn label_numbers(
    tokens: &mut IndexSet<Vec<u8>>,
    sought: &mut Vec<u8>,
    serial: u64,
    labels: &[Label],
) -> Result<Vec<usize>, AllocError>
    ensures grown { HasGrown (tokens_of tokens.old.keys) (tokens_of tokens.new.keys) }
    ensures numbers { IfOk result (λ ns. AreNumbersOf (tokens_of tokens.new.keys)
        (map (label_token serial) labels.now) ns.items) }
{
    let mut numbers = Vec::with_capacity(*sought.allocator(), labels.len())?;
    for label in labels {
        numbers.push(label_number(tokens, sought, serial, *label)?)?;
    }
    Ok(numbers)
}

/// The number of a label, in the block of the statement with the number `serial`.
fn label_number(
    tokens: &mut IndexSet<Vec<u8>>,
    sought: &mut Vec<u8>,
    serial: u64,
    label: Label,
) -> Result<usize, AllocError>
    ensures grown { HasGrown (tokens_of tokens.old.keys) (tokens_of tokens.new.keys) }
    ensures number { IfOk result (λ no.
        slice_get (tokens_of tokens.new.keys) no ≡ Some (label_token serial label)) }
{
    sought.clear();
    push_label(sought, serial, label)?;
    token_number(tokens, sought)
}

/// The number of a token. A new token gets the next number.
fn token_number(tokens: &mut IndexSet<Vec<u8>>, token: &[u8]) -> Result<usize, AllocError>
    ensures grown { HasGrown (tokens_of tokens.old.keys) (tokens_of tokens.new.keys) }
    ensures number { IfOk result (λ no. slice_get (tokens_of tokens.new.keys) no ≡ Some token.now) }
{
    if let Some((number, _)) = tokens.get_full(token) {
        return Ok(number);
    }
    let mut held = Vec::with_capacity(*tokens.allocator(), token.len())?;
    held.extend_from_slice(token)?;
    let (number, _) = tokens.insert_full(held)?;
    Ok(number)
}

/// Writes a compressed proof, each token with white space after it.
fn push_compressed(
    to: &mut Vec<u8>,
    tokens: &[Vec<u8>],
    proof: &CompressedProof,
) -> Result<(), AllocError>
    ensures { OnOk result (to.new.items ≡ to.old.items ++ written
        (proof_text (token_at (tokens_of tokens.now)) proof.now.listed.items
        proof.now.letters.items)) }
{
    push_token(to, b"(")?;
    for number in proof.listed.as_slice() {
        push_numbered_token(to, tokens, *number)?;
    }
    push_token(to, b")")?;
    push_token(to, &proof.letters)
}

/// Writes the token with this number, or an empty one if there is none.
fn push_numbered_token(
    to: &mut Vec<u8>,
    tokens: &[Vec<u8>],
    number: usize,
) -> Result<(), AllocError>
    ensures { OnOk result (to.new.items
        ≡ to.old.items ++ written (token_at (tokens_of tokens.now) number ∷ [])) }
{
    match tokens.get(number) {
        Some(token) => push_token(to, token),
        None => push_token(to, b""),
    }
}
