// Proofs that patterns are patterns, which were built before and are to be found again. A proof is
// kept with its pattern under the fingerprint of the pattern. No contract rests on fingerprints,
// since what is found by one is compared.
ghost use Rattle.std.specs.Prelude.{ℕ, List, IfSome};
ghost use Rattle.mm_text.specs.Bytes.{Token};
ghost use Rattle.proof_nodes.specs.Tables.{Table};
ghost use Rattle.mm_proof.specs.KnownTrees.{AreSyntax, IsKnown, IsSyntaxAt};

use ml_pat::{MForm, MPat};
use proof_nodes::NodeNo;
use std::alloc::AllocError;
use std::collections::BTreeMap;

/// A pattern, and the node of the proof that it is one.
#[derive(Drop)]
pub(crate) struct KnownSyntax {
    pattern: MPat,
    node: NodeNo,
}

/// The node of the proof that a pattern is one, if it is known.
pub(crate) fn known_node(known: &BTreeMap<u64, KnownSyntax>, pat: &MPat) -> Option<NodeNo>
    ensures { IfSome result (λ node. IsKnown known.now pat.now node.0) }
{
    let found = known.get(&pat.fingerprint())?;
    if found.pattern.same(pat) {
        Some(found.node)
    } else {
        None
    }
}

/// Keeps the node of the proof that a pattern is one, in place of what was kept for the same
/// fingerprint. `AllocError`: out of memory; then nothing changes.
pub(crate) fn keep_node(
    known: &mut BTreeMap<u64, KnownSyntax>,
    pat: &MPat,
    node: NodeNo,
) -> Result<(), AllocError>
    ensures { (serial : ℕ) (tokens : List Token) (nodes : Table) →
        AreSyntax serial tokens nodes known.old →
        IsSyntaxAt serial tokens nodes pat.now node.0 →
        AreSyntax serial tokens nodes known.new }
{
    let pattern = pat.share()?;
    let fingerprint = pat.fingerprint();
    known.insert(fingerprint, KnownSyntax { pattern, node })?;
    Ok(())
}

/// Whether a pattern is a leaf, or a form over leaves. The proof that it is one is so short that it
/// is not kept.
pub(crate) fn is_small(pat: &MPat) -> bool {
    match pat.form() {
        MForm::Bot | MForm::Top | MForm::Var(_) | MForm::Meta(_) | MForm::Const(_) => true,
        MForm::Imp(p, q)
        | MForm::And(p, q)
        | MForm::Or(p, q)
        | MForm::Equal(p, q)
        | MForm::Member(p, q)
        | MForm::App(p, q) => is_leaf(p) && is_leaf(q),
        MForm::Not(p)
        | MForm::Next(p)
        | MForm::Ev(p)
        | MForm::Fun(p, _)
        | MForm::At(p, _)
        | MForm::Ex(_, _, p)
        | MForm::All(_, _, p) => is_leaf(p),
    }
}

/// Whether a pattern has no parts.
fn is_leaf(pat: &MPat) -> bool {
    matches!(
        pat.form(),
        MForm::Bot | MForm::Top | MForm::Var(_) | MForm::Meta(_) | MForm::Const(_),
    )
}
