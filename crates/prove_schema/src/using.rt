// Schemas used at patterns.
ghost use Rattle.std.specs.Prelude.{◌≡◌, ◌<◌, ℕ, List, Some, IfOk, length, slice_get};
ghost use Rattle.ml_pat.specs.Patterns.{Pattern, fun, meta};
ghost use Rattle.prove_schema.specs.Using.{AreFacts, IsProved, IsUsable, IsUsed, StaysUsed};
ghost use Rattle.prove_schema.specs.Giving.{AreGiven, CanProve, HasNegation, IsGiven, IsNegationOf};

use ml_derived::use_lemma;
use ml_kernel::{Lemma, Thm};
use ml_pat::{MForm, MPat};
use std::alloc::{AllocError, Global};

/// Proves what a schema concludes when patterns replace its pattern variables. `facts` says of each
/// pattern in turn that it is one element of its variable's sort. `others` proves the other
/// hypotheses at these patterns. Its theorems say in turn that one of the first patterns is a
/// member of a pattern. If there is a negation, a theorem after these says it. If there is a
/// condition, the last theorem says it. `AllocError`: out of memory.
pub fn schema_at(
    alloc: Global,
    lemma: &Lemma,
    facts: &[Thm],
    others: &[Thm],
) -> Result<Thm, AllocError>
    requires { (qs : List Pattern) × (ns : List ℕ) × IsUsable qs ns lemma.now facts.now others.now }
    ensures says { IfOk result (IsUsed lemma.now facts.now others.now) }
    ensures stays { IfOk result (StaysUsed lemma.now facts.now others.now) }
{
    let patterns = subjects(alloc, facts)?;
    let proofs = proofs(alloc, lemma.hypotheses(), facts, others)?;
    use_lemma(alloc, lemma, &patterns, &proofs)
}

// Returns the patterns that the facts say to be one element of a sort.
fn subjects(alloc: Global, facts: &[Thm]) -> Result<Vec<MPat>, AllocError>
    requires { (qs : List Pattern) × (ns : List ℕ) × AreFacts qs ns facts.now }
    ensures { IfOk result
        (λ v. (qs : List Pattern) (ns : List ℕ) → AreFacts qs ns facts.now → v.items ≡ qs) }
{
    let mut patterns = Vec::with_capacity(alloc, facts.len())?;
    for fact in facts {
        patterns.push(subject(fact.conclusion()).share()?)?;
    }
    Ok(patterns)
}

// Returns the pattern that a fact says to be one element of a sort.
fn subject(fact: &MPat) -> &MPat
    requires { (p : Pattern) × (n : ℕ) × (fact.now ≡ fun p n) }
    ensures { (n : ℕ) × (fact.now ≡ fun result.now n) }
{
    match fact.form() {
        MForm::Fun(element, _) => element,
        _ => unreachable!(),
    }
}

// Returns the proofs of the hypotheses.
fn proofs(
    alloc: Global,
    hypotheses: &[MPat],
    facts: &[Thm],
    others: &[Thm],
) -> Result<Vec<Thm>, AllocError>
    requires { CanProve hypotheses.now facts.now others.now }
    ensures { IfOk result (λ v. AreGiven hypotheses.now facts.now others.now v.items) }
{
    let mut proofs = Vec::with_capacity(alloc, hypotheses.len())?;
    for hypothesis in hypotheses {
        proofs.push(proof(hypothesis, facts, others).share(alloc)?)?;
    }
    Ok(proofs)
}

// Returns the proof of a hypothesis.
fn proof<'a>(hypothesis: &MPat, facts: &'a [Thm], others: &'a [Thm]) -> &'a Thm
    requires { (qs : List Pattern) × (ns : List ℕ) × AreFacts qs ns facts.now
        × IsProved qs ns others.now hypothesis.now }
    ensures { IsGiven facts.now others.now hypothesis.now result.now }
{
    match hypothesis.form() {
        MForm::Fun(element, _) => nth(facts, number(element)),
        MForm::Member(element, _) => nth(others, number(element)),
        MForm::Equal(..) => nth(others, others.len() - 1),
        MForm::Not(_) => negation(others),
        _ => unreachable!(),
    }
}

// Returns the last theorem, or the one before it if the last is no negation.
fn negation(theorems: &[Thm]) -> &Thm
    requires { HasNegation theorems.now }
    ensures { IsNegationOf theorems.now result.now }
{
    let last = nth(theorems, theorems.len() - 1);
    match last.conclusion().form() {
        MForm::Not(_) => last,
        _ => nth(theorems, theorems.len() - 2),
    }
}

// Returns the theorem at a place.
fn nth<'a>(theorems: &'a [Thm], place: usize) -> &'a Thm
    requires { place < length theorems.now }
    ensures { slice_get theorems.now place ≡ Some result.now }
{
    &theorems[place]
}

// Returns the number of a pattern variable.
fn number(p: &MPat) -> usize
    requires { (x : ℕ) × (p.now ≡ meta x) }
    ensures { p.now ≡ meta result }
{
    match p.form() {
        MForm::Meta(x) => *x as usize,
        _ => unreachable!(),
    }
}
