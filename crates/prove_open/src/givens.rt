// What is given of variables.
ghost use Rattle.std.specs.Prelude.{◌≡◌, ◌<◌, [], ◌∷◌, ℕ, List, All, Contains, IfOk, Some, None, length, replicate};
ghost use Rattle.ml_pat.specs.Patterns.{top};
ghost use Rattle.term_core.specs.RulePatterns.{sort_numbers};
ghost use Rattle.rule_core.specs.Sorting.{AreSorts};
ghost use Rattle.ml_image.specs.Sentences.{sentence_image};
ghost use Rattle.prove_term.specs.Contexts.{Context, HasGrown};
ghost use Rattle.ml_derived.specs.Scopes.{StaysWithin};
ghost use Rattle.prove_open.specs.Givens.{IsGiven, HasFact, all_sorted};
ghost use Rattle.prove_open.specs.Hypotheses.{IsHypothesis, GivesFacts, IsConjoined, IsFirst};
ghost use Rattle.prove_open.specs.Hypotheses.{IsSecond};

use crate::instances::sides;
use ml_derived::{and_1, and_2, chain, itself};
use ml_kernel::Thm;
use ml_pat::{MForm, MPat, VarNo};
use prove_term::Cx;
use std::alloc::{AllocError, Global};
use term_core::SortId;

/// A hypothesis on variables, and what it gives.
#[derive(Drop)]
pub struct Given {
    /// The hypothesis.
    pub hypothesis: MPat,
    /// By the number of a variable, the theorem that under the hypothesis the variable is one
    /// element of its sort.
    pub facts: Vec<Option<Thm>>,
}

impl Given {
    /// Returns the hypothesis that each of these variables is one element of its sort, ended by
    /// `top`, and the facts on these variables. `sorts` has the sort of each variable.
    /// `AllocError`: out of memory. After an error the context may have grown.
    pub fn of(
        alloc: Global,
        cx: &mut Cx<'_>,
        sorts: &[SortId],
        variables: &[u32],
    ) -> Result<Given, AllocError>
        requires sorts { AreSorts cx.old.program.sig (sort_numbers sorts.now) }
        requires variables { All (λ x. x < length sorts.now) variables.now }
        ensures given { IfOk result (IsGiven cx.new (sort_numbers sorts.now)) }
        ensures hypothesis { IfOk result
            (λ g. sentence_image cx.new.program.sig cx.new.names
            (all_sorted (sort_numbers sorts.now) variables.now) ≡ Some g.hypothesis) }
        ensures facts { IfOk result
            (λ g. (x : ℕ) → Contains variables.now x → HasFact g x) }
        ensures grown { HasGrown cx.old cx.new }
    {
        let hypothesis = hypothesis(alloc, cx, sorts, variables)?;
        let facts = facts_of(alloc, &hypothesis, sorts, variables)?;
        Ok(Given { hypothesis, facts })
    }

    /// Returns the hypothesis `top`, without facts. `AllocError`: out of memory.
    pub fn nothing(alloc: Global) -> Result<Given, AllocError>
        ensures given { IfOk result (λ g. (cx : Context) (sorts : List ℕ) → IsGiven cx sorts g) }
        ensures hypothesis { IfOk result (λ g. g.hypothesis ≡ top) }
        ensures facts { IfOk result (λ g. g.facts.items ≡ []) }
    {
        let hypothesis = MPat::top(alloc)?;
        let facts = Vec::new(alloc);
        Ok(Given { hypothesis, facts })
    }
}

// The hypothesis that each of these variables is one element of its sort, ended by `top`.
fn hypothesis(
    alloc: Global,
    cx: &mut Cx<'_>,
    sorts: &[SortId],
    variables: &[u32],
) -> Result<MPat, AllocError>
    requires sorts { AreSorts cx.old.program.sig (sort_numbers sorts.now) }
    requires variables { All (λ x. x < length sorts.now) variables.now }
    ensures image { IfOk result
        (λ h. sentence_image cx.new.program.sig cx.new.names
        (all_sorted (sort_numbers sorts.now) variables.now) ≡ Some h) }
    ensures grown { HasGrown cx.old cx.new }
{
    let mut whole = MPat::top(alloc)?;
    for i in (0..variables.len()).rev() {
        let x = variables[i];
        let sort = cx.sort(alloc, sorts[x as usize])?;
        let element = MPat::fun(alloc, &MPat::var(alloc, VarNo(x))?, sort)?;
        whole = MPat::and(alloc, &element, &whole)?;
    }
    Ok(whole)
}

// The facts on these variables, from the hypothesis on them.
fn facts_of(
    alloc: Global,
    h: &MPat,
    sorts: &[SortId],
    variables: &[u32],
) -> Result<Vec<Option<Thm>>, AllocError>
    requires variables { All (λ x. x < length sorts.now) variables.now }
    requires hypothesis { IsHypothesis (sort_numbers sorts.now) variables.now h.now }
    ensures { IfOk result
        (λ v. GivesFacts (sort_numbers sorts.now) variables.now h.now v.items) }
{
    let mut facts = none(alloc, sorts.len())?;
    let mut rest = itself(alloc, h)?;
    for x in variables {
        facts[*x as usize] = Some(first(alloc, &rest)?);
        rest = second(alloc, &rest)?;
    }
    Ok(facts)
}

// No facts on this many variables.
fn none(alloc: Global, count: usize) -> Result<Vec<Option<Thm>>, AllocError>
    ensures { IfOk result (λ v. v.items ≡ replicate count None) }
{
    let mut facts = Vec::with_capacity(alloc, count)?;
    for _ in 0..count {
        facts.push(None)?;
    }
    Ok(facts)
}

// `h -> p`, from `h -> p & q`.
fn first(alloc: Global, both: &Thm) -> Result<Thm, AllocError>
    requires { IsConjoined both.now.conclusion }
    ensures conclusion { IfOk result (λ t. IsFirst both.now.conclusion t.conclusion) }
    ensures stays { IfOk result (StaysWithin [] (both.now ∷ [])) }
{
    let (_, joined) = sides(both.conclusion());
    let MForm::And(p, q) = joined.form() else {
        unreachable!()
    };
    let rule = and_1(alloc, p, q)?;
    chain(alloc, both, &rule)
}

// `h -> q`, from `h -> p & q`.
fn second(alloc: Global, both: &Thm) -> Result<Thm, AllocError>
    requires { IsConjoined both.now.conclusion }
    ensures conclusion { IfOk result (λ t. IsSecond both.now.conclusion t.conclusion) }
    ensures stays { IfOk result (StaysWithin [] (both.now ∷ [])) }
{
    let (_, joined) = sides(both.conclusion());
    let MForm::And(p, q) = joined.form() else {
        unreachable!()
    };
    let rule = and_2(alloc, p, q)?;
    chain(alloc, both, &rule)
}
