// Instances of sentences: patterns are substituted for the variables that a sentence binds. They are
// closed, or under a hypothesis they may have variables.
ghost use Rattle.std.specs.Prelude.{◌≡◌, [], ◌∷◌, IfOk, Some};
ghost use Rattle.ml_pat.specs.Patterns.{all, imp, fun};
ghost use Rattle.ml_pat.specs.Judgements.{substituted};
ghost use Rattle.ml_kernel.specs.Lemmas.{HasNoVariable};
ghost use Rattle.ml_kernel.specs.Theorems.{conclusions};
ghost use Rattle.ml_derived.specs.Instances.{put, HasInstance, IsInstance};
ghost use Rattle.ml_derived.specs.Instances.{HasOpenInstance, SaysOpenInstance};
ghost use Rattle.ml_derived.specs.Parts.{IsElementOf, IsForAll, IsFunctional, IsPutIn, FitsBinder};
ghost use Rattle.ml_derived.specs.Parts.{FitsUnder, IsPutUnder};
ghost use Rattle.ml_derived.specs.Scopes.{StaysWithin};

use crate::implications::{chained, lift, sides, under};
use crate::rules::{inst, mp};
use ml_kernel::Thm;
use ml_pat::{MForm, MPat, MSort, VarNo, subst};
use std::alloc::{AllocError, Global};

/// The sentence with closed patterns substituted for its outermost bound variables, one for each
/// fact. A fact says that the pattern is one element of the variable's sort. Without facts the
/// result is the sentence. An error: out of memory.
pub fn instance(alloc: Global, mut sentence: Thm, facts: &[Thm]) -> Result<Thm, AllocError>
    requires { HasInstance sentence.conclusion (conclusions facts.now) }
    ensures conclusion { IfOk result
        (λ t. IsInstance sentence.conclusion (conclusions facts.now) t.conclusion) }
    ensures stays { IfOk result (StaysWithin [] (sentence ∷ facts.now)) }
{
    for fact in facts {
        sentence = instance_at(alloc, &sentence, fact)?;
    }
    Ok(sentence)
}

// The instance at the pattern of one fact.
fn instance_at(alloc: Global, sentence: &Thm, fact: &Thm) -> Result<Thm, AllocError>
    requires { FitsBinder sentence.now.conclusion fact.now.conclusion }
    ensures conclusion { IfOk result
        (λ t. IsPutIn sentence.now.conclusion fact.now.conclusion t.conclusion) }
    ensures stays { IfOk result (StaysWithin [] (sentence.now ∷ fact.now ∷ [])) }
{
    let (x, s, body) = bound(sentence.conclusion());
    let q = element(fact.conclusion());
    let made = put(alloc, body, x, q)?;
    let rule = inst(alloc, body, q, &made, x, s)?;
    let wanting = MPat::imp(alloc, fact.conclusion(), &made)?;
    let open = mp(alloc, sentence, &rule, sentence.conclusion(), &wanting)?;
    mp(alloc, fact, &open, fact.conclusion(), &made)
}

/// A universal quantifier: its variable, the sort of that, and what it quantifies.
#[derive(Clone, Copy)]
pub struct Binder<'a> {
    /// The variable.
    pub variable: VarNo,
    /// Its sort.
    pub sort: MSort,
    /// The pattern below the quantifier.
    pub body: &'a MPat,
}

/// `h -> made`, from `h -> all x s body` and `h -> fun q s`, where `made` is the body with q
/// substituted for x. The pattern q may have variables. An error: out of memory.
pub fn instance_under(
    alloc: Global,
    a: &Thm,
    fact: &Thm,
    h: &MPat,
    binder: Binder<'_>,
    q: &MPat,
    made: &MPat,
) -> Result<Thm, AllocError>
    requires a { a.now.conclusion
        ≡ imp h.now (all binder.variable.0 binder.sort.0 binder.body.now) }
    requires fact { fact.now.conclusion ≡ imp h.now (fun q.now binder.sort.0) }
    requires made { substituted binder.body.now binder.variable.0 q.now ≡ Some made.now }
    ensures conclusion { IfOk result (λ t. t.conclusion ≡ imp h.now made.now) }
    ensures stays { IfOk result (StaysWithin (made.now ∷ []) (a.now ∷ fact.now ∷ [])) }
{
    let Binder {
        variable,
        sort,
        body,
    } = binder;
    let bound = MPat::all(alloc, variable, sort, body)?;
    let element = MPat::fun(alloc, q, sort)?;
    let wanting = MPat::imp(alloc, &element, made)?;
    let rule = inst(alloc, body, q, made, variable, sort)?;
    let open = chained(alloc, a, &rule, h, &bound, &wanting)?;
    under(alloc, fact, &open, h, &element, made)
}

/// `h -> made`, where `made` is the sentence with patterns substituted for its outermost bound
/// variables, one for each fact. A fact says that under h the pattern is one element of the
/// variable's sort. The patterns may have variables. Without facts `made` is the sentence. An error:
/// out of memory.
pub fn instance_open(
    alloc: Global,
    sentence: &Thm,
    h: &MPat,
    facts: &[Thm],
) -> Result<Thm, AllocError>
    requires { HasOpenInstance h.now sentence.now.conclusion (conclusions facts.now) }
    ensures conclusion { IfOk result (λ t. SaysOpenInstance h.now sentence.now.conclusion
        (conclusions facts.now) t.conclusion) }
    ensures stays { IfOk result (StaysWithin (h.now ∷ []) (sentence.now ∷ facts.now)) }
{
    let mut present = lift(alloc, h, sentence)?;
    for fact in facts {
        present = open_at(alloc, &present, fact, h)?;
    }
    Ok(present)
}

// The instance at the pattern of one fact, under h.
fn open_at(alloc: Global, sentence: &Thm, fact: &Thm, h: &MPat) -> Result<Thm, AllocError>
    requires { FitsUnder h.now sentence.now.conclusion fact.now.conclusion }
    ensures conclusion { IfOk result
        (λ t. IsPutUnder h.now sentence.now.conclusion fact.now.conclusion t.conclusion) }
    ensures stays { IfOk result (StaysWithin [] (sentence.now ∷ fact.now ∷ [])) }
{
    let (_, quantified) = sides(sentence.conclusion());
    let (_, said) = sides(fact.conclusion());
    let (variable, sort, body) = bound(quantified);
    let q = element(said);
    match subst(alloc, body, variable, q)? {
        Some(made) => {
            let binder = Binder {
                variable,
                sort,
                body,
            };
            instance_under(alloc, sentence, fact, h, binder, q, &made)
        }
        None => unreachable!(),
    }
}

// The pattern with a closed pattern substituted for each free x.
pub(crate) fn put(alloc: Global, pat: &MPat, x: VarNo, by: &MPat) -> Result<MPat, AllocError>
    requires { HasNoVariable by.now }
    ensures { IfOk result (λ made. made ≡ put x.0 by.now pat.now) }
{
    match subst(alloc, pat, x, by)? {
        Some(made) => Ok(made),
        None => unreachable!(),
    }
}

// The bound variable, its sort, and the body.
fn bound(p: &MPat) -> (VarNo, MSort, &MPat)
    requires { IsForAll p.now }
    ensures { p.now ≡ all result.0.0 result.1.0 result.2.now }
{
    match p.form() {
        MForm::All(x, s, body) => (*x, *s, body),
        _ => unreachable!(),
    }
}

// The pattern that is one element of a sort.
fn element(p: &MPat) -> &MPat
    requires { IsFunctional p.now }
    ensures { IsElementOf result.now p.now }
{
    match p.form() {
        MForm::Fun(q, _) => q,
        _ => unreachable!(),
    }
}
