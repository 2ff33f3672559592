// The lemmas on equalities of pattern variables. Each is stated once, when it is first needed.
ghost use Rattle.std.specs.Prelude.{◌≡◌, IfOk, IfSome};
ghost use Rattle.ml_derived.specs.Scopes.{AssumesWithin};
ghost use Rattle.prove_term.specs.Contexts.{Context, HasGrown, IsLemmaIn};
ghost use Rattle.prove_term.specs.EqualityLemmas.{IsEqualityAt, IsEqualityLemma, IsMadeFor};
ghost use Rattle.prove_term.specs.EqualityLemmas.{number_of, same_metas};
ghost use Rattle.prove_term.specs.declared.equality_lemmas.EqualityLemma.TheVariants.{Flip, Join};
ghost use Rattle.prove_term.specs.declared.equality_lemmas.EqualityLemma.TheVariants.{CongFun};
ghost use Rattle.prove_term.specs.declared.equality_lemmas.EqualityLemma.TheVariants.{CongArg};
ghost use Rattle.prove_term.specs.declared.equality_lemmas.EqualityLemma.TheVariants.{CongApp};
ghost use Rattle.prove_term.specs.declared.equality_lemmas.EqualityLemma.TheVariants.{NameFirst};
ghost use Rattle.prove_term.specs.declared.equality_lemmas.EqualityLemma.TheVariants.{NameLast};

use crate::conjunctions::and_same;
use crate::context::Cx;
use ml_derived::{assume, carry, cong_app, cong_arg, cong_fun, flip, join};
use ml_kernel::Thm;
use ml_pat::{MPat, VarNo};
use std::alloc::{AllocError, Global};

// The variable that marks the place in a context.
const HOLE: VarNo = VarNo(0);

// A lemma on equalities.
#[derive(Clone, Copy)]
pub(crate) enum EqualityLemma {
    // `m:1 = m:0`, from `m:0 = m:1`.
    Flip,
    // `m:0 = m:2`, from `m:0 = m:1` and `m:1 = m:2`.
    Join,
    // `m:0 m:2 = m:1 m:2`, from `m:0 = m:1`.
    CongFun,
    // `m:0 m:1 = m:0 m:2`, from `m:1 = m:2`.
    CongArg,
    // `m:0 m:2 = m:1 m:3`, from `m:0 = m:1` and `m:2 = m:3`.
    CongApp,
    // `m:1 & m:0 = m:1`, from `m:0 = m:1`.
    NameFirst,
    // `m:0 & m:1 = m:1`, from `m:0 = m:1`.
    NameLast,
}

impl EqualityLemma {
    // The number under which the lemma's place is kept.
    fn number(self) -> u32
        ensures { result ≡ number_of self }
    {
        match self {
            EqualityLemma::Flip => 0,
            EqualityLemma::Join => 1,
            EqualityLemma::CongFun => 2,
            EqualityLemma::CongArg => 3,
            EqualityLemma::CongApp => 4,
            EqualityLemma::NameFirst => 5,
            EqualityLemma::NameLast => 6,
        }
    }
}

impl<'p> Cx<'p> {
    // Returns the place of a lemma on equalities.
    pub(crate) fn equality(
        &mut self,
        alloc: Global,
        which: EqualityLemma,
    ) -> Result<usize, AllocError>
        ensures lemma { IfOk result (IsEqualityAt self.new which) }
        ensures grown { HasGrown self.old self.new }
    {
        if let Some(place) = self.known_equality(which) {
            return Ok(place);
        }
        let lemma = equality_lemma(alloc, which)?;
        let place = self.lemmas().len();
        self.add_lemma(alloc, lemma)?;
        self.keep_equality(which, place)?;
        Ok(place)
    }

    // Returns the place of a lemma on equalities, if it was stated.
    fn known_equality(&self, which: EqualityLemma) -> Option<usize>
        ensures { IfSome result (IsEqualityAt self.now which) }
    {
        self.equalities.get(&which.number()).copied()
    }

    // Keeps the place of a lemma on equalities.
    fn keep_equality(&mut self, which: EqualityLemma, place: usize) -> Result<(), AllocError>
        requires { IsEqualityAt self.old which place }
        ensures { self.new ≡ self.old }
    {
        self.equalities.insert(which.number(), place)?;
        Ok(())
    }
}

// Proves a lemma from its assumed hypotheses.
fn equality_lemma(alloc: Global, which: EqualityLemma) -> Result<Thm, AllocError>
    ensures says { IfOk result (IsEqualityLemma which) }
    ensures stays { IfOk result (λ t. (cx : Context) → IsLemmaIn cx t) }
{
    made_lemma(alloc, which)
}

// Proves the conclusion of a lemma from its assumed hypotheses.
fn made_lemma(alloc: Global, which: EqualityLemma) -> Result<Thm, AllocError>
    ensures { IfOk result (IsMadeFor which) }
{
    match which {
        EqualityLemma::Flip => flip_lemma(alloc),
        EqualityLemma::Join => join_lemma(alloc),
        EqualityLemma::CongFun => cong_fun_lemma(alloc),
        EqualityLemma::CongArg => cong_arg_lemma(alloc),
        EqualityLemma::CongApp => cong_app_lemma(alloc),
        EqualityLemma::NameFirst => name_first_lemma(alloc),
        EqualityLemma::NameLast => name_last_lemma(alloc),
    }
}

fn flip_lemma(alloc: Global) -> Result<Thm, AllocError>
    ensures { IfOk result (IsMadeFor Flip) }
{
    let equality = assumed_same(alloc, 0, 1)?;
    flip(alloc, &equality)
}

fn join_lemma(alloc: Global) -> Result<Thm, AllocError>
    ensures { IfOk result (IsMadeFor Join) }
{
    let first = assumed_same(alloc, 0, 1)?;
    let second = assumed_same(alloc, 1, 2)?;
    join(alloc, &first, &second)
}

fn cong_fun_lemma(alloc: Global) -> Result<Thm, AllocError>
    ensures { IfOk result (IsMadeFor CongFun) }
{
    let equality = assumed_same(alloc, 0, 1)?;
    let argument = MPat::meta(alloc, 2)?;
    cong_fun(alloc, &equality, &argument)
}

fn cong_arg_lemma(alloc: Global) -> Result<Thm, AllocError>
    ensures { IfOk result (IsMadeFor CongArg) }
{
    let function = MPat::meta(alloc, 0)?;
    let equality = assumed_same(alloc, 1, 2)?;
    cong_arg(alloc, &function, &equality)
}

fn cong_app_lemma(alloc: Global) -> Result<Thm, AllocError>
    ensures { IfOk result (IsMadeFor CongApp) }
{
    let first = assumed_same(alloc, 0, 1)?;
    let second = assumed_same(alloc, 2, 3)?;
    cong_app(alloc, &first, &second)
}

fn name_first_lemma(alloc: Global) -> Result<Thm, AllocError>
    ensures { IfOk result (IsMadeFor NameFirst) }
{
    let turned = flip(alloc, &assumed_same(alloc, 0, 1)?)?;
    let named = MPat::meta(alloc, 1)?;
    let open = MPat::and(alloc, &named, &MPat::var(alloc, HOLE)?)?;
    let context = MPat::equal(alloc, &open, &named)?;
    carry(alloc, &turned, &context, HOLE, &and_same(alloc, &named)?)
}

fn name_last_lemma(alloc: Global) -> Result<Thm, AllocError>
    ensures { IfOk result (IsMadeFor NameLast) }
{
    let turned = flip(alloc, &assumed_same(alloc, 0, 1)?)?;
    let named = MPat::meta(alloc, 1)?;
    let open = MPat::and(alloc, &MPat::var(alloc, HOLE)?, &named)?;
    let context = MPat::equal(alloc, &open, &named)?;
    carry(alloc, &turned, &context, HOLE, &and_same(alloc, &named)?)
}

// Assumes that two pattern variables are equal.
fn assumed_same(alloc: Global, i: u32, j: u32) -> Result<Thm, AllocError>
    ensures conclusion { IfOk result (λ t. t.conclusion ≡ same_metas i j) }
    ensures stays { IfOk result (AssumesWithin (same_metas i j)) }
{
    let left = MPat::meta(alloc, i)?;
    let right = MPat::meta(alloc, j)?;
    assume(alloc, MPat::equal(alloc, &left, &right)?)
}
