// Stored derivations, and the lemmas that they cite.
ghost use Rattle.std.specs.Prelude.{◌≡◌, ◌<◌, IfOk, IfSome};
ghost use Rattle.ml_kernel.specs.StepView.{derivation_of};
ghost use Rattle.ml_kernel.specs.Theorems.{derivations};
ghost use Rattle.ml_kernel.specs.StepsIn.{steps_in, all_steps};
ghost use Rattle.ml_kernel.specs.Concluding.{IsKept};

use crate::erased::ErasedDerivation;
use crate::rules::Rule;
use ml_pat::{MPat, MSort, VarNo};
use std::alloc::{AllocError, Global};
use std::marker::Model;
use std::rc::Rc;

/// The number of an axiom in its theory.
#[derive(Clone, Copy, PartialEq, Eq, PartialOrd, Ord, Hash, Debug)]
pub struct AxiomNo(pub u64);

/// What is substituted for a variable of a rule.
#[derive(Drop)]
pub enum Inst {
    /// A pattern.
    Pat(MPat),
    /// An object variable.
    Var(VarNo),
    /// A sort.
    Sort(MSort),
}

/// A derivation, shared and not copied. Contracts see it as a plain `Derivation`.
#[cycle(derivation)]
pub struct Deriv {
    node: Rc<DerivStep>,
}

/// The last step of a derivation.
#[cycle(derivation)]
#[derive(Drop)]
pub enum DerivStep {
    /// A hypothesis.
    Hyp(MPat),
    /// An axiom: its number in its theory, its pattern, and the new numbers of its bound variables.
    /// The variable with the number i becomes the i-th entry of the list. If the list is shorter,
    /// the variable does not change.
    Axiom(AxiomNo, MPat, Vec<VarNo>),
    /// A rule; the instances of its variables, in the order of its call; and the derivations of its
    /// premises.
    ByRule(Rule, Vec<Inst>, Vec<Deriv>),
    /// A lemma, the patterns for its pattern variables, and the derivations of its hypotheses.
    Cited(Lemma, Vec<MPat>, Vec<Deriv>),
}

/// A theorem that may be cited with other patterns for its pattern variables. Contracts see it as a
/// plain `Theorem`. Its derivation exists only for contracts.
pub struct Lemma {
    pub(crate) hypotheses: Vec<MPat>,
    pub(crate) conclusion: MPat,
    pub(crate) erased: ErasedDerivation,
}

// A lemma is dropped by one call, and not field by field at each end of each call that owns one.
impl Drop for Lemma {
    fn drop(self) {
        let Lemma {
            hypotheses: _,
            conclusion: _,
            erased: _,
        } = self;
    }
}

impl Model for Deriv {
    ghost use Rattle.ml_kernel.specs.Theorems.{Derivation};
    ghost use Rattle.ml_kernel.specs.TheoremCode.{derivation_code};

    ghost Value = { Derivation };

    ghost coded = { derivation_code };

    ghost use Rattle.ml_kernel.specs.StepsIn.{steps_in};
    ghost use Rattle.ml_kernel.specs.DerivationView.{whole_derivation};

    ghost view = { whole_derivation };

    ghost size = { steps_in };

    ghost use Rattle.std.proofs.Common.{arith};
    ghost use Rattle.ml_kernel.specs.DerivationSize.{deep-steps};

    ghost size_decreases = { λ a h. Prim.omega (arith, deep-steps a.node.value) };
}

impl Model for Lemma {
    ghost use Rattle.ml_kernel.specs.Theorems.{Theorem};
    ghost use Rattle.ml_kernel.specs.TheoremCode.{theorem_code};

    ghost Value = { Theorem };

    ghost coded = { theorem_code };

    ghost use Rattle.ml_kernel.specs.Concluding.{IsKept};
    ghost use Rattle.ml_kernel.specs.DerivationView.{lemma_theorem};

    ghost view = { lemma_theorem };

    ghost invariant = { λ a. IsKept (lemma_theorem a) };
}

// It loops over a list of the parts that are still to be dropped, because a chain of rules may be
// as long as a run. If there is no memory for the list, it recurses into the parts.
impl Drop for Deriv {
    #[cycle(derivation_drop)]
    fn drop(self) {
        let Some(mut pending) = self.into_parts() else {
            return;
        };
        while let Some(part) = pending.pop() {
            let Some(mut parts) = part.into_parts() else {
                continue;
            };
            let _appended = pending.append(&mut parts);
        }
    }
}

impl Deriv {
    // The derivations directly below, if there are some and nothing else shares this one.
    fn into_parts(self) -> Option<Vec<Deriv>>
        ensures { IfSome result (λ parts. all_steps (derivations parts.items) < steps_in self) }
    {
        let Deriv { node } = self;
        Rc::into_inner(node)?.into_parts()
    }
}

impl DerivStep {
    // The derivations directly below. A cited lemma does not keep any.
    fn into_parts(self) -> Option<Vec<Deriv>>
        ensures { IfSome result
            (λ parts. all_steps (derivations parts.items) < steps_in (derivation_of self)) }
    {
        match self {
            DerivStep::Hyp(_p) => None,
            DerivStep::Axiom(_no, _p, _new) => None,
            DerivStep::ByRule(_rule, _instances, parts) => Some(parts),
            DerivStep::Cited(_lemma, _metas, parts) => Some(parts),
        }
    }
}

impl Deriv {
    /// The derivation with this last step. An error: out of memory.
    pub(crate) fn of(alloc: Global, step: DerivStep) -> Result<Deriv, AllocError>
        ensures { IfOk result (λ d. d ≡ derivation_of step) }
    {
        let node = Rc::new(alloc, step)?;
        Ok(Deriv { node })
    }

    /// The last step.
    pub fn step(&self) -> &DerivStep
        ensures { derivation_of result.now ≡ self.now }
    {
        &self.node
    }

    /// The same derivation, shared. An error: out of memory.
    pub fn share(&self) -> Result<Deriv, AllocError>
        ensures { IfOk result (λ shared. shared ≡ self.now) }
    {
        let node = self.node.clone()?;
        Ok(Deriv { node })
    }
}

impl Lemma {
    /// The hypotheses that it depends on.
    pub fn hypotheses(&self) -> &[MPat]
        ensures value { result.now ≡ self.now.hypotheses }
        ensures kept { IsKept self.now }
    {
        &self.hypotheses
    }

    /// The same lemma, with its patterns shared. An error: out of memory.
    pub fn share(&self, alloc: Global) -> Result<Lemma, AllocError>
        ensures { IfOk result (λ shared. shared ≡ self.now) }
    {
        Ok(Lemma {
            hypotheses: all_shared(alloc, &self.hypotheses)?,
            conclusion: self.conclusion.share()?,
            erased: self.erased.again(),
        })
    }

    /// The conclusion.
    pub fn conclusion(&self) -> &MPat
        ensures { result.now ≡ self.now.conclusion }
    {
        &self.conclusion
    }
}

/// The same patterns, each shared.
pub(crate) fn all_shared(alloc: Global, patterns: &[MPat]) -> Result<Vec<MPat>, AllocError>
    ensures { IfOk result (λ v. v.items ≡ patterns.now) }
{
    let mut shared = Vec::with_capacity(alloc, patterns.len())?;
    for pattern in patterns {
        shared.push(pattern.share()?)?;
    }
    Ok(shared)
}
