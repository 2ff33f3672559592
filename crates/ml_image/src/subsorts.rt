// The images of the axioms about subsorts.
ghost use Rattle.std.specs.Prelude.{◌≡◌, [], ◌∷◌, Contains, IfOk, Some};
ghost use Rattle.term_core.specs.Patterns.{variable, injection};
ghost use Rattle.rule_core.specs.Subsorts.{IsBelow};
ghost use Rattle.ml_image.specs.Images.{image_of};
ghost use Rattle.ml_image.specs.Sentences.{IsImageOf};
ghost use Rattle.ml_image.specs.OwnAxioms.{SaysSubsort, SaysCollapse};
ghost use Rattle.ml_image.specs.HasImages.{CanInject};
ghost use Rattle.ml_image.specs.Gained.{HasGained};

use crate::closing::close;
use crate::constructors::is_some;
use crate::images::injection_image;
use crate::tokens::sort_number;
use ml_pat::{MPat, Names, VarNo};
use rule_core::Signature;
use std::alloc::{AllocError, Global};
use term_core::SortId;

/// The axiom about a pair of subsorts: each element of the lower sort, injected into the sort
/// directly above it, is one element of that sort (K framework, attribute `subsort`). An error: out
/// of memory. The names may have gained tokens even then.
pub fn inj_total(
    alloc: Global,
    sig: &Signature,
    names: &mut Names,
    from: SortId,
    to: SortId,
) -> Result<MPat, AllocError>
    requires sorts { CanInject sig.now (from.0 ∷ to.0 ∷ []) }
    requires pair { Contains sig.now.subsorts (from.0, to.0) }
    ensures image { IfOk result (IsImageOf sig.now names.new (SaysSubsort sig.now from.0 to.0)) }
    ensures names { HasGained sig.now names.old names.new }
{
    let injected = injected_variable(alloc, sig, names, from, to)?;
    let sort = sort_number(alloc, sig, names, to)?;
    let body = is_some(alloc, VarNo(1), sort, &injected)?;
    close(alloc, sig, names, &[from], body)
}

/// The axiom that two injections in a row, along a chain of three sorts, equal the injection from
/// the first sort to the last (K framework, `INJ`). An error: out of memory. The names may have
/// gained tokens even then.
pub fn inj_collapse(
    alloc: Global,
    sig: &Signature,
    names: &mut Names,
    from: SortId,
    through: SortId,
    to: SortId,
) -> Result<MPat, AllocError>
    requires sorts { CanInject sig.now (from.0 ∷ through.0 ∷ to.0 ∷ []) }
    requires lower { IsBelow sig.now.subsorts from.0 through.0 }
    requires upper { IsBelow sig.now.subsorts through.0 to.0 }
    ensures image { IfOk result
        (IsImageOf sig.now names.new (SaysCollapse sig.now from.0 through.0 to.0)) }
    ensures names { HasGained sig.now names.old names.new }
{
    let lower = injected_variable(alloc, sig, names, from, through)?;
    let upper = injection_image(alloc, sig, names, through, to)?;
    let twice = MPat::app(alloc, &upper, &lower)?;
    let once = injected_variable(alloc, sig, names, from, to)?;
    let body = MPat::equal(alloc, &twice, &once)?;
    close(alloc, sig, names, &[from], body)
}

// The variable 0 of a sort, injected into another.
fn injected_variable(
    alloc: Global,
    sig: &Signature,
    names: &mut Names,
    from: SortId,
    to: SortId,
) -> Result<MPat, AllocError>
    requires { CanInject sig.now (from.0 ∷ to.0 ∷ []) }
    ensures image { IfOk result
        (λ p. image_of sig.now names.new (injection from.0 to.0 (variable 0)) ≡ Some p) }
    ensures names { HasGained sig.now names.old names.new }
{
    let head = injection_image(alloc, sig, names, from, to)?;
    MPat::app(alloc, &head, &MPat::var(alloc, VarNo(0))?)
}
