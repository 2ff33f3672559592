// Whether a pattern is the image of an axiom about subsorts.
ghost use Rattle.std.specs.Prelude.{◌≡◌, ◌∷◌, [], ◌≤◌, ◌^◌, ℕ, length, Contains, IfOk, IfSome, Some};
ghost use Rattle.rule_core.specs.Subsorts.{IsBelow};
ghost use Rattle.rule_core.specs.WellSorted.{IsSignature};
ghost use Rattle.ml_image.specs.Gained.{HasGained};
ghost use Rattle.ml_image.specs.HasImages.{CanInject};
ghost use Rattle.ml_image.specs.Sentences.{IsImageOf};
ghost use Rattle.ml_image.specs.OwnAxioms.{SaysSubsort, SaysCollapse};
ghost use Rattle.assumed_texts.specs.Deciding.{Decides};
ghost use Rattle.assumed_texts.specs.Kinds.{IsSubsortAxiom, IsCollapse};
ghost use Rattle.assumed_texts.specs.Shapes.{pair_found, triple_found};

use crate::shapes::{three_sorts, two_sorts};
use ml_image::{inj_collapse, inj_total, injection_symbol};
use ml_pat::{MPat, Names};
use rule_core::Signature;
use std::alloc::{AllocError, Global};
use term_core::SortId;
use true_facts::sort_of;

// Whether the pattern says that a sort is a subsort of another.
pub(crate) fn says_subsort(
    alloc: Global,
    sig: &Signature,
    names: &mut Names,
    pat: &MPat,
) -> Result<bool, AllocError>
    requires signature { IsSignature sig.now }
    requires sorts { length sig.now.sorts ≤ 2 ^ 32 }
    ensures answer { IfOk result
        (Decides sig.now names.old names.new (IsSubsortAxiom sig.now) pat.now) }
    ensures names { HasGained sig.now names.old names.new }
{
    let Some((from, to)) = subsort_in(sig, names, pat) else {
        return Ok(false);
    };
    let image = inj_total(alloc, sig, names, from, to)?;
    Ok(image.same(pat))
}

// The pair of subsorts that the pattern may say something about.
fn subsort_in(sig: &Signature, names: &Names, pat: &MPat) -> Option<(SortId, SortId)>
    requires signature { IsSignature sig.now }
    requires sorts { length sig.now.sorts ≤ 2 ^ 32 }
    ensures sorts { IfSome result (λ r. CanInject sig.now (r.0.0 ∷ r.1.0 ∷ [])) }
    ensures pair { IfSome result (λ r. Contains sig.now.subsorts (r.0.0, r.1.0)) }
    ensures only { (a b : ℕ) → IsImageOf sig.now names.now (SaysSubsort sig.now a b) pat.now
        → pair_found result ≡ Some (a, b) }
{
    let (a, b) = two_sorts(pat)?;
    let from = sort_of(sig, names, a)?;
    let to = sort_of(sig, names, b)?;
    injection_symbol(sig)?;
    if sig.subsorts.pair(from, to) {
        Some((from, to))
    } else {
        None
    }
}

// Whether the pattern says that two injections in a row equal one.
pub(crate) fn says_collapse(
    alloc: Global,
    sig: &Signature,
    names: &mut Names,
    pat: &MPat,
) -> Result<bool, AllocError>
    requires signature { IsSignature sig.now }
    requires sorts { length sig.now.sorts ≤ 2 ^ 32 }
    ensures answer { IfOk result
        (Decides sig.now names.old names.new (IsCollapse sig.now) pat.now) }
    ensures names { HasGained sig.now names.old names.new }
{
    let Some((from, through, to)) = chain_in(sig, names, pat) else {
        return Ok(false);
    };
    let image = inj_collapse(alloc, sig, names, from, through, to)?;
    Ok(image.same(pat))
}

// The three sorts that the pattern may say something about, each below the next.
fn chain_in(sig: &Signature, names: &Names, pat: &MPat) -> Option<(SortId, SortId, SortId)>
    requires signature { IsSignature sig.now }
    requires sorts { length sig.now.sorts ≤ 2 ^ 32 }
    ensures sorts { IfSome result (λ r. CanInject sig.now (r.0.0 ∷ r.1.0 ∷ r.2.0 ∷ [])) }
    ensures lower { IfSome result (λ r. IsBelow sig.now.subsorts r.0.0 r.1.0) }
    ensures upper { IfSome result (λ r. IsBelow sig.now.subsorts r.1.0 r.2.0) }
    ensures only { (a b c : ℕ) → IsImageOf sig.now names.now (SaysCollapse sig.now a b c) pat.now
        → triple_found result ≡ Some (a, (b, c)) }
{
    let (a, b, c) = three_sorts(pat)?;
    let from = sort_of(sig, names, a)?;
    let through = sort_of(sig, names, b)?;
    let to = sort_of(sig, names, c)?;
    injection_symbol(sig)?;
    if sig.subsorts.below(from, through) && sig.subsorts.below(through, to) {
        Some((from, through, to))
    } else {
        None
    }
}
