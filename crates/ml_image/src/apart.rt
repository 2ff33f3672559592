// The images of true facts about values, constructors and injections that differ.
ghost use Rattle.std.specs.Prelude.{◌≡◌, [], ◌∷◌, IfOk};
ghost use Rattle.ml_pat.specs.Patterns.{imp, equal, app};
ghost use Rattle.term_core.specs.RulePatterns.{plain_pattern, sort_numbers};
ghost use Rattle.rule_core.specs.Subsorts.{IsBelow};
ghost use Rattle.ml_image.specs.Sentences.{IsImageOf};
ghost use Rattle.ml_image.specs.SideSorts.{IsHeadPattern, IsInjectedPattern, IsSidePattern};
ghost use Rattle.ml_image.specs.SideSorts.{HasHeadSorts, HasInjectedSorts, HasSideSorts};
ghost use Rattle.ml_image.specs.TrueFacts.{SaysUnequal, SaysInjective};
ghost use Rattle.ml_image.specs.HasImages.{CanInject, HaveApartImages};
ghost use Rattle.ml_image.specs.Gained.{HasGained};

use crate::closing::{close, close_both, named_sorts};
use crate::constructors::declaration;
use crate::images::{injection_image, term_image};
use ml_pat::{MPat, Names, VarNo};
use rule_core::Signature;
use std::alloc::{AllocError, Global};
use term_core::{RulePat, SortId};

/// The fact that two patterns are not equal, since they have no common instance (Kore language
/// document, "Patterns"): two different values, a value and a constructor of variables, one of
/// these and the injection of a variable, or two injections from sorts that are not the same, of a
/// variable and of something that has no sort below the variable's. The variables are all
/// different. They are numbered from 0, those of the first pattern first. An error: out of memory.
/// The names may have gained tokens even then.
pub fn apart_fact(
    alloc: Global,
    sig: &Signature,
    names: &mut Names,
    left: &RulePat,
    right: &RulePat,
) -> Result<MPat, AllocError>
    requires { HaveApartImages sig.now (plain_pattern left.now) (plain_pattern right.now) }
    ensures image { IfOk result (IsImageOf sig.now names.new
        (SaysUnequal sig.now (plain_pattern left.now) (plain_pattern right.now))) }
    ensures names { HasGained sig.now names.old names.new }
{
    let sorts = side_sorts(alloc, sig, left)?;
    let others = side_sorts(alloc, sig, right)?;
    let first = term_image(alloc, sig, names, left)?;
    let second = term_image(alloc, sig, names, right)?;
    let body = MPat::not(alloc, &MPat::equal(alloc, &first, &second)?)?;
    close_both(alloc, sig, names, sorts, &others, body)
}

/// The fact that an injection is injective (K framework, `INJ`): if two elements of the lower sort,
/// injected into the upper sort, are equal, then they are equal. An error: out of memory. The names
/// may have gained tokens even then.
pub fn inj_injective(
    alloc: Global,
    sig: &Signature,
    names: &mut Names,
    from: SortId,
    to: SortId,
) -> Result<MPat, AllocError>
    requires sorts { CanInject sig.now (from.0 ∷ to.0 ∷ []) }
    requires below { IsBelow sig.now.subsorts from.0 to.0 }
    ensures image { IfOk result (IsImageOf sig.now names.new (SaysInjective sig.now from.0 to.0)) }
    ensures names { HasGained sig.now names.old names.new }
{
    let head = injection_image(alloc, sig, names, from, to)?;
    let one = MPat::var(alloc, VarNo(0))?;
    let other = MPat::var(alloc, VarNo(1))?;
    let body = injective(alloc, &head, &one, &other)?;
    close(alloc, sig, names, &[from, from], body)
}

// The statement that the equality of two applications of a pattern implies that what it is applied
// to is equal.
fn injective(alloc: Global, head: &MPat, one: &MPat, other: &MPat) -> Result<MPat, AllocError>
    ensures { IfOk result (λ p. p
        ≡ imp (equal (app head.now one.now) (app head.now other.now)) (equal one.now other.now)) }
{
    let first = MPat::app(alloc, head, one)?;
    let second = MPat::app(alloc, head, other)?;
    let given = MPat::equal(alloc, &first, &second)?;
    MPat::imp(alloc, &given, &MPat::equal(alloc, one, other)?)
}

// The sorts of the variables of one side of a fact, in order.
fn side_sorts(alloc: Global, sig: &Signature, side: &RulePat) -> Result<Vec<SortId>, AllocError>
    requires { IsSidePattern sig.now (plain_pattern side.now) }
    ensures { IfOk result
        (λ v. HasSideSorts sig.now (plain_pattern side.now) (sort_numbers v.items)) }
{
    match side {
        RulePat::Inj(from, _, below) => injected_sorts(alloc, sig, *from, below),
        RulePat::Var(_) | RulePat::Value(..) | RulePat::Ctor(..) | RulePat::Call(..) => {
            head_sorts(alloc, sig, side)
        }
    }
}

// The sorts of the variables of what is injected from this sort.
fn injected_sorts(
    alloc: Global,
    sig: &Signature,
    from: SortId,
    below: &RulePat,
) -> Result<Vec<SortId>, AllocError>
    requires { IsInjectedPattern sig.now from.0 (plain_pattern below.now) }
    ensures { IfOk result
        (λ v. HasInjectedSorts sig.now from.0 (plain_pattern below.now) (sort_numbers v.items)) }
{
    match below {
        RulePat::Var(_) => Ok(vec![in alloc; from]?),
        RulePat::Inj(..) | RulePat::Value(..) | RulePat::Ctor(..) | RulePat::Call(..) => {
            head_sorts(alloc, sig, below)
        }
    }
}

// The sorts of the variables of a value or a constructor, in order.
fn head_sorts(alloc: Global, sig: &Signature, head: &RulePat) -> Result<Vec<SortId>, AllocError>
    requires { IsHeadPattern sig.now (plain_pattern head.now) }
    ensures { IfOk result
        (λ v. HasHeadSorts sig.now (plain_pattern head.now) (sort_numbers v.items)) }
{
    match head {
        RulePat::Ctor(symbol, _) => named_sorts(alloc, &declaration(sig, *symbol).args),
        RulePat::Var(_) | RulePat::Value(..) | RulePat::Inj(..) | RulePat::Call(..) => {
            Ok(Vec::new(alloc))
        }
    }
}
