// What is known of a pattern while it is proved to be one element of its sort.
ghost use Rattle.std.specs.Prelude.{◌≡◌, List, IfOk, IfSome};
ghost use Rattle.term_core.specs.Patterns.{Pattern, application, injection};
ghost use Rattle.term_core.specs.Patterns.{ground_pattern, ground_patterns};
ghost use Rattle.term_core.specs.PatternLists.{plain_patterns};
ghost use Rattle.term_core.specs.Forests.{forest};
ghost use Rattle.term_core.specs.declared.rule_patterns.RulePat.{RulePat};
ghost use Rattle.prove_open.specs.Known.{AreTheTerms, IsTheTerm};

use ml_kernel::Thm;
use std::alloc::{AllocError, Global};
use term_core::{MAX_HEIGHT, SortId, SymId, Term};

// What is known of a pattern.
#[derive(Drop)]
pub(crate) enum Known {
    // It is this term.
    Term(Term),
    // Under the hypothesis it is one element of its sort.
    Element(Thm),
}

// The term that a constructor makes of arguments, if these are terms and it is not too high.
pub(crate) fn constructor_of(
    alloc: Global,
    symbol: SymId,
    parts: &[Known],
) -> Result<Option<Term>, AllocError>
    ensures { IfOk result (λ o. IfSome o (λ t. (ps : List RulePat) → AreTheTerms ps parts.now
        → application symbol.0 (plain_patterns ps) ≡ ground_pattern t)) }
{
    let Some(terms) = all_terms(alloc, parts)? else {
        return Ok(None);
    };
    if Term::highest(&terms) < MAX_HEIGHT {
        return Ok(Some(Term::ctor(alloc, symbol, terms)?));
    }
    Ok(None)
}

// The terms that the arguments are, if each of them is one.
fn all_terms(alloc: Global, parts: &[Known]) -> Result<Option<Vec<Term>>, AllocError>
    ensures { IfOk result (λ o. IfSome o (λ v. (ps : List RulePat) → AreTheTerms ps parts.now
        → plain_patterns ps ≡ ground_patterns (forest v.items))) }
{
    let mut terms = Vec::with_capacity(alloc, parts.len())?;
    for part in parts {
        match part {
            Known::Term(term) => terms.push(term.share()?)?,
            Known::Element(_) => return Ok(None),
        }
    }
    Ok(Some(terms))
}

// The injection of what is known to be a term, if the term is no injection and not too high.
pub(crate) fn injection_of(
    alloc: Global,
    from: SortId,
    to: SortId,
    inner: &Known,
) -> Result<Option<Term>, AllocError>
    ensures { IfOk result (λ o. IfSome o (λ t. (p : Pattern) → IsTheTerm p inner.now
        → injection from.0 to.0 p ≡ ground_pattern t)) }
{
    let Known::Term(term) = inner else {
        return Ok(None);
    };
    // The injection of an injection is no higher than that.
    let high = term.height_injected();
    if term.height() < high && high <= MAX_HEIGHT {
        return Ok(Some(Term::inj(alloc, from, to, term)?));
    }
    Ok(None)
}
