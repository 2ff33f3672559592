// Whether two injections meet in what a pattern becomes. This is decided before a proof is made.
ghost use Rattle.std.specs.Prelude.{◌≡◌};
ghost use Rattle.term_core.specs.RulePatterns.{plain_pattern};
ghost use Rattle.term_core.specs.PatternLists.{plain_patterns};
ghost use Rattle.prove_step.specs.Meeting.{becomes_injection, is_injection, meet_in, meet_in_some};

use term_core::{RulePat, Subst, Term};

// Returns whether an injection occurs directly above another one in what the pattern becomes as it
// is written.
#[cycle(meeting)]
pub(crate) fn meet_in(pat: &RulePat, subst: &Subst) -> bool
    ensures { result ≡ meet_in subst.now (plain_pattern pat.now) }
{
    match pat {
        RulePat::Ctor(_, args) => meet_in_some(args, subst),
        RulePat::Inj(_, _, below) => becomes_injection(below, subst) || meet_in(below, subst),
        RulePat::Var(_) | RulePat::Value(..) | RulePat::Call(..) => false,
    }
}

#[cycle(meeting)]
fn meet_in_some(pats: &[RulePat], subst: &Subst) -> bool
    ensures { result ≡ meet_in_some subst.now (plain_patterns pats.now) }
{
    for pat in pats {
        if meet_in(pat, subst) {
            return true;
        }
    }
    false
}

// Returns whether the pattern becomes an injection.
fn becomes_injection(pat: &RulePat, subst: &Subst) -> bool
    ensures { result ≡ becomes_injection subst.now (plain_pattern pat.now) }
{
    match pat {
        RulePat::Var(x) => match subst.get(*x) {
            Some(term) => is_injection(term),
            None => false,
        },
        RulePat::Inj(..) => true,
        RulePat::Value(..) | RulePat::Ctor(..) | RulePat::Call(..) => false,
    }
}

// Returns whether a term is an injection. Every other term becomes higher when it is injected.
fn is_injection(term: &Term) -> bool
    ensures { result ≡ is_injection term.now }
{
    term.height_injected() == term.height()
}
