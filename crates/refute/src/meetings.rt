// What comparing a pattern with a term comes to at once.
ghost use Rattle.std.specs.Prelude.{◌≡◌, ◌↔◌, ◌⊎◌, ℕ, List, IsTrue};
ghost use Rattle.term_core.specs.Patterns.{ground_pattern};
ghost use Rattle.term_core.specs.RulePatterns.{plain_pattern};
ghost use Rattle.rule_core.specs.Sorting.{HasSort, IsTermOf};
ghost use Rattle.rule_core.specs.WellSorted.{HasNoCall};
ghost use Rattle.rule_core.specs.declared.signature.Signature.{Signature};
ghost use Rattle.refute.specs.Clashes.{IsUpTo};
ghost use Rattle.refute.specs.Meetings.{Meets};

use rule_core::Subsorts;
use term_core::{RulePat, SortId, SymId, Term};

// What a pattern and a term have at their roots.
pub(crate) enum Meeting<'a> {
    // They differ.
    Clash,
    // The same value.
    Ends,
    // The pattern is a variable.
    Variable(u32),
    // The same constructor, with the arguments of both.
    Arguments(SymId, &'a [RulePat], &'a [RulePat]),
    // Injections: of the term from the first sort, of the pattern from the second, and of both into
    // the third. The first sort is up to the second. What both inject is behind that.
    Below(SortId, SortId, SortId, &'a RulePat, &'a RulePat),
}

// What the pattern and the term, which have one sort, have at their roots. `whole` is the pattern
// of the term.
pub(crate) fn met<'a>(
    subsorts: &Subsorts,
    pat: &'a RulePat,
    whole: &'a RulePat,
    term: &Term,
) -> Meeting<'a>
    requires sorted { (sig : Signature) × (variables : List ℕ) × (sort : ℕ)
        × HasSort sig variables (plain_pattern pat.now) sort × IsTermOf sig term.now sort }
    requires no_call { HasNoCall (plain_pattern pat.now) }
    requires whole { plain_pattern whole.now ≡ ground_pattern term.now }
    ensures { Meets subsorts.now (plain_pattern pat.now) term.now result }
{
    match pat {
        RulePat::Var(x) => Meeting::Variable(*x),
        RulePat::Value(_, value) => match whole {
            RulePat::Value(_, other) if value.same(other) => Meeting::Ends,
            _ => Meeting::Clash,
        },
        RulePat::Ctor(symbol, args) => match whole {
            RulePat::Ctor(other, wholes) if symbol == other => {
                Meeting::Arguments(*symbol, args, wholes)
            }
            _ => Meeting::Clash,
        },
        RulePat::Inj(through, to, below) => match whole {
            RulePat::Inj(from, _, inner) if is_up_to(subsorts, *from, *through) => {
                Meeting::Below(*from, *through, *to, below, inner)
            }
            _ => Meeting::Clash,
        },
        RulePat::Call(..) => unreachable!(),
    }
}

// Whether the sort a is b or below b.
fn is_up_to(subsorts: &Subsorts, a: SortId, b: SortId) -> bool
    ensures { IsTrue result ↔ IsUpTo subsorts.now a.0 b.0 }
{
    a == b || subsorts.below(a, b)
}
