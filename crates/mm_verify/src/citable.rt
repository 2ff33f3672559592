// What a proof may cite.
ghost use Rattle.std.specs.Prelude.{◌≡◌, map};
ghost use Rattle.mm_scope.specs.ScopeState.{scope_state};
ghost use Rattle.mm_verify.specs.StoredView.{stored_frame};

use crate::machine::Citation;
use crate::place::Place;
use crate::stored::StoredAssertion;
use mm_frame::Cited;
use mm_scope::Scopes;

/// What is declared before a statement, and the declared assertions in order, in the form that
/// steps use.
#[derive(Drop)]
pub(crate) struct Citable<'s, 'a> {
    scopes: &'s Scopes<'a>,
    assertions: &'s [StoredAssertion<'a>],
    ghost same: { map stored_frame assertions.now ≡ (scope_state scopes.now).frames },
}

impl<'s, 'a> Citable<'s, 'a> {
    ghost use Rattle.std.specs.Prelude.{option_map};
    ghost use Rattle.mm_verify.specs.Running.{citation_of};
    ghost use Rattle.mm_verify.specs.Citing.{cited_at};
    ghost use Rattle.std.specs.List.Sorted.{IsStrictlyIncreasing};
    ghost use Rattle.mm_scope.specs.StateReads.{is_mandatory_named};

    /// What may be cited, from scopes and their assertions.
    pub(crate) fn new(
        scopes: &'s Scopes<'a>,
        assertions: &'s [StoredAssertion<'a>],
    ) -> Citable<'s, 'a>
        requires { map stored_frame assertions.now ≡ (scope_state scopes.now).frames }
        ensures { result.scopes.now ≡ scopes.now }
    {
        Citable { scopes, assertions }
    }

    /// What a label cites. Returns `None` exactly when the label is neither that of an active
    /// hypothesis nor that of an assertion.
    pub(crate) fn cite(&self, label: &'a [u8]) -> Option<Citation<'s, 'a>>
        ensures { option_map citation_of result
            ≡ cited_at (scope_state self.now.scopes.now) label.now }
    {
        match self.scopes.cited(label)? {
            Cited::Hypothesis(hyp) => Some(Citation::Gives(hyp)),
            Cited::Assertion(place) => {
                let assertion = self.assertions.get(place)?;
                Some(Citation::Applies(assertion))
            }
        }
    }

    /// Whether a label is that of an active hypothesis that is mandatory for these symbols, which
    /// ascend.
    pub(crate) fn is_mandatory(&self, label: &'a [u8], symbols: &[u32]) -> bool
        requires { IsStrictlyIncreasing symbols.now }
        ensures { result
            ≡ is_mandatory_named (scope_state self.now.scopes.now) symbols.now label.now }
    {
        self.scopes.is_mandatory(label, symbols)
    }
}

impl Place for Citable<'_, '_> {
    ghost use Rattle.mm_scope.specs.StandingLaws.{place_of};
    ghost use Rattle.mm_verify.specs.Turned.{in_groups-turned};

    ghost place = { λ known. place_of (scope_state known.scopes.now) };

    ghost turned = { λ known a b. in_groups-turned (scope_state known.scopes.now).disjoint a b };

    fn is_variable(&self, symbol: u32) -> bool {
        self.scopes.is_variable(symbol)
    }

    fn apart(&self, a: u32, b: u32) -> bool {
        self.scopes.apart(a, b)
    }

    fn are_together(&self, symbols: &[u32]) -> bool {
        self.scopes.are_together(symbols)
    }
}
