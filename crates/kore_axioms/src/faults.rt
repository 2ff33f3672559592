// Faults at an axiom.
ghost use Rattle.std.specs.Prelude.{◌≡◌, ℕ, map, option_map};
ghost use Rattle.kore_sig.specs.FirstFault.{when, faults_of_tests};
ghost use Rattle.kore_sig.specs.Noted.{noted, leads_by_number, first_by_number};
ghost use Rattle.kore_axioms.specs.Views.{fault_number as the_number, fault_at, plain_test};

/// What is wrong with an axiom as a whole. Its place is the keyword of the axiom. The value of each
/// variant is the number of the refusal.
#[derive(Clone, Copy, PartialEq, Eq, Debug)]
pub enum AxiomFault {
    /// The left side has a function that is not AC.
    LeftFunction = 12,
    /// A side or the tested pattern contains a form other than a variable, an application, a domain
    /// value or a fold.
    Form = 13,
    /// The left side has an AC symbol.
    AcSymbol = 14,
    /// The axiom has a quantifier, `\mu`, `\nu` or a set variable.
    Binder = 15,
    /// The right side is an `\and` without `\top`.
    Ensures = 16,
    /// The left side is an `\and` without a condition, or the condition has another form.
    Condition = 17,
    /// A variable of the condition or of the right side does not occur in the left side.
    Unbound = 18,
    /// The sort is not that of the first rewrite rule.
    TopSort = 19,
    /// It has the attribute `anywhere`.
    Anywhere = 20,
    /// It has the attribute `overload` or `symbol-overload`.
    Overload = 21,
    /// An `\and` inside the left side has not two arguments, or is not of an element variable and a
    /// pattern that is no variable, or its variable stands elsewhere in the left side.
    AsPattern = 22,
    /// The priority is no text of one to nine digits.
    BadPriority = 23,
}

impl AxiomFault {
    ghost use Rattle.kore_axioms.specs.Views.{fault_number};

    /// The number of the refusal.
    pub fn number(self) -> u8
        ensures { result ≡ fault_number self }
    {
        self as u8
    }
}

/// The fault with the smallest number among those whose tests hold. Returns none if no test holds.
pub(crate) fn first_of_tests(tests: &[(bool, AxiomFault)]) -> Option<AxiomFault>
    ensures { (at : ℕ)
        → option_map (fault_at at) result
        ≡ first_by_number (faults_of_tests at (map plain_test tests.now)) }
{
    let mut first = None;
    for test in tests {
        first = smaller(first, test);
    }
    first
}

fn smaller(first: Option<AxiomFault>, test: &(bool, AxiomFault)) -> Option<AxiomFault>
    ensures { (at : ℕ) → option_map (fault_at at) result
        ≡ noted leads_by_number (option_map (fault_at at) first)
        (when test.now.0 (the_number test.now.1) at) }
{
    let (holds, fault) = *test;
    match first {
        _ if !holds => first,
        Some(earlier) if earlier.number() <= fault.number() => first,
        _ => Some(fault),
    }
}
