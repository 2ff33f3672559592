// Records of evaluations and steps. They hold what was used, so that a proof can be built from
// them.
ghost use Rattle.std.specs.Prelude.{◌≡◌};
ghost use Rattle.rule_core.specs.Records.{result_of};
ghost use Rattle.rule_core.specs.RecordView.{plain_record};

use term_core::{SortId, Subst, SymId, Term};

/// The record of how a pattern got its value. Contracts see it as the plain `plain_record`.
#[derive(Drop)]
#[cycle(records)]
pub enum EvalRecord {
    /// The variable with this number is bound to the term.
    Bound(u32, Term),
    /// A domain value is its own value.
    Value(Term),
    /// A constructor built the term from its arguments.
    Ctor(SymId, Vec<EvalRecord>, Term),
    /// The injection from a sort to another built the term.
    Inj(SortId, SortId, Box<EvalRecord>, Term),
    /// The hook of a function returned the term.
    ByHook(SymId, Vec<EvalRecord>, Term),
    /// An equation of a function was used.
    ByEquation(Box<EqRecord>),
}

/// The use of an equation.
#[derive(Drop)]
#[cycle(records)]
pub struct EqRecord {
    /// The function.
    pub fun: SymId,
    /// The records of its arguments.
    pub args: Vec<EvalRecord>,
    /// The number of the equation among the equations of the function.
    pub equation: u32,
    /// The substitution that matches the equation's arguments with the values.
    pub subst: Subst,
    /// The record of its condition, which has the value `true`, if it has a condition.
    pub cond: Option<Box<EvalRecord>>,
    /// The record of its right side.
    pub body: Box<EvalRecord>,
    /// For an equation of the last resort, why each equation before it is not used, in order.
    /// Otherwise nothing.
    pub missed: Vec<Miss>,
}

/// Why an equation is not used.
#[derive(Drop)]
#[cycle(records)]
pub enum Miss {
    /// It does not match.
    NoMatch,
    /// It matches with this substitution, and this is the record of its condition, whose value is
    /// not `true`.
    CondFalse(Subst, EvalRecord),
}

/// A step by a rewrite rule. Contracts see it as the plain `plain_step`.
pub struct StepRecord {
    /// The number of the rule.
    pub rule: u32,
    /// The substitution that matches the rule's left side with the term.
    pub subst: Subst,
    /// The record of its condition, which has the value `true`, if it has a condition.
    pub cond: Option<EvalRecord>,
    /// The record of its right side, whose value is the next term.
    pub right: EvalRecord,
}

// A record is dropped by one call, and not field by field at each end of each call that owns one.
impl Drop for StepRecord {
    fn drop(self) {
        let StepRecord {
            rule: _,
            subst: _,
            cond: _,
            right: _,
        } = self;
    }
}

impl EvalRecord {
    /// The value that the record states.
    pub fn result(&self) -> &Term
        ensures { result.now ≡ result_of (plain_record self.now) }
    {
        match self {
            EvalRecord::Bound(_, term)
            | EvalRecord::Value(term)
            | EvalRecord::Ctor(_, _, term)
            | EvalRecord::Inj(_, _, _, term)
            | EvalRecord::ByHook(_, _, term) => term,
            EvalRecord::ByEquation(used) => used.body.result(),
        }
    }
}
