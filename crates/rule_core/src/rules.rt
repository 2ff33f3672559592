// Rewrite rules, programs, and the ways in which a run ends.
use crate::Signature;
use term_core::{HookNo, NoValue, RulePat, SortId, SymId};

/// A variable of a rule or an equation.
#[derive(Drop)]
pub struct VarInfo {
    /// Its name, as the definition writes it.
    pub name: String,
    /// The sort of the terms that it may be bound to.
    pub sort: SortId,
}

/// A name of a part of a left side: the variable X of `\and{S}(p, X)`, where p is the part. Contracts
/// see it as the plain `name_of`.
#[derive(Drop)]
pub struct Named {
    /// The variable.
    pub var: u32,
    /// The place of the part: the number of the argument that it stands in, which is 0 for a rule,
    /// and then the way of child numbers to it.
    pub at: Vec<u32>,
    /// Whether the variable is written before the part.
    pub first: bool,
}

/// A guard of an equation of the last resort: it says when another equation of the function is used.
#[derive(Drop)]
pub struct Guard {
    /// The number of the equation that it repeats.
    pub equation: u32,
    /// The variables of that equation, in the order in which the guard quantifies them.
    pub order: Vec<u32>,
}

/// A rewrite rule. If its condition evaluates to `true`, it rewrites an instance of its left side
/// to the instance of its right side. Contracts see it as the plain `rewrite_rule`.
pub struct Rule {
    /// The byte offset of its keyword in the definition. Of two rules with the same priority, the
    /// earlier one is tried first.
    pub at: u32,
    /// The pattern that it matches.
    pub left: RulePat,
    /// The names of parts of its left side. Of names of one part, the inner comes first.
    pub named: Vec<Named>,
    /// The condition under which it may be used. Without one, it may always be used.
    pub cond: Option<RulePat>,
    /// The pattern of the result.
    pub right: RulePat,
    /// The variables of its patterns. The number of a variable is its index here.
    pub vars: Vec<VarInfo>,
    /// A rule with a smaller priority number is tried first.
    pub priority: u32,
}

// A rule is dropped by one call, and not field by field at each end of each call that owns one.
impl Drop for Rule {
    fn drop(self) {
        let Rule {
            at: _,
            left: _,
            named: _,
            cond: _,
            right: _,
            vars: _,
            priority: _,
        } = self;
    }
}

/// An equation of a function. If its condition evaluates to `true`, the value of the function at an
/// instance of its arguments is the value of its right side. Contracts see it as the plain
/// `function_equation`.
pub struct Equation {
    /// The byte offset of its keyword in the definition. Of two equations with the same priority,
    /// the earlier one is tried first.
    pub at: u32,
    /// The function.
    pub fun: SymId,
    /// How many parameters its text gives the function: 0 if it is written directly, otherwise the
    /// number of arguments.
    pub params: u32,
    /// The patterns that it matches, one for each argument.
    pub args: Vec<RulePat>,
    /// The names of parts of its arguments. Of names of one part, the inner comes first.
    pub named: Vec<Named>,
    /// For an equation of the last resort (`owise`), its guards, in order.
    pub owise: Option<Vec<Guard>>,
    /// The condition under which it may be used. Without one, it may always be used.
    pub cond: Option<RulePat>,
    /// The pattern of the result.
    pub right: RulePat,
    /// The variables of its patterns. The number of a variable is its index here.
    pub vars: Vec<VarInfo>,
    /// An equation with a smaller priority number is tried first.
    pub priority: u32,
}

// An equation is dropped by one call, and not field by field at each end of each call that owns one.
impl Drop for Equation {
    fn drop(self) {
        let Equation {
            at: _,
            fun: _,
            params: _,
            args: _,
            named: _,
            owise: _,
            cond: _,
            right: _,
            vars: _,
            priority: _,
        } = self;
    }
}

/// An accepted definition. Contracts see it as the plain `theory_of`. The type does not require
/// anything of its fields. A function that needs the rules in the order of trial requires that
/// itself.
pub struct Program {
    /// The sorts and symbols. The rules refer to them by number.
    pub sig: Signature,
    /// The sort of the terms that the rules rewrite. It is present if there is a rule.
    pub top: Option<SortId>,
    /// The rules in the order of trial.
    pub rules: Vec<Rule>,
    /// The equations of each symbol, indexed by its number, in the order of trial.
    pub equations: Vec<Vec<Equation>>,
}

// A program is dropped by one call, and not field by field at each end of each call that owns one.
impl Drop for Program {
    fn drop(self) {
        let Program {
            sig: _,
            top: _,
            rules: _,
            equations: _,
        } = self;
    }
}

/// Why an evaluation has no value.
#[derive(Clone, Copy, PartialEq, Eq, Debug)]
pub enum Blocked {
    /// The hook has no value at these arguments, for this reason.
    NoValue(HookNo, NoValue),
    /// Nothing defines the values of the function.
    Closed(SymId),
    /// No equation of the function applies.
    NoEquation(SymId),
    /// No call of a function was left when this one was called.
    Calls(SymId),
    /// The term that the constructor or the injection would build is too high.
    Height(SymId),
    /// No nesting was left for a node with this symbol.
    Nest(SymId),
}

/// How a run ends, and after how many steps. A limit of 0 steps gives `Limit(0)`.
#[derive(Clone, Copy, PartialEq, Eq, Debug)]
pub enum Outcome {
    /// No rule applies to the last configuration.
    Stuck(u32),
    /// The limit of steps was reached. No rule was tried on the last configuration.
    Limit(u32),
    /// The evaluation of the initial term, of a condition or of a right side has no value.
    Blocked(u32, Blocked),
}
