// The built-in names.

ghost use Rattle.std.specs.Prelude.{◌≡◌};
ghost use Rattle.kore_text.specs.TokenStream.{built_of};
ghost use Rattle.kore_text.specs.Grammar.{connective_sorts, connective_arguments, is_associative};
ghost use Rattle.kore_text.specs.Grammar.{binder_sorts, binds_sets};

/// The connectives whose arguments are patterns. `Member` is `\in`.
#[derive(Clone, Copy, PartialEq, Eq, Debug)]
pub enum Op {
    Top,
    Bottom,
    Not,
    Next,
    And,
    Or,
    Implies,
    Iff,
    Rewrites,
    Ceil,
    Floor,
    Equals,
    Member,
}

/// The binders.
#[derive(Clone, Copy, PartialEq, Eq, Debug)]
pub enum Binder {
    Exists,
    Forall,
    Mu,
    Nu,
}

/// What a built-in name stands for.
#[derive(Clone, Copy, PartialEq, Eq, Debug)]
pub enum Built {
    /// A connective.
    Connective(Op),
    /// A binder.
    Binding(Binder),
    /// A domain value, `\dv`.
    Value,
    /// A fold from the left (`true`) or from the right (`false`).
    Fold(bool),
}

impl Built {
    /// What the name after a backslash stands for. Returns none if it stands for nothing.
    #[tactic(auto, unfolding(crate::specs::TokenStream::built_of))]
    pub fn of_name(name: &[u8]) -> Option<Built>
        ensures { result ≡ built_of name.now }
    {
        match name {
            b"top" => Some(Built::Connective(Op::Top)),
            b"bottom" => Some(Built::Connective(Op::Bottom)),
            b"not" => Some(Built::Connective(Op::Not)),
            b"next" => Some(Built::Connective(Op::Next)),
            b"and" => Some(Built::Connective(Op::And)),
            b"or" => Some(Built::Connective(Op::Or)),
            b"implies" => Some(Built::Connective(Op::Implies)),
            b"iff" => Some(Built::Connective(Op::Iff)),
            b"rewrites" => Some(Built::Connective(Op::Rewrites)),
            b"ceil" => Some(Built::Connective(Op::Ceil)),
            b"floor" => Some(Built::Connective(Op::Floor)),
            b"equals" => Some(Built::Connective(Op::Equals)),
            b"in" => Some(Built::Connective(Op::Member)),
            b"exists" => Some(Built::Binding(Binder::Exists)),
            b"forall" => Some(Built::Binding(Binder::Forall)),
            b"mu" => Some(Built::Binding(Binder::Mu)),
            b"nu" => Some(Built::Binding(Binder::Nu)),
            b"dv" => Some(Built::Value),
            b"left-assoc" => Some(Built::Fold(true)),
            b"right-assoc" => Some(Built::Fold(false)),
            _ => None,
        }
    }
}

impl Op {
    /// How many sorts the connective takes.
    pub fn sorts(self) -> usize
        ensures { result ≡ connective_sorts self }
    {
        match self {
            Op::Ceil | Op::Floor | Op::Equals | Op::Member => 2,
            _ => 1,
        }
    }

    /// How many arguments the connective takes. Returns none if it takes any number.
    pub fn arguments(self) -> Option<usize>
        ensures { result ≡ connective_arguments self }
    {
        match self {
            Op::And | Op::Or => None,
            Op::Top | Op::Bottom => Some(0),
            Op::Not | Op::Next | Op::Ceil | Op::Floor => Some(1),
            Op::Implies | Op::Iff | Op::Rewrites | Op::Equals | Op::Member => Some(2),
        }
    }

    /// Whether the connective may be folded: `\and` and `\or`.
    pub fn is_associative(self) -> bool
        ensures { result ≡ is_associative self }
    {
        matches!(self, Op::And | Op::Or)
    }
}

impl Binder {
    /// How many sorts the binder takes.
    pub fn sorts(self) -> usize
        ensures { result ≡ binder_sorts self }
    {
        match self {
            Binder::Exists | Binder::Forall => 1,
            Binder::Mu | Binder::Nu => 0,
        }
    }

    /// Whether the binder binds a set variable. If not, it binds an element variable.
    pub fn binds_sets(self) -> bool
        ensures { result ≡ binds_sets self }
    {
        matches!(self, Binder::Mu | Binder::Nu)
    }
}
