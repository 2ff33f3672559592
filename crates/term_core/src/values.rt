// Domain values, and what a hook may return.
ghost use Rattle.std.specs.Prelude.{◌≡◌, ◌↔◌, IfOk, IsTrue};
ghost use Rattle.term_core.specs.Values.{value_of};

use std::alloc::AllocError;
use std::rc::RcStr;

/// The value of a domain value. A text is shared, so copies of a term share it too.
#[derive(Drop)]
pub enum Value {
    Int(i128),
    Bool(bool),
    Text(RcStr),
}

/// A domain value that has no text.
#[derive(Clone, Copy, PartialEq, Eq, Debug)]
pub enum Scalar {
    Int(i128),
    Bool(bool),
}

/// Why a hook has no value at its arguments.
#[derive(Clone, Copy, PartialEq, Eq, Debug)]
pub enum NoValue {
    /// The divisor is 0.
    ZeroDivisor,
    /// A shift or an exponent is negative.
    NegativeShift,
    /// The result does not fit in 128 bits.
    Range,
}

impl Value {
    /// The same value, with its text shared. An error: out of memory.
    pub fn share(&self) -> Result<Value, AllocError>
        ensures { IfOk result (λ v. value_of v ≡ value_of self.now) }
    {
        match self {
            Value::Int(n) => Ok(Value::Int(*n)),
            Value::Bool(b) => Ok(Value::Bool(*b)),
            Value::Text(words) => Ok(Value::Text(words.clone()?)),
        }
    }

    /// Whether both are the same value. It costs at most the length of the shorter text.
    pub fn same(&self, other: &Value) -> bool
        ensures { IsTrue result ↔ (value_of self.now ≡ value_of other.now) }
    {
        match (self, other) {
            (Value::Int(n), Value::Int(m)) => n == m,
            (Value::Bool(a), Value::Bool(b)) => a == b,
            (Value::Text(a), Value::Text(b)) => a == b,
            _ => false,
        }
    }
}
