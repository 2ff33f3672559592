// Hypotheses and frames.

ghost use Rattle.std.specs.Prelude.{◌≡◌, IfOk};
ghost use Rattle.mm_frame.specs.PlainFrames.{types_number, plain_hypothesis};
ghost use Rattle.mm_database.specs.Frames.{label_of};

use crate::asking::Mandatory;
use crate::expression::Expression;
use std::alloc::AllocError;
use std::rc::Rc;

/// A hypothesis, whose symbols are numbers.
#[derive(Drop)]
pub enum Hyp<'a> {
    /// A `$f`: its label, typecode and variable.
    Floating(&'a [u8], u32, u32),
    /// An `$e`: its label and statement.
    Essential(&'a [u8], Rc<Expression>),
}

/// The frame of an assertion: its label, what it asks for, and its statement. Assertions of one
/// place may share what they ask for.
#[derive(Drop)]
pub struct Frame<'a> {
    pub label: &'a [u8],
    pub mandatory: Rc<Mandatory<'a>>,
    pub statement: Rc<Expression>,
}

/// What a label cites.
#[derive(Clone, Copy)]
pub enum Cited<'s, 'a> {
    /// An active hypothesis.
    Hypothesis(&'s Hyp<'a>),
    /// An assertion, by its number from 0 among the frames.
    Assertion(usize),
}

impl<'a> Hyp<'a> {
    /// Its label.
    pub fn label(&self) -> &'a [u8]
        ensures { result.now ≡ label_of (plain_hypothesis self.now) }
    {
        match self {
            Hyp::Floating(label, _, _) => label,
            Hyp::Essential(label, _) => label,
        }
    }

    /// Whether it types this variable.
    pub fn types(&self, n: u32) -> bool
        ensures { result ≡ types_number n (plain_hypothesis self.now) }
    {
        match self {
            Hyp::Floating(_, _, variable) => *variable == n,
            Hyp::Essential(_, _) => false,
        }
    }

    /// The same once more.
    pub fn share(&self) -> Result<Hyp<'a>, AllocError>
        ensures { IfOk result (λ h. plain_hypothesis h ≡ plain_hypothesis self.now) }
    {
        match self {
            Hyp::Floating(label, typecode, variable) => Ok(Hyp::Floating(
                label, *typecode, *variable,
            )),
            Hyp::Essential(label, statement) => Ok(Hyp::Essential(label, statement.clone()?)),
        }
    }
}
