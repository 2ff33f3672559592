// Long statements, with the places of their variables.
ghost use Rattle.std.specs.Prelude.{◌≡◌, ◌<◌, length, slice_index, IfOk, IfSome};
ghost use Rattle.mm_frame.specs.Spots.{AreSpots};

use crate::parts::{NOWHERE, Part};
use mm_frame::Expression;
use std::collections::BTreeMap;
use std::rc::Rc;

/// A long statement, which all assertions that have it share, and the places of the variables of
/// one assertion. `long_parts` are its parts.
#[derive(Drop)]
pub(crate) struct LongStatement {
    pub(crate) expression: Rc<Expression>,
    pub(crate) places: Rc<BTreeMap<u32, u32>>,
}

impl LongStatement {
    ghost use Rattle.mm_verify.specs.LongStatementView.{long_symbols, part_by};

    /// How many parts it has.
    pub(crate) fn len(&self) -> usize
        ensures { result ≡ length (long_symbols self.now) }
    {
        self.expression.symbols().len()
    }

    /// The spots of its symbols, if they are listed.
    pub(crate) fn spots(&self) -> Option<&[u64]>
        ensures { IfSome result (λ v. AreSpots (long_symbols self.now) v.now) }
    {
        self.expression.spots()
    }

    /// The part at a position.
    pub(crate) fn part(&self, position: usize) -> Part
        requires { position < length (long_symbols self.now) }
        ensures { result
            ≡ part_by self.now.places.value (slice_index (long_symbols self.now) position) }
    {
        let symbol = self.expression.symbols()[position];
        match self.places.get(&symbol) {
            None => Part {
                symbol,
                place: NOWHERE,
            },
            Some(place) => Part {
                symbol,
                place: *place,
            },
        }
    }
}
