// The numbers of sorts among the names of a context.
ghost use Rattle.std.specs.Prelude.{◌≡◌, ◌<◌, IfOk, Some, length};
ghost use Rattle.ml_image.specs.Images.{sort_image};
ghost use Rattle.prove_term.specs.Contexts.{HasGrown};

use crate::context::Cx;
use ml_image::sort_number;
use ml_pat::MSort;
use std::alloc::{AllocError, Global};
use term_core::SortId;

impl<'p> Cx<'p> {
    /// Returns the number of a sort among the names. `AllocError`: out of memory. After an error the
    /// names may have grown.
    pub fn sort(&mut self, alloc: Global, sort: SortId) -> Result<MSort, AllocError>
        requires { sort.0 < length self.old.program.sig.sorts }
        ensures number { IfOk result
            (λ s. sort_image self.new.program.sig self.new.names sort.0 ≡ Some s.0) }
        ensures grown { HasGrown self.old self.new }
    {
        sort_number(alloc, &self.program.sig, &mut self.names, sort)
    }
}
