// The order of a definition's sorts, and how far their numbers go.
ghost use Rattle.std.specs.Prelude.{ℕ, ◌<◌, ◌≡◌};
ghost use Rattle.rule_core.specs.Subsorts.{IsBelow};

use rule_core::Subsorts;

// Which sorts are below which, and a number that is more than each sort that is below another.
#[derive(Clone, Copy)]
pub(crate) struct Order<'s> {
    pub(crate) subsorts: &'s Subsorts,
    pub(crate) sorts: u32,
    ghost sorted: { (a b : ℕ) → IsBelow subsorts.now a b → a < sorts },
}

impl<'s> Order<'s> {
    // The order of these sorts.
    pub(crate) fn new(subsorts: &'s Subsorts, sorts: u32) -> Order<'s>
        requires { (a b : ℕ) → IsBelow subsorts.now a b → a < sorts }
        ensures { result.subsorts.now ≡ subsorts.now }
    {
        Order { subsorts, sorts }
    }
}
