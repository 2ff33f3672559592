// How an image numbers the variables of a pattern.
ghost use Rattle.std.specs.Prelude.{◌≡◌, ◌<◌};
ghost use Rattle.ml_image.specs.Numbering.{number_in, room};

/// How an image numbers the variables of a pattern. Contracts see it as the plain `number_in`.
#[derive(Clone, Copy)]
pub(crate) enum Numbering<'n> {
    /// In their order, from this number on.
    Shifted(u32),
    /// By a list, which has the number of each variable.
    Listed(&'n [u32]),
}

impl Numbering<'_> {
    // The number of a variable.
    pub(crate) fn number(&self, var: u32) -> u32
        requires { var < room self.now }
        ensures { result ≡ number_in self.now var }
    {
        match self {
            Numbering::Shifted(first) => *first + var,
            Numbering::Listed(numbers) => numbers[var as usize],
        }
    }
}
