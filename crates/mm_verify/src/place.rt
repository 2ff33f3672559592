// What a step of a proof needs to know of the place of the proof.
ghost use Rattle.std.specs.Prelude.{◌≡◌, ℕ, true};
ghost use Rattle.mm_frame.specs.PlainFrames.{in_group};

/// The place of a proof in a database.
pub(crate) trait Place {
    ghost use Rattle.mm_frame.specs.NumberedSteps.{NumberedPlace};

    // Which symbols are variables, and which pairs of them an active `$d` keeps apart.
    ghost place: { Self → NumberedPlace };

    /// Whether the symbol was declared by `$v`.
    fn is_variable(&self, symbol: u32) -> bool
        ensures { result ≡ (place self.now).is_variable symbol };

    /// Whether the two symbols are a pair of an active `$d`.
    fn apart(&self, a: u32, b: u32) -> bool
        ensures { result ≡ (place self.now).apart a b };

    /// Whether one active `$d` was found that has all these symbols, so that each two different
    /// ones are a pair of it.
    fn are_together(&self, symbols: &[u32]) -> bool
        ensures { result ≡ true → (a b : ℕ) → in_group a b symbols.now ≡ true
            → (place self.now).apart a b ≡ true };

    // The order of the two symbols does not matter.
    ghost turned: { (s : Self) (a b : ℕ) → (place s).apart a b ≡ (place s).apart b a };
}
