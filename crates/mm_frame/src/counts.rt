// Which symbols the active `$e` have.

ghost use Rattle.std.specs.Prelude.{◌≡◌, ℕ, ◌<◌, ◌+◌, ◌-◌, nat_lt, IfOk, vec_len};
ghost use Rattle.mm_frame.specs.Times.{once, times};

use std::alloc::{AllocError, Global};

/// How often each symbol occurs in the active `$e`.
#[derive(Drop)]
pub(crate) struct Counts {
    counts: Vec<usize>,
}

impl Counts {
    ghost use Rattle.mm_frame.specs.CountsView.{times_counted};

    /// None. Takes no memory yet.
    pub(crate) fn new(alloc: Global) -> Counts
        ensures { (n : ℕ) → times_counted result n ≡ 0 }
    {
        Counts {
            counts: Vec::new(alloc),
        }
    }

    /// Whether the symbol occurs in one of them.
    pub(crate) fn has(&self, n: u32) -> bool
        ensures { result ≡ nat_lt 0 (times_counted self.now n) }
    {
        match self.counts.get(n as usize) {
            None => false,
            Some(count) => 0 < *count,
        }
    }

    /// Counts the symbols of one more.
    pub(crate) fn add(&mut self, symbols: &[u32]) -> Result<(), AllocError>
        ensures { IfOk result (λ _.
            (n : ℕ) → times_counted self.new n ≡ times_counted self.old n + times n symbols.now) }
    {
        for n in symbols {
            self.add_one(*n as usize)?;
        }
        Ok(())
    }

    fn add_one(&mut self, at: usize) -> Result<(), AllocError>
        ensures { IfOk result
            (λ _. (n : ℕ) → times_counted self.new n ≡ times_counted self.old n + once n at) }
    {
        self.reach(at)?;
        let Some(count) = self.counts[at].checked_add(1) else {
            return Err(AllocError);
        };
        self.counts[at] = count;
        Ok(())
    }

    /// Appends zeros, until the symbol has a count.
    fn reach(&mut self, at: usize) -> Result<(), AllocError>
        ensures same { (n : ℕ) → times_counted self.new n ≡ times_counted self.old n }
        ensures long { IfOk result (λ _. at < vec_len self.new.counts) }
    {
        while self.counts.len() <= at {
            self.counts.push(0)?;
        }
        Ok(())
    }

    /// Takes the symbols of one away again.
    pub(crate) fn remove(&mut self, symbols: &[u32])
        ensures { (n : ℕ)
            → times_counted self.new n ≡ times_counted self.old n - times n symbols.now }
    {
        for n in symbols {
            self.remove_one(*n as usize);
        }
    }

    fn remove_one(&mut self, at: usize)
        ensures { (n : ℕ) → times_counted self.new n ≡ times_counted self.old n - once n at }
    {
        if at < self.counts.len() {
            self.counts[at] = self.counts[at].saturating_sub(1);
        }
    }

    /// Takes all away.
    pub(crate) fn clear(&mut self)
        ensures { (n : ℕ) → times_counted self.new n ≡ 0 }
    {
        self.counts.clear();
    }
}
