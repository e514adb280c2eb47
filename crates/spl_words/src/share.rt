//! Functions that give a share for each number.
ghost use Rattle.std.specs.Prelude.{◌≡◌, ◌<◌, ◌^◌, ℕ};

/// A word for each number of `depth` bits, as a provider's shares under one key.
pub trait ShareFn {
    /// The bits of the numbers that the function takes.
    ghost bits: { Self → ℕ };

    /// The word at a number.
    ghost word: { Self → ℕ → ℕ };

    /// The bits of the numbers that `share` takes.
    fn depth(&self) -> u32
        ensures { result ≡ bits self.now };

    /// The word at `x`, which is below 2^`depth`.
    fn share(&self, x: u128) -> u64
        requires { x < 2 ^ bits self.now }
        ensures { result ≡ word self.now x };
}
