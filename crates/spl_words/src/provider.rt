//! The two servers that each hold one key of a pair.
ghost use Rattle.std.specs.Prelude.{◌≡◌};
ghost use Rattle.spl_words.specs.Words.{other};

/// One of the two providers. `Zero` comes first.
#[derive(Clone, Copy, Debug, PartialEq, Eq, PartialOrd, Ord)]
pub enum Provider {
    /// The first of the two.
    Zero,
    /// The second of the two.
    One,
}

/// The other one of the two.
pub fn other(p: Provider) -> Provider
    ensures { result ≡ other p }
{
    match p {
        Provider::Zero => Provider::One,
        Provider::One => Provider::Zero,
    }
}
