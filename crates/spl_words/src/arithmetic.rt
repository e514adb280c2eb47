//! Words: numbers modulo 2^64.
ghost use Rattle.std.specs.Prelude.{◌≡◌, ◌≤◌, ◌^◌, nat_lt};
ghost use Rattle.spl_words.specs.Words.{plus, minus, times, signed};

use crate::Provider;

/// The sum of two words, modulo 2^64.
pub fn plus(a: u64, b: u64) -> u64
    ensures { result ≡ plus a b }
{
    a.wrapping_add(b)
}

/// The difference of two words, modulo 2^64.
pub fn minus(a: u64, b: u64) -> u64
    ensures { result ≡ minus a b }
{
    a.wrapping_sub(b)
}

/// The product of two words, modulo 2^64.
pub fn times(a: u64, b: u64) -> u64
    ensures { result ≡ times a b }
{
    a.wrapping_mul(b)
}

/// A word with the sign of a provider: itself for `Zero`, and 0 minus it for `One`.
pub fn signed(p: Provider, word: u64) -> u64
    ensures { result ≡ signed p word }
{
    match p {
        Provider::Zero => word,
        Provider::One => minus(0, word),
    }
}

/// Whether `x` is below 2^`bits`, where `bits` is at most 128.
pub fn below(x: u128, bits: u32) -> bool
    requires { bits ≤ 128 }
    ensures { result ≡ nat_lt x (2 ^ bits) }
{
    bits == 128 || x < 1 << bits
}
