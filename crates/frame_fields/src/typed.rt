//! What the types of numbers say, as clauses for what stands behind a reference. None of these does anything.
ghost use Rattle.std.specs.Prelude.{◌≡◌, ◌<◌, ◌^◌, length};
ghost use Rattle.std.specs.List.{AllByRecursion};
ghost use Rattle.frame_fields.specs.Typed.{IsBytes};

/// A number is below 2^128.
pub fn see_number(number: u128)
    ensures { number < 2 ^ 128 }
{}

/// A digest has 32 bytes.
pub fn see_bytes(bytes: &[u8; 32])
    ensures len { length bytes.now ≡ 32 }
    ensures bytes { IsBytes bytes.now }
{
    see_slice(bytes);
}

/// Bytes are bytes.
pub fn see_slice(bytes: &[u8])
    ensures { IsBytes bytes.now }
{}

/// Words are below 2^64.
pub fn see_words(words: &[u64])
    ensures { AllByRecursion (λ w. w < 2 ^ 64) words.now }
{}
