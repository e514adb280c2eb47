//! Reading the fields that frames share. Each reader answers the field's value and leaves the cursor behind it, or
//! answers the first fault; after a fault the cursor says nothing. None takes memory, so none tells of want of it.
ghost use Rattle.std.specs.Prelude.{◌≡◌, ◌⊎◌, ◌<◌, ◌≤◌, ◌^◌, length, MatchResult, Ok, Err, OnOk, IfOk};
ghost use Rattle.std.specs.Int.{w8, w16, w32, w64, w128};
ghost use Rattle.sha2.specs.Sha256.{sha256};
ghost use Rattle.spl_words.specs.declared.fault.FrameFault.TheVariants.{TooLarge};
ghost use Rattle.spl_words.specs.Results.{Is};
ghost use Rattle.frame_fields.specs.Reading.{ReadsExactly, take_at, number_at, magic_at, version_at, within_at, provider_at, digest_at};

use sha2::{Digest, Sha256};
use spl_words::{Fields, FrameFault, Provider};

/// The next `n` bytes, which are one field.
#[tactic(auto, unfolding(crate::specs::Reading::take_at))]
pub fn take<'a>(fields: &mut Fields<'a>, n: u64) -> Result<&'a [u8], FrameFault>
    requires { n < 2 ^ 32 }
    ensures read { ReadsExactly (λ s. s.now) result fields.new (take_at n fields.old) }
    ensures len { IfOk result (λ s. length s.now ≡ n) }
{
    let from = fields.offset();
    match fields.take(n) {
        Some(bytes) => Ok(bytes),
        None => Err(FrameFault::Short(from + n, fields.len())),
    }
}

/// The next byte.
#[tactic(auto, unfolding(crate::specs::Reading::take_at, crate::specs::Reading::number_at))]
pub fn byte(fields: &mut Fields) -> Result<u8, FrameFault>
    ensures { ReadsExactly (λ b. b) result fields.new (number_at w8 fields.old) }
{
    let from = fields.offset();
    match fields.byte() {
        Some(number) => Ok(number),
        None => Err(FrameFault::Short(from + 1, fields.len())),
    }
}

/// The number of the next two bytes, the highest first.
#[tactic(auto, unfolding(crate::specs::Reading::take_at, crate::specs::Reading::number_at))]
pub fn be16(fields: &mut Fields) -> Result<u16, FrameFault>
    ensures { ReadsExactly (λ b. b) result fields.new (number_at w16 fields.old) }
{
    let from = fields.offset();
    match fields.be16() {
        Some(number) => Ok(number),
        None => Err(FrameFault::Short(from + 2, fields.len())),
    }
}

/// The number of the next four bytes, the highest first.
#[tactic(auto, unfolding(crate::specs::Reading::take_at, crate::specs::Reading::number_at))]
pub fn be32(fields: &mut Fields) -> Result<u32, FrameFault>
    ensures { ReadsExactly (λ b. b) result fields.new (number_at w32 fields.old) }
{
    let from = fields.offset();
    match fields.be32() {
        Some(number) => Ok(number),
        None => Err(FrameFault::Short(from + 4, fields.len())),
    }
}

/// The number of the next eight bytes, the highest first.
#[tactic(auto, unfolding(crate::specs::Reading::take_at, crate::specs::Reading::number_at))]
pub fn be64(fields: &mut Fields) -> Result<u64, FrameFault>
    ensures { ReadsExactly (λ b. b) result fields.new (number_at w64 fields.old) }
{
    let from = fields.offset();
    match fields.be64() {
        Some(number) => Ok(number),
        None => Err(FrameFault::Short(from + 8, fields.len())),
    }
}

/// The number of the next sixteen bytes, the highest first.
#[tactic(auto, unfolding(crate::specs::Reading::take_at, crate::specs::Reading::number_at))]
pub fn be128(fields: &mut Fields) -> Result<u128, FrameFault>
    ensures { ReadsExactly (λ b. b) result fields.new (number_at w128 fields.old) }
{
    let from = fields.offset();
    match fields.be128() {
        Some(number) => Ok(number),
        None => Err(FrameFault::Short(from + 16, fields.len())),
    }
}

/// The next 32 bytes, which are one field, as a digest has.
#[tactic(auto, unfolding(crate::specs::Reading::take_at))]
pub fn take32(fields: &mut Fields) -> Result<[u8; 32], FrameFault>
    ensures { ReadsExactly (λ b. b) result fields.new (take_at 32 fields.old) }
{
    let from = fields.offset();
    match fields.take32() {
        Some(bytes) => Ok(bytes),
        None => Err(FrameFault::Short(from + 32, fields.len())),
    }
}

/// Four bytes that have to be these, which tell the kind of a frame.
#[tactic(auto, unfolding(crate::specs::Reading::magic_at))]
pub fn magic(fields: &mut Fields, text: &[u8]) -> Result<(), FrameFault>
    requires { length text.now ≡ 4 }
    ensures { ReadsExactly (λ x. x) result fields.new (magic_at text.now fields.old) }
{
    let bytes = take(fields, text.len() as u64)?;
    if bytes == text {
        Ok(())
    } else {
        Err(FrameFault::BadMagic)
    }
}

/// A byte that has to be this version.
#[tactic(auto, unfolding(crate::specs::Reading::version_at))]
pub fn version(fields: &mut Fields, expected: u8) -> Result<(), FrameFault>
    ensures { ReadsExactly (λ x. x) result fields.new (version_at expected fields.old) }
{
    let version = byte(fields)?;
    if version == expected {
        Ok(())
    } else {
        Err(FrameFault::BadVersion(version))
    }
}

/// A byte that has to be from `low` to `high`.
#[tactic(auto, unfolding(crate::specs::Reading::within_at))]
pub fn within(fields: &mut Fields, low: u8, high: u8) -> Result<u8, FrameFault>
    ensures { ReadsExactly (λ x. x) result fields.new (within_at w8 low high fields.old) }
{
    let from = fields.offset();
    let found = byte(fields)?;
    if low <= found && found <= high {
        Ok(found)
    } else {
        Err(FrameFault::BadField(from))
    }
}

/// A number of two bytes that has to be from `low` to `high`.
#[tactic(auto, unfolding(crate::specs::Reading::within_at))]
pub fn within16(fields: &mut Fields, low: u16, high: u16) -> Result<u16, FrameFault>
    ensures { ReadsExactly (λ x. x) result fields.new (within_at w16 low high fields.old) }
{
    let from = fields.offset();
    let found = be16(fields)?;
    if low <= found && found <= high {
        Ok(found)
    } else {
        Err(FrameFault::BadField(from))
    }
}

/// A number of four bytes that has to be from `low` to `high`.
#[tactic(auto, unfolding(crate::specs::Reading::within_at))]
pub fn within32(fields: &mut Fields, low: u32, high: u32) -> Result<u32, FrameFault>
    ensures { ReadsExactly (λ x. x) result fields.new (within_at w32 low high fields.old) }
{
    let from = fields.offset();
    let found = be32(fields)?;
    if low <= found && found <= high {
        Ok(found)
    } else {
        Err(FrameFault::BadField(from))
    }
}

/// A provider, as the byte 0 or 1.
#[tactic(auto, unfolding(crate::specs::Reading::provider_at))]
pub fn provider_field(fields: &mut Fields) -> Result<Provider, FrameFault>
    ensures { ReadsExactly (λ x. x) result fields.new (provider_at fields.old) }
{
    match within(fields, 0, 1)? {
        0 => Ok(Provider::Zero),
        _ => Ok(Provider::One),
    }
}

/// The SHA-256 of the bytes (FIPS 180-4).
pub fn digest_of(bytes: &[u8]) -> [u8; 32]
    ensures { result ≡ sha256 bytes.now }
{
    let mut hasher = Sha256::new();
    hasher.update(bytes);
    hasher.finalize()
}

/// The digest of all bytes before it, and no byte behind it.
#[tactic(auto, unfolding(crate::specs::Reading::digest_at))]
pub fn digest(fields: &mut Fields) -> Result<(), FrameFault>
    ensures { Is (λ x. x) result (digest_at fields.old) }
{
    let computed = digest_of(fields.front());
    let stated = take32(fields)?;
    let end = fields.offset();
    if end < fields.len() {
        return Err(FrameFault::Trailing(end));
    }
    if stated == computed {
        Ok(())
    } else {
        Err(FrameFault::BadDigest(stated, computed))
    }
}

/// A cursor at the front of a frame, which has at most 4,194,304 bytes.
pub fn start<'a>(bytes: &'a [u8]) -> Result<Fields<'a>, FrameFault>
    ensures ok { IfOk result (λ f. (f ≡ record { bytes = bytes.now; at = 0 }) × (length bytes.now ≤ 4194304)) }
    ensures large { MatchResult result (λ f. Unit {0}) (λ e. (e ≡ TooLarge) × (4194304 < length bytes.now)) }
{
    if bytes.len() > 4_194_304 {
        return Err(FrameFault::TooLarge);
    }
    Ok(Fields::new(bytes))
}
