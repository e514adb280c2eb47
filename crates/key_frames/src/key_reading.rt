//! Reading keys: the levels from the root down, a key, and so many keys. The reader of one level takes no memory.
ghost use Rattle.std.specs.Prelude.{◌≡◌};
ghost use Rattle.frame_fields.specs.Reading.{Reads, ReadsExactly, many_at};
ghost use Rattle.key_frames.specs.KeyReading.{correction_at, level_at, point_at, threshold_at, key_at, left_bit, right_bit};

use crate::keys::{Key, Keys};
use frame_fields::{be64, be128, within};
use interval_keys::{ThresholdKey, ThresholdLevel, ThresholdLevels};
use point_keys::{Corrections, PointKey};
use seed_expansion::Correction;
use spl_words::{Fields, FrameFault};
use std::alloc::Global;

/// A level of a point key: its seed, and a byte with a bit for each side.
#[tactic(auto, unfolding(crate::specs::KeyReading::correction_at))]
fn correction(fields: &mut Fields) -> Result<Correction, FrameFault>
    ensures { ReadsExactly (λ c. c) result fields.new (correction_at fields.old) }
{
    let seed = be128(fields)?;
    let bits = within(fields, 0, 3)?;
    Ok(Correction {
        seed,
        bit_l: bits == 1 || bits == 3,
        bit_r: 2 <= bits,
    })
}

/// So many levels of a point key.
fn corrections(alloc: Global, fields: &mut Fields, depth: u8) -> Result<Corrections, FrameFault>
    ensures { Reads (λ c. c) result fields.new (many_at correction_at depth fields.old) }
{
    let mut levels = Corrections::new(alloc);
    for _ in 0..depth {
        let level = correction(fields)?;
        levels.push(level)?;
    }
    Ok(levels)
}

/// A level of a threshold key: its correction, and a word for each side.
#[tactic(auto, unfolding(crate::specs::KeyReading::level_at))]
fn level(fields: &mut Fields) -> Result<ThresholdLevel, FrameFault>
    ensures { ReadsExactly (λ c. c) result fields.new (level_at fields.old) }
{
    let correction = correction(fields)?;
    let word_l = be64(fields)?;
    let word_r = be64(fields)?;
    Ok(ThresholdLevel {
        correction,
        word_l,
        word_r,
    })
}

/// So many levels of a threshold key.
fn threshold_levels(
    alloc: Global,
    fields: &mut Fields,
    depth: u8,
) -> Result<ThresholdLevels, FrameFault>
    ensures { Reads (λ c. c) result fields.new (many_at level_at depth fields.old) }
{
    let mut levels = ThresholdLevels::new(alloc);
    for _ in 0..depth {
        let level = level(fields)?;
        levels.push(level)?;
    }
    Ok(levels)
}

/// A point key behind its kind.
#[tactic(auto, unfolding(crate::specs::KeyReading::point_at))]
fn point_key(alloc: Global, fields: &mut Fields) -> Result<PointKey, FrameFault>
    ensures { Reads (λ k. k) result fields.new (point_at fields.old) }
{
    let depth = within(fields, 1, 128)?;
    let root = be128(fields)?;
    let levels = corrections(alloc, fields, depth)?;
    let last = be64(fields)?;
    Ok(PointKey { root, levels, last })
}

/// A threshold key behind its kind.
#[tactic(auto, unfolding(crate::specs::KeyReading::threshold_at))]
fn threshold_key(alloc: Global, fields: &mut Fields) -> Result<ThresholdKey, FrameFault>
    ensures { Reads (λ k. k) result fields.new (threshold_at fields.old) }
{
    let depth = within(fields, 1, 128)?;
    let root = be128(fields)?;
    let levels = threshold_levels(alloc, fields, depth)?;
    let last = be64(fields)?;
    Ok(ThresholdKey { root, levels, last })
}

/// A key: the byte of its kind, and its fields.
#[tactic(auto, unfolding(crate::specs::KeyReading::key_at))]
fn key(alloc: Global, fields: &mut Fields) -> Result<Key, FrameFault>
    ensures { Reads (λ k. k) result fields.new (key_at fields.old) }
{
    match within(fields, 0, 1)? {
        0 => Ok(Key::Point(point_key(alloc, fields)?)),
        _ => Ok(Key::Threshold(threshold_key(alloc, fields)?)),
    }
}

/// So many keys.
pub fn keys(alloc: Global, fields: &mut Fields, count: u16) -> Result<Keys, FrameFault>
    ensures { Reads (λ k. k) result fields.new (many_at key_at count fields.old) }
{
    let mut keys = Keys::new(alloc);
    for _ in 0..count {
        let key = key(alloc, fields)?;
        keys.push(key)?;
    }
    Ok(keys)
}
