//! Writing keys. Each writer also says what the types of the fields that it wrote say of their values.
ghost use Rattle.std.specs.Prelude.{◌≡◌, ◌≤◌, length, OnOk};
ghost use Rattle.std.specs.List.{flat_map, AllByRecursion};
ghost use Rattle.frame_fields.specs.Pieces.{Wrote};
ghost use Rattle.key_frames.specs.Keys.{bits_byte, correction, threshold_level, point_key, threshold_key, key, KeyAllowed, CorrectionTyped, LevelTyped, PointTyped, ThresholdTyped, KeyTyped};

use crate::keys::Key;
use frame_fields::{put8, put64, put128};
use interval_keys::{ThresholdKey, ThresholdLevel};
use point_keys::PointKey;
use seed_expansion::Correction;
use std::alloc::AllocError;

/// The byte of a level's two control bits.
fn bits_of(left: bool, right: bool) -> u8
    ensures { result ≡ bits_byte left right }
{
    match (left, right) {
        (false, false) => 0,
        (true, false) => 1,
        (false, true) => 2,
        (true, true) => 3,
    }
}

/// Adds a level of a point key.
fn put_correction(out: &mut Vec<u8>, level: &Correction) -> Result<(), AllocError>
    ensures written { OnOk result (Wrote out.old.items (correction level.now) out.new.items) }
    ensures typed { OnOk result (CorrectionTyped level.now) }
{
    put128(out, level.seed)?;
    put8(out, bits_of(level.bit_l, level.bit_r))?;
    Ok(())
}

/// Adds a level of a threshold key.
fn put_level(out: &mut Vec<u8>, level: &ThresholdLevel) -> Result<(), AllocError>
    ensures written { OnOk result (Wrote out.old.items (threshold_level level.now) out.new.items) }
    ensures typed { OnOk result (LevelTyped level.now) }
{
    put_correction(out, &level.correction)?;
    put64(out, level.word_l)?;
    put64(out, level.word_r)?;
    Ok(())
}

/// Adds the levels of a point key, from the root down.
fn put_corrections(out: &mut Vec<u8>, levels: &[Correction]) -> Result<(), AllocError>
    ensures written { OnOk result (Wrote out.old.items (flat_map correction levels.now) out.new.items) }
    ensures typed { OnOk result (AllByRecursion CorrectionTyped levels.now) }
{
    for level in levels {
        put_correction(out, level)?;
    }
    Ok(())
}

/// Adds the levels of a threshold key, from the root down.
fn put_levels(out: &mut Vec<u8>, levels: &[ThresholdLevel]) -> Result<(), AllocError>
    ensures written { OnOk result (Wrote out.old.items (flat_map threshold_level levels.now) out.new.items) }
    ensures typed { OnOk result (AllByRecursion LevelTyped levels.now) }
{
    for level in levels {
        put_level(out, level)?;
    }
    Ok(())
}

/// Adds a point key behind its kind.
fn put_point(out: &mut Vec<u8>, key: &PointKey) -> Result<(), AllocError>
    requires { length key.now.levels ≤ 128 }
    ensures written { OnOk result (Wrote out.old.items (point_key key.now) out.new.items) }
    ensures typed { OnOk result (PointTyped key.now) }
{
    let levels = key.levels.as_slice();
    put8(out, levels.len() as u8)?;
    put128(out, key.root)?;
    put_corrections(out, levels)?;
    put64(out, key.last)?;
    Ok(())
}

/// Adds a threshold key behind its kind.
fn put_threshold(out: &mut Vec<u8>, key: &ThresholdKey) -> Result<(), AllocError>
    requires { length key.now.levels ≤ 128 }
    ensures written { OnOk result (Wrote out.old.items (threshold_key key.now) out.new.items) }
    ensures typed { OnOk result (ThresholdTyped key.now) }
{
    let levels = key.levels.as_slice();
    put8(out, levels.len() as u8)?;
    put128(out, key.root)?;
    put_levels(out, levels)?;
    put64(out, key.last)?;
    Ok(())
}

/// Adds a key.
fn put_key(out: &mut Vec<u8>, k: &Key) -> Result<(), AllocError>
    requires { KeyAllowed k.now }
    ensures written { OnOk result (Wrote out.old.items (key k.now) out.new.items) }
    ensures typed { OnOk result (KeyTyped k.now) }
{
    match k {
        Key::Point(point) => {
            put8(out, 0)?;
            put_point(out, point)?;
        }
        Key::Threshold(threshold) => {
            put8(out, 1)?;
            put_threshold(out, threshold)?;
        }
    }
    Ok(())
}

/// Adds keys one behind the other.
pub fn put_keys(out: &mut Vec<u8>, keys: &[Key]) -> Result<(), AllocError>
    requires { AllByRecursion KeyAllowed keys.now }
    ensures written { OnOk result (Wrote out.old.items (flat_map key keys.now) out.new.items) }
    ensures typed { OnOk result (AllByRecursion KeyTyped keys.now) }
{
    for k in keys {
        put_key(out, k)?;
    }
    Ok(())
}
