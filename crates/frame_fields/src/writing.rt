//! Writing fields, one behind the other: into a slice that has room for them, or at the end of a vector. After want
//! of memory the vector may hold a part of the field, and is given up.
ghost use Rattle.std.specs.Prelude.{◌≡◌, ◌++◌, ◌+◌, ◌≤◌, [], ◌∷◌, length, take, drop, OnOk};
ghost use Rattle.frame_fields.specs.Pieces.{Wrote};
ghost use Rattle.frame_fields.specs.Reading.{provider_byte};
ghost use Rattle.std.specs.Int.{w8, w16, w64, w128, to_be_bytes};

use spl_words::Provider;
use std::alloc::AllocError;

/// Writes the bytes at a place of a slice that has room for them, and answers the place behind them.
/// The other bytes stay.
pub fn put(out: &mut [u8], at: usize, bytes: &[u8]) -> usize
    requires { at + length bytes.now ≤ length out.old }
    ensures at { result ≡ at + length bytes.now }
    ensures front { take result out.new ≡ take at out.old ++ bytes.now }
    ensures rest { drop result out.new ≡ drop result out.old }
    ensures len { length out.new ≡ length out.old }
{
    let end = at + bytes.len();
    out[at..end].copy_from_slice(bytes);
    end
}

/// Adds a byte.
pub fn put8(out: &mut Vec<u8>, number: u8) -> Result<(), AllocError>
    ensures { OnOk result (Wrote out.old.items (to_be_bytes w8 number) out.new.items) }
{
    out.extend_from_slice(&number.to_be_bytes())?;
    Ok(())
}

/// Adds a number as two bytes, the highest first.
pub fn put16(out: &mut Vec<u8>, number: u16) -> Result<(), AllocError>
    ensures { OnOk result (Wrote out.old.items (to_be_bytes w16 number) out.new.items) }
{
    out.extend_from_slice(&number.to_be_bytes())?;
    Ok(())
}

/// Adds a number as eight bytes, the highest first.
pub fn put64(out: &mut Vec<u8>, number: u64) -> Result<(), AllocError>
    ensures { OnOk result (Wrote out.old.items (to_be_bytes w64 number) out.new.items) }
{
    out.extend_from_slice(&number.to_be_bytes())?;
    Ok(())
}

/// Adds a number as sixteen bytes, the highest first.
pub fn put128(out: &mut Vec<u8>, number: u128) -> Result<(), AllocError>
    ensures { OnOk result (Wrote out.old.items (to_be_bytes w128 number) out.new.items) }
{
    out.extend_from_slice(&number.to_be_bytes())?;
    Ok(())
}

/// Adds bytes.
pub fn put_bytes(out: &mut Vec<u8>, bytes: &[u8]) -> Result<(), AllocError>
    ensures { OnOk result (Wrote out.old.items (bytes.now) out.new.items) }
{
    out.extend_from_slice(bytes)?;
    Ok(())
}

/// Adds a provider, as the byte 0 or 1.
pub fn put_provider(out: &mut Vec<u8>, provider: Provider) -> Result<(), AllocError>
    ensures { OnOk result (Wrote out.old.items (provider_byte provider ∷ []) out.new.items) }
{
    out.push(provider_byte_of(provider))?;
    Ok(())
}

/// The provider's byte in a frame.
pub fn provider_byte_of(provider: Provider) -> u8
    ensures { result ≡ provider_byte provider }
{
    match provider {
        Provider::Zero => 0,
        Provider::One => 1,
    }
}
