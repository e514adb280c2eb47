//! Texts that are kept as numbers: their bytes padded with 0 to 16 bytes, the first byte highest.
ghost use Rattle.std.specs.Prelude.{◌≡◌, [], ◌∷◌, ◌+◌, ◌-◌, ◌*◌, ◌^◌, ◌<◌, ◌≤◌, ◌↔◌, false, IsTrue, IfOk, IfSome, IfNone, MatchOption, length};
ghost use Rattle.std.specs.List.{list_all};
ghost use Rattle.spl_values.specs.Kinds.{is_printable, text_of, unpadded, IsText, padded};

use std::alloc::{AllocError, Global};

/// Whether a byte is printable ASCII.
pub fn is_printable(byte: u8) -> bool
    ensures { result ≡ is_printable byte }
{
    byte >= 0x20 && byte <= 0x7e
}

/// The first byte of the text of at most so many bytes that is kept as that number, and the number of
/// the text behind it.
fn first_byte(kept: u128, places: u32) -> Option<(u8, u128)>
    requires few { places ≤ 16 }
    requires below { kept < 256 ^ places }
    ensures { MatchOption result (unpadded places kept ≡ []) (λ p. (0 < places) × (p.1 < 256 ^ (places - 1)) × (unpadded places kept ≡ p.0 ∷ unpadded (places - 1) p.1)) }
{
    if kept == 0 || places == 0 {
        return None;
    }
    let unit = 1u128 << (8 * (places - 1));
    Some(((kept / unit) as u8, kept % unit))
}

/// The number of bytes of the text that is kept as that number, if all of them are printable.
fn text_len(kept: u128) -> Option<u32>
    ensures printable { IfSome result (λ n. IsTrue (list_all is_printable (text_of kept)) × (n ≡ length (text_of kept))) }
    ensures other { IfNone result (list_all is_printable (text_of kept) ≡ false) }
{
    let mut rest = kept;
    let mut places = 16u32;
    while let Some((byte, behind)) = first_byte(rest, places) {
        if !is_printable(byte) {
            return None;
        }
        rest = behind;
        places -= 1;
    }
    Some(16 - places)
}

/// Whether that number keeps a text of no more than so many bytes.
pub fn is_text(bytes: u32, kept: u128) -> bool
    ensures { IsTrue result ↔ IsText bytes (text_of kept) }
{
    match text_len(kept) {
        Some(len) => len <= bytes,
        None => false,
    }
}

/// The number that keeps a text of no more than 16 bytes.
pub fn keep(text: &[u8]) -> u128
    requires { IsText 16 text.now }
    ensures { result ≡ padded 16 text.now }
{
    let mut kept = 0;
    for (place, byte) in text.iter().enumerate() {
        kept += (*byte as u128) << (8 * (15 - place));
    }
    kept
}

/// The bytes of the text that is kept as that number.
pub fn bytes_of(alloc: Global, kept: u128) -> Result<Vec<u8>, AllocError>
    requires { IsTrue (list_all is_printable (text_of kept)) }
    ensures { IfOk result (λ text. text.items ≡ text_of kept) }
{
    let mut text = Vec::new(alloc);
    let mut rest = kept;
    let mut places = 16u32;
    while let Some((byte, behind)) = first_byte(rest, places) {
        text.push(byte)?;
        rest = behind;
        places -= 1;
    }
    Ok(text)
}
