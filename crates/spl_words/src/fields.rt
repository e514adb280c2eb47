//! A cursor over the fields of a frame. Numbers have their highest byte first.
ghost use Rattle.std.specs.Prelude.{◌≡◌, ◌≤◌, ◌<◌, ◌^◌, length, take, IfSome};
ghost use Rattle.std.specs.Int.{w8, w16, w32, w64, w128, from_be_bytes};
ghost use Rattle.spl_words.specs.Cursor.{TakesField};

use std::marker::Model;

/// Lent bytes, and how many of them were read. A field that needs more bytes than are left is `None`,
/// and then the cursor stays.
#[derive(Drop)]
pub struct Fields<'a> {
    bytes: &'a [u8],
    at: usize,
}

impl<'a> Model for Fields<'a> {
    ghost use Rattle.std.specs.Prelude.{◌≤◌, length};
    ghost use Rattle.spl_words.specs.Cursor.{Spot};

    ghost Value = { Spot };

    ghost view = { λ f. record { bytes = f.bytes.now; at = f.at } };

    ghost invariant = { λ f. f.at ≤ length f.bytes.now };
}

impl<'a> Fields<'a> {
    /// The cursor at the front of the bytes.
    pub fn new(bytes: &'a [u8]) -> Fields<'a>
        ensures { result ≡ record { bytes = bytes.now; at = 0 } }
    {
        Fields { bytes, at: 0 }
    }

    /// How many bytes were read.
    pub fn offset(&self) -> u64
        ensures at { result ≡ self.now.at }
        ensures within { result ≤ length self.now.bytes }
        ensures small { length self.now.bytes < 2 ^ 63 }
    {
        self.at as u64
    }

    /// How many bytes there are in all.
    pub fn len(&self) -> u64
        ensures { result ≡ length self.now.bytes }
    {
        self.bytes.len() as u64
    }

    /// The bytes that were read.
    pub fn front(&self) -> &'a [u8]
        ensures { result.now ≡ take self.now.at self.now.bytes }
    {
        &self.bytes[..self.at]
    }

    /// The next `n` bytes.
    pub fn take(&mut self, n: u64) -> Option<&'a [u8]>
        ensures field { TakesField (λ s. s.now) (λ bs. bs) n self.old self.new result }
        ensures len { IfSome result (λ s. length s.now ≡ n) }
    {
        if ((self.bytes.len() - self.at) as u64) < n {
            return None;
        }
        let from = self.at;
        let to = from + n as usize;
        self.at = to;
        Some(&self.bytes[from..to])
    }

    /// The next byte.
    pub fn byte(&mut self) -> Option<u8>
        ensures { TakesField (λ b. b) (λ bs. from_be_bytes w8 bs) 1 self.old self.new result }
    {
        let bytes = self.take(1)?;
        Some(bytes[0])
    }

    /// The number of the next two bytes.
    pub fn be16(&mut self) -> Option<u16>
        ensures { TakesField (λ b. b) (λ bs. from_be_bytes w16 bs) 2 self.old self.new result }
    {
        let b = self.take(2)?;
        Some(u16::from_be_bytes([b[0], b[1]]))
    }

    /// The number of the next four bytes.
    pub fn be32(&mut self) -> Option<u32>
        ensures { TakesField (λ b. b) (λ bs. from_be_bytes w32 bs) 4 self.old self.new result }
    {
        let b = self.take(4)?;
        Some(u32::from_be_bytes([b[0], b[1], b[2], b[3]]))
    }

    /// The number of the next eight bytes.
    pub fn be64(&mut self) -> Option<u64>
        ensures { TakesField (λ b. b) (λ bs. from_be_bytes w64 bs) 8 self.old self.new result }
    {
        let b = self.take(8)?;
        Some(u64::from_be_bytes([b[0], b[1], b[2], b[3], b[4], b[5], b[6], b[7]]))
    }

    /// The number of the next sixteen bytes.
    pub fn be128(&mut self) -> Option<u128>
        ensures { TakesField (λ b. b) (λ bs. from_be_bytes w128 bs) 16 self.old self.new result }
    {
        let b = self.take(16)?;
        Some(u128::from_be_bytes([
            b[0], b[1], b[2], b[3], b[4], b[5], b[6], b[7], b[8], b[9], b[10], b[11], b[12], b[13],
            b[14], b[15],
        ]))
    }

    /// The next 32 bytes, as a digest has.
    pub fn take32(&mut self) -> Option<[u8; 32]>
        ensures { TakesField (λ b. b) (λ bs. bs) 32 self.old self.new result }
    {
        let bytes = self.take(32)?;
        let mut kept = [0; 32];
        kept.copy_from_slice(bytes);
        Some(kept)
    }
}
