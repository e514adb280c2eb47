//! Whether a frame's shape is the table's.
ghost use Rattle.std.specs.Prelude.{◌≡◌, ◌≤◌, ◌↔◌, IsTrue, IfErr, Some, length, slice_get};
ghost use Rattle.spl_words.specs.Results.{Gives};
ghost use Rattle.spl_values.specs.ShapeTexts.{shape_text};
ghost use Rattle.provider_core.specs.Asking.{if_same_text};
ghost use Rattle.provider_core.specs.Faults.{OwnsMemory};
ghost use Rattle.provider_core.specs.Lines.{first_line as line_of_difference};
ghost use Rattle.provider_core.specs.declared.fault.ProviderFault.TheVariants.{OutOfMemory};

use crate::fault::ProviderFault;
use spl_values::{Shape, print_shape};
use std::alloc::Global;

/// Whether the byte at a place of a text is that one.
fn has_byte(text: &[u8], place: usize, byte: u8) -> bool
    ensures { IsTrue result ↔ (slice_get text.now place ≡ Some byte) }
{
    match text.get(place) {
        Some(found) => *found == byte,
        None => false,
    }
}

/// The first line, from 1, at which two texts differ.
fn first_line(a: &[u8], b: &[u8]) -> u32
    requires { length a.now ≤ 51700 }
    ensures { result ≡ line_of_difference a.now b.now }
{
    let mut line = 1;
    for (place, byte) in a.iter().enumerate() {
        if !has_byte(b, place, *byte) {
            return line;
        }
        if *byte == b'\n' {
            line += 1;
        }
    }
    line
}

/// Whether two texts are one.
fn check_text(a: &[u8], b: &[u8]) -> Result<(), ProviderFault>
    requires { length a.now ≤ 51700 }
    ensures { result ≡ if_same_text a.now b.now }
{
    if a == b {
        Ok(())
    } else {
        Err(ProviderFault::ShapeDiffers(first_line(a, b)))
    }
}

/// Whether the canonical text of a frame's shape is that of the table's.
pub fn check_shape(alloc: Global, shape: &Shape, own: &Shape) -> Result<(), ProviderFault>
    ensures gives { Gives OutOfMemory (λ x. x) result (if_same_text (shape_text shape.now) (shape_text own.now)) }
    ensures memory { IfErr result OwnsMemory }
{
    // What a shape keeps is known once it is read.
    let _ = &shape.schema;
    let text = print_shape(alloc, shape)?;
    let own_text = print_shape(alloc, own)?;
    check_text(text.as_slice(), own_text.as_slice())
}
