//! The texts of frames: why bytes are none, and where two things differ.
ghost use Rattle.std.specs.Prelude.{◌≡◌, ◌++◌, codes, IfOk};
ghost use Rattle.std.specs.String.{string_bytes};
ghost use Rattle.hex.specs.Hex.{encode_lower};
ghost use Rattle.splinter_status.specs.Texts.{provider_text, session_text, frame_fault_text, differ_text};

use spl_words::{Differ, FrameFault, Provider};
use std::alloc::{AllocError, Global};

/// The number of a provider.
pub fn provider_digit(provider: Provider) -> &'static str
    ensures { result.now ≡ provider_text provider }
{
    match provider {
        Provider::Zero => "0",
        Provider::One => "1",
    }
}

/// A session, in 32 hexadecimal digits.
fn session(alloc: Global, session: u128) -> Result<String, AllocError>
    ensures { IfOk result (λ t. string_bytes t ≡ session_text session) }
{
    hex::encode(alloc, session.to_be_bytes())
}

/// Two texts behind a label.
fn pair(alloc: Global, label: &str, wanted: &str, found: &str) -> Result<String, AllocError>
    ensures { IfOk result (λ t. string_bytes t ≡ label.now ++ (wanted.now ++ (codes " " ++ found.now))) }
{
    format!(in alloc; "{label}{wanted} {found}")
}

/// Two digests behind a label, in 64 hexadecimal digits each.
fn digests(
    alloc: Global,
    label: &str,
    wanted: &[u8; 32],
    found: &[u8; 32],
) -> Result<String, AllocError>
    ensures { IfOk result (λ t. string_bytes t ≡ label.now ++ (encode_lower wanted.now ++ (codes " " ++ encode_lower found.now))) }
{
    let wanted = hex::encode(alloc, *wanted)?;
    let found = hex::encode(alloc, *found)?;
    pair(alloc, label, wanted.as_str(), found.as_str())
}

/// Why bytes are no frame.
pub fn frame_fault(alloc: Global, fault: &FrameFault) -> Result<String, AllocError>
    ensures { IfOk result (λ t. string_bytes t ≡ frame_fault_text fault.now) }
{
    match fault {
        FrameFault::Short(needed, had) => format!(in alloc; "short, needed {needed}, had {had}"),
        FrameFault::BadMagic => format!(in alloc; "bad magic"),
        FrameFault::BadVersion(version) => format!(in alloc; "bad version {version}"),
        FrameFault::BadField(at) => format!(in alloc; "bad field at {at}"),
        FrameFault::TooLarge => format!(in alloc; "too large"),
        FrameFault::Trailing(at) => format!(in alloc; "trailing at {at}"),
        FrameFault::BadDigest(stated, computed) => digests(alloc, "bad digest ", stated, computed),
        FrameFault::OutOfMemory => Ok(String::new(alloc)),
    }
}

/// Two sessions that differ.
fn sessions(alloc: Global, wanted: u128, found: u128) -> Result<String, AllocError>
    ensures { IfOk result (λ t. string_bytes t ≡ codes "session " ++ (session_text wanted ++ (codes " " ++ session_text found))) }
{
    let wanted = session(alloc, wanted)?;
    let found = session(alloc, found)?;
    pair(alloc, "session ", wanted.as_str(), found.as_str())
}

/// The digests of the key frames of a provider.
fn keys(
    alloc: Global,
    provider: Provider,
    wanted: &[u8; 32],
    found: &[u8; 32],
) -> Result<String, AllocError>
    ensures { IfOk result (λ t. string_bytes t ≡ differ_text (Differ.Key provider wanted.now found.now)) }
{
    match provider {
        Provider::Zero => digests(alloc, "key 0 ", wanted, found),
        Provider::One => digests(alloc, "key 1 ", wanted, found),
    }
}

/// The first field that differs: what was wanted and then what was found, or Zero's and then One's.
pub fn differ(alloc: Global, differ: &Differ) -> Result<String, AllocError>
    ensures { IfOk result (λ t. string_bytes t ≡ differ_text differ.now) }
{
    match differ {
        Differ::Session(wanted, found) => sessions(alloc, *wanted, *found),
        Differ::Round(wanted, found) => format!(in alloc; "round {wanted} {found}"),
        Differ::Provider(wanted, found) => {
            pair(
                alloc,
                "provider ",
                provider_digit(*wanted),
                provider_digit(*found),
            )
        }
        Differ::Key(provider, wanted, found) => keys(alloc, *provider, wanted, found),
        Differ::Table(wanted, found) => digests(alloc, "table ", wanted, found),
        Differ::Words(wanted, found) => format!(in alloc; "words {wanted} {found}"),
        Differ::ShapeLine(line) => format!(in alloc; "shape line {line}"),
        Differ::Layout(key) => format!(in alloc; "layout key {key}"),
    }
}
