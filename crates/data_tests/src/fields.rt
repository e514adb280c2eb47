//! Fields are written one behind the other, and read up to the first fault.
use frame_fields::{
    be16, byte, digest, magic, provider_field, put, put_bytes, put_provider, put8, put16, put64,
    put128, start, take, version, within, within16, within32,
};
use spl_words::{Fields, FrameFault, Provider};
use std::alloc::AllocError;

fn put_front(bytes: &mut Vec<u8>) -> Result<(), AllocError> {
    put_bytes(bytes, b"SPLX".as_slice())?;
    put8(bytes, 1)?;
    put_provider(bytes, Provider::One)
}

fn put_numbers(bytes: &mut Vec<u8>) -> Result<(), AllocError> {
    put16(bytes, 0x0203)?;
    put16(bytes, 0x0405)?;
    put64(bytes, 8)?;
    put128(bytes, 9)
}

#[test]
fn fields_are_written_one_behind_the_other(rt: HostRuntime) -> Result<(), AllocError> {
    let mut bytes = Vec::new(rt.alloc());
    put_front(&mut bytes)?;
    put_numbers(&mut bytes)?;
    let wanted =
        b"SPLX\x01\x01\x02\x03\x04\x05\x00\x00\x00\x00\x00\x00\x00\x08\x00\x00\x00\x00\x00\x00\x00\x00\x00\x00\x00\x00\x00\x00\x00\x09";
    assert_eq!(rt; bytes.as_slice(), wanted.as_slice());
    Ok(())
}

#[test]
fn bytes_are_put_at_their_place(rt: HostRuntime) {
    let mut room = [0; 4];
    let at = put(&mut room, 1, &[5, 6]);
    assert_eq!(rt; (at, room), (3, [0, 5, 6, 0]));
}

/// Four letters, a version, a provider, a number, a text, and three bytes more.
const FIELDS: &[u8] = b"SPLX\x01\x01\x00\x07abc\xff\x00\x00";

#[test]
fn other_letters_are_refused(rt: HostRuntime) -> Result<(), FrameFault> {
    let mut fields = start(FIELDS)?;
    let found = magic(&mut fields, b"SPLY".as_slice());
    assert_eq!(rt; found, Err(FrameFault::BadMagic));
    Ok(())
}

/// The provider behind the letters and the version.
fn provider_of(fields: &mut Fields) -> Result<Provider, FrameFault> {
    magic(fields, b"SPLX".as_slice())?;
    version(fields, 1)?;
    provider_field(fields)
}

/// Whether provider 1, the number 7 and the text `abc` come in turn.
fn is_front(fields: &mut Fields) -> Result<bool, FrameFault> {
    let provider = provider_of(fields)?;
    let number = within16(fields, 7, 7)?;
    let text = take(fields, 3)?;
    Ok(provider == Provider::One && number == 7 && text == b"abc".as_slice())
}

#[test]
fn fields_are_read_in_their_order(rt: HostRuntime) -> Result<(), FrameFault> {
    let mut fields = start(FIELDS)?;
    assert_eq!(rt; is_front(&mut fields), Ok(true));
    Ok(())
}

/// Whether the last three bytes are a byte past its bound and a number, and too few for another.
fn are_last(fields: &mut Fields) -> bool {
    let bound = within(fields, 0, 0xfe) == Err(FrameFault::BadField(11));
    let wide = within32(fields, 0, 9) == Err(FrameFault::Short(16, 14));
    let number = be16(fields) == Ok(0);
    let more = byte(fields) == Err(FrameFault::Short(15, 14));
    bound && wide && number && more
}

#[test]
fn fields_are_read_up_to_the_first_fault(rt: HostRuntime) -> Result<(), FrameFault> {
    let mut fields = start(FIELDS)?;
    take(&mut fields, 11)?;
    assert!(rt; are_last(&mut fields));
    Ok(())
}

/// A text and its digest, which is that of FIPS 180-4's example, and a byte more.
const SEALED: &[u8] =
    b"abc\xba\x78\x16\xbf\x8f\x01\xcf\xea\x41\x41\x40\xde\x5d\xae\x22\x23\xb0\x03\x61\xa3\x96\x17\x7a\x9c\xb4\x10\xff\x61\xf2\x00\x15\xad\x00";

/// Whether a digest follows so many bytes and ends the frame.
fn sealed(bytes: &[u8], taken: u8) -> Result<(), FrameFault> {
    let mut fields = start(bytes)?;
    take(&mut fields, u64::from(taken))?;
    digest(&mut fields)
}

#[test]
fn a_digest_is_the_last_field(rt: HostRuntime) {
    let whole = &SEALED[..35];
    let found = [sealed(whole, 3), sealed(SEALED, 3), sealed(whole, 2)];
    assert_eq!(rt;
        found,
        [
            Ok(()),
            Err(FrameFault::Trailing(35)),
            Err(FrameFault::Trailing(34)),
        ]
    );
}

#[test]
fn a_digest_of_other_bytes_is_refused(rt: HostRuntime) {
    let found = sealed(&SEALED[1..35], 2);
    assert!(rt; matches!(found, Err(FrameFault::BadDigest(..))));
}
