//! How a case writes words, numbers, bytes and files.
use crate::unread;
use frame_fields::digest_of;
use std::alloc::{AllocError, Global};
use std::io;

/// Adds a word.
fn add_word(alloc: Global, words: &mut Vec<String>, word: &str) -> Result<(), AllocError> {
    words.push(String::from_str(alloc, word)?)?;
    Ok(())
}

/// Adds the words between blanks.
fn add_words(alloc: Global, words: &mut Vec<String>, text: &str) -> Result<(), AllocError> {
    for word in text.split_whitespace() {
        add_word(alloc, words, word)?;
    }
    Ok(())
}

/// Adds a piece between two double quotes as one word, and another one as words.
fn add_piece(
    alloc: Global,
    words: &mut Vec<String>,
    piece: &str,
    quoted: bool,
) -> Result<(), AllocError> {
    if quoted {
        add_word(alloc, words, piece)
    } else {
        add_words(alloc, words, piece)
    }
}

/// The words between blanks; what stands between two double quotes is one word.
pub fn words_of(alloc: Global, text: &str) -> Result<Vec<String>, AllocError> {
    let mut words = Vec::new(alloc);
    for (place, piece) in text.split('"').enumerate() {
        add_piece(alloc, &mut words, piece, place % 2 == 1)?;
    }
    Ok(words)
}

/// A number.
pub fn number_of(text: &str) -> io::Result<u64> {
    text.parse::<u64>().or(Err(unread()))
}

/// The numbers between blanks.
pub fn numbers_of(alloc: Global, text: &str) -> io::Result<Vec<u64>> {
    let mut numbers = Vec::new(alloc);
    for word in text.split_whitespace() {
        numbers.push(number_of(word)?)?;
    }
    Ok(numbers)
}

/// Adds the bytes of hexadecimal digits.
fn add_digits(alloc: Global, bytes: &mut Vec<u8>, digits: &str) -> io::Result<()> {
    match hex::decode(alloc, digits) {
        Ok(more) => Ok(bytes.extend_from_slice(&more)?),
        Err(_) => Err(unread()),
    }
}

/// Adds the bytes of hexadecimal digits, between which blanks may stand.
fn add_bytes(alloc: Global, bytes: &mut Vec<u8>, text: &str) -> io::Result<()> {
    for digits in text.split_whitespace() {
        add_digits(alloc, bytes, digits)?;
    }
    Ok(())
}

/// Adds a piece between two double quotes as itself, and another one as digits.
fn add_part(alloc: Global, bytes: &mut Vec<u8>, piece: &str, quoted: bool) -> io::Result<()> {
    if quoted {
        Ok(bytes.extend_from_slice(piece.as_bytes())?)
    } else {
        add_bytes(alloc, bytes, piece)
    }
}

/// The bytes of hexadecimal digits; what stands between two double quotes is itself.
pub fn bytes_of(alloc: Global, text: &str) -> io::Result<Vec<u8>> {
    let mut bytes = Vec::new(alloc);
    for (place, piece) in text.split('"').enumerate() {
        add_part(alloc, &mut bytes, piece, place % 2 == 1)?;
    }
    Ok(bytes)
}

/// The length and the SHA-256 of bytes.
fn mark_of_bytes(alloc: Global, bytes: &[u8]) -> Result<String, AllocError> {
    let digest = hex::encode(alloc, digest_of(bytes))?;
    format!(in alloc; "{} {digest}", bytes.len())
}

/// What a file is: `absent`, or its length and its SHA-256.
pub fn mark_of(alloc: Global, bytes: Option<&[u8]>) -> Result<String, AllocError> {
    match bytes {
        None => String::from_str(alloc, "absent"),
        Some(bytes) => mark_of_bytes(alloc, bytes),
    }
}
