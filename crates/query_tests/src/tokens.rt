//! Tokens begin at their places, the last of which may form none.
use query_grammar::Token;
use query_tokens::tokens;
use std::alloc::{AllocError, Global};

/// A text, where its tokens begin, and whether the last place forms a token.
type PlaceCase = (&'static [u8], &'static [u64], bool);

const PLACES: &[PlaceCase] = &[
    (b"", &[], true),
    (b" \t\r\n", &[], true),
    (b"12a", &[0, 2], true),
    (b"a12", &[0], true),
    (b"a\t=\r\n?;", &[0, 2, 5, 6], true),
    (b"(*),=?;", &[0, 1, 2, 3, 4, 5, 6], true),
    (b"a # b", &[0, 2], false),
    (b"c = 'ab''", &[0, 2, 4, 8], false),
    (b"'it''s'''x", &[0, 9], true),
    (b"''''''", &[0], true),
    (b"'open", &[0], false),
    (b"'a\tb'", &[0], false),
    (b"a_9 18446744073709551615", &[0, 4], true),
    (b"a_9 00018446744073709551616", &[0, 4], false),
    (b"abcdefghijklmnopqrstuvwxyz_12345 x", &[0, 33], true),
    (b"x abcdefghijklmnopqrstuvwxyz_123456", &[0, 2], false),
];

/// Whether those are the places of a text's tokens, and the last of them forms one.
fn are_places(
    alloc: Global,
    text: &[u8],
    places: &[u64],
    formed: bool,
) -> Result<bool, AllocError> {
    let mut found = Vec::new(alloc);
    let mut last = true;
    for placed in tokens(alloc, text)? {
        found.push(placed.at)?;
        last = !matches!(placed.token, Token::Nothing);
    }
    Ok(found.as_slice() == places && last == formed)
}

/// The first text whose tokens begin elsewhere.
fn first_other(alloc: Global) -> Option<usize> {
    for (at, (text, places, formed)) in PLACES.iter().enumerate() {
        if are_places(alloc, text, places, *formed) != Ok(true) {
            return Some(at);
        }
    }
    None
}

#[test]
fn tokens_begin_at_their_places(rt: HostRuntime) {
    assert_eq!(rt; first_other(rt.alloc()), None);
}
