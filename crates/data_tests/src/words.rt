//! Words wrap, numbers lie below their bits, fields are read in order, and lists keep what they hold.
use spl_words::{
    Fields, Numbers, Places, Provider, ShareFn, TreeKind, TreeSecret, Words, below, minus, other,
    plus, signed, times,
};
use std::alloc::{AllocError, Global};

#[test]
fn words_wrap(rt: HostRuntime) {
    let found = [
        plus(u64::MAX, 2),
        minus(1, 2),
        times(1 << 63, 3),
        signed(Provider::Zero, 7),
        signed(Provider::One, 7),
        signed(other(Provider::Zero), 0),
    ];
    assert_eq!(rt;
        found,
        [1, u64::MAX, 1 << 63, 7, 18_446_744_073_709_551_609, 0]
    );
}

#[test]
fn numbers_are_below_their_bits(rt: HostRuntime) {
    let found = [
        below(0, 0),
        below(255, 8),
        below(u128::MAX, 128),
        below(1, 0),
        below(256, 8),
        below(u128::MAX, 127),
    ];
    assert_eq!(rt; found, [true, true, true, false, false, false]);
}

/// A byte, numbers of 2, 4, 8 and 16 bytes, and four bytes more.
const FIELDS: &[u8] =
    b"\x01\x00\x02\x00\x00\x00\x03\x00\x00\x00\x00\x00\x00\x01\x00\x00\x00\x00\x00\x00\x00\x00\x01\x00\x00\x00\x00\x00\x00\x00\x05abcd";

/// Whether a byte and the numbers of each length come in turn.
fn are_numbers(fields: &mut Fields) -> bool {
    let narrow = (fields.byte(), fields.be16(), fields.be32());
    let wide = (fields.be64(), fields.be128());
    narrow == (Some(1), Some(2), Some(3)) && wide == (Some(256), Some((1 << 64) + 5))
}

/// Whether four bytes are left behind 31, and no more are given.
fn are_last(fields: &mut Fields) -> bool {
    let more = fields.take(5).is_some() || fields.take32().is_some();
    let front = fields.front().len();
    let last = fields.take(4).map_or(0, |bytes| bytes.len());
    !more && front == 31 && last == 4 && fields.byte().is_none()
}

#[test]
fn fields_are_read_in_order(rt: HostRuntime) {
    let mut fields = Fields::new(FIELDS);
    assert!(rt; are_numbers(&mut fields));
    assert_eq!(rt; (fields.offset(), fields.len()), (31, 35));
}

#[test]
fn fields_past_the_end_are_none(rt: HostRuntime) {
    let mut fields = Fields::new(FIELDS);
    assert!(rt; are_numbers(&mut fields) && are_last(&mut fields));
}

/// Whether a list of words is equal to its clone, and is emptied by taking its items.
fn are_words(mut words: Words) -> Result<bool, AllocError> {
    let again = words.clone()? == words;
    let taken = words.take();
    Ok(again && taken.as_slice() == [7].as_slice() && words.as_slice().is_empty())
}

fn keeps_words(alloc: Global) -> Result<bool, AllocError> {
    let mut words = Words::new(alloc);
    words.push(7)?;
    are_words(words)
}

/// Whether a list with a number isn't equal to one with none.
fn keeps_numbers(alloc: Global) -> Result<bool, AllocError> {
    let mut numbers = Numbers::new(alloc);
    numbers.push(u128::MAX)?;
    let again = numbers.clone()?;
    Ok(again == numbers && again != Numbers::new(alloc) && numbers.as_slice().len() == 1)
}

fn keeps_places(alloc: Global) -> Result<bool, AllocError> {
    let mut places = Places::new(alloc);
    places.push(3)?;
    Ok(places.clone()? == places)
}

#[test]
fn lists_hold_their_items(rt: HostRuntime) {
    let found = [
        keeps_words(rt.alloc()),
        keeps_numbers(rt.alloc()),
        keeps_places(rt.alloc()),
    ];
    assert_eq!(rt; found, [Ok(true); 3]);
}

/// Twice the number, for numbers of four bits.
struct Double;

impl ShareFn for Double {
    ghost use Rattle.std.specs.Prelude.{◌*◌};

    ghost bits = { λ _. 4 };

    ghost word = { λ _ x. 2 * x };

    fn depth(&self) -> u32 {
        4
    }

    fn share(&self, x: u128) -> u64 {
        x as u64 * 2
    }
}

fn share_at_nine<F: ShareFn>(f: &F) -> Option<u64> {
    if f.depth() == 4 {
        Some(f.share(9))
    } else {
        None
    }
}

#[test]
fn a_function_of_shares(rt: HostRuntime) {
    assert_eq!(rt; share_at_nine(&Double), Some(18));
}

#[test]
fn a_secret_lies_below_its_depth(rt: HostRuntime) {
    let secret = TreeSecret {
        kind: TreeKind::Point,
        depth: 4,
        alpha: 9,
        beta: 1,
    };
    assert!(rt; secret == secret && below(secret.alpha, secret.depth));
}
