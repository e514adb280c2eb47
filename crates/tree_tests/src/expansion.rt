//! Seeds are expanded by the toy sums and by ChaCha20.
use seed_expansion::{Block, ChaChaExpander, Expander, Place, ToyExpander};
use spl_words::Provider;

/// The block and the leaf word of a seed, at any place.
fn expanded<E: Expander>(expander: &E, seed: u128) -> (Block, u64) {
    let place = Place {
        tree: 3,
        provider: Provider::One,
        level: 2,
        prefix: 1,
    };
    (expander.block(place, seed), expander.leaf(place, seed))
}

#[test]
fn toy_sums_wrap(rt: HostRuntime) {
    let (block, leaf) = expanded(&ToyExpander, u128::MAX - 1);
    let want = Block {
        seed_l: u128::MAX,
        bit_l: false,
        word_l: 18_446_744_073_709_551_614,
        seed_r: 0,
        bit_r: true,
        word_r: 18_446_744_073_709_551_612,
    };
    assert_eq!(rt; (block, leaf), (want, 18_446_744_073_709_551_610));
}

#[test]
fn toy_sums_of_a_small_seed(rt: HostRuntime) {
    let (block, leaf) = expanded(&ToyExpander, 5);
    let seeds = (block.seed_l, block.bit_l, block.seed_r, block.bit_r);
    assert_eq!(rt; seeds, (6, true, 7, false));
    assert_eq!(rt; [block.word_r, leaf], [10, 15]);
}

/// The key stream of the key of zeros begins with the bytes 76 b8 e0 ad a0 f1 3d 90 40 5d 6a e5 53
/// 86 bd 28 bd d2 19 b8 a0 8d ed 1a a8 36 ef cc 8b 77 0d c7 da 41 59 7c 51 57 48 8d 77 24 e0 3f b8
/// d8 4a 37 6a 43 b8 f4 (RFC 8439, appendix A.1), four to a word, the lowest first.
#[test]
fn chacha_words_are_those_of_its_key_stream(rt: HostRuntime) {
    let (block, _) = expanded(&ChaChaExpander, 0);
    let want = Block {
        seed_l: 0xade0_b876_903d_f1a0_e56a_5d40_28bd_8653,
        bit_l: false,
        word_l: 0x8d48_5751_3fe0_2477,
        seed_r: 0xb819_d2bd_1aed_8da0_ccef_36a8_c70d_778b,
        bit_r: true,
        word_r: 0x374a_d8b8_f4b8_436a,
    };
    assert_eq!(rt; block, want);
}
