//! The parts of a tree.
use spl_words::Provider;

/// Where a node stands: its tree, the provider that walks, the level, and the number made of the
/// bits that lead there. The order is by tree, provider, level and prefix.
#[derive(Clone, Copy, Debug, PartialEq, Eq, PartialOrd, Ord)]
pub struct Place {
    pub tree: u32,
    pub provider: Provider,
    pub level: u32,
    pub prefix: u128,
}

/// What a node expands to: a seed, a control bit and a word for the left and the right child.
#[derive(Clone, Copy, Debug, PartialEq, Eq)]
pub struct Block {
    pub seed_l: u128,
    pub bit_l: bool,
    pub word_l: u64,
    pub seed_r: u128,
    pub bit_r: bool,
    pub word_r: u64,
}

/// What a key holds for one level: a seed, and a bit for each side. A node whose control bit is set
/// adds them to its children.
#[derive(Clone, Copy, Debug, PartialEq, Eq)]
pub struct Correction {
    pub seed: u128,
    pub bit_l: bool,
    pub bit_r: bool,
}

/// A node: its seed and its control bit.
#[derive(Clone, Copy, Debug, PartialEq, Eq)]
pub struct Node {
    pub seed: u128,
    pub bit: bool,
}
