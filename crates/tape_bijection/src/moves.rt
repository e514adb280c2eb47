//! What comes to the other provider's places.
ghost use Rattle.std.specs.Prelude.{◌≡◌};
ghost use Rattle.seed_expansion.specs.Walk.{seed_at};
ghost use Rattle.interval_keys.specs.Thresholds.{target};
ghost use Rattle.tape_bijection.specs.Moves.{moved, moved_level_word, moved_seed, moved_word, sigma};

use interval_keys::{ThresholdLevel, level_word_of, target_of};
use seed_expansion::{Block, word_of};
use spl_words::{Provider, TreeKind, minus, plus, times};

/// What a block moves by at a level, beside the blocks there.
#[derive(Clone, Copy, Debug)]
pub struct Move {
    pub kind: TreeKind,
    /// The provider whose key is kept.
    pub provider: Provider,
    /// Its bit on the second path.
    pub bit: bool,
    /// The word of the second secret.
    pub beta: u64,
    /// Whether the first path goes to the right.
    pub keep: bool,
    /// Whether the second path does.
    pub keep2: bool,
}

/// The bit of `Zero` minus that of `One`, where the kept provider has this bit and the other one the
/// opposite.
fn sign_of(provider: Provider, bit: bool) -> u64
    ensures { result ≡ sigma provider bit }
{
    let twice = 2 * u64::from(bit);
    match provider {
        Provider::Zero => minus(twice, 1),
        Provider::One => minus(1, twice),
    }
}

/// The other provider's word, where the kept one has this bit and word, the key has `key_word`, and
/// the two terms have to add to `goal`.
#[tactic(auto, unfolding(crate::specs::Moves::moved_word))]
pub fn moved_word_of(provider: Provider, bit: bool, word: u64, key_word: u64, goal: u64) -> u64
    ensures { result ≡ moved_word provider bit word key_word goal }
{
    let signed = times(sign_of(provider, bit), key_word);
    match provider {
        Provider::Zero => minus(plus(word, signed), goal),
        Provider::One => minus(plus(word, goal), signed),
    }
}

/// The word on one side: in a point tree the other provider's own.
fn level_word(turn: Move, row: &ThresholdLevel, theirs: &Block, own: &Block, right: bool) -> u64
    ensures { result ≡ moved_level_word turn.kind turn.provider turn.bit (target turn.keep2 turn.beta right) row.now theirs.now own.now right }
{
    match turn.kind {
        TreeKind::Point => word_of(right, theirs),
        TreeKind::Threshold => moved_word_of(
            turn.provider,
            turn.bit,
            word_of(right, own),
            level_word_of(right, row),
            target_of(turn.keep2, turn.beta, right),
        ),
    }
}

/// A block's seed on one side.
fn seed_of(right: bool, block: &Block) -> u128
    ensures { result ≡ seed_at right block.now }
{
    if right { block.seed_r } else { block.seed_l }
}

/// The seed on one side: where the second path goes, the one that the first path had.
fn level_seed(turn: Move, row: &ThresholdLevel, theirs: &Block, own: &Block, right: bool) -> u128
    ensures { result ≡ moved_seed turn.keep turn.keep2 right row.now.correction theirs.now own.now }
{
    if right == turn.keep2 {
        seed_of(turn.keep, theirs)
    } else {
        row.correction.seed ^ seed_of(right, own)
    }
}

/// The block that comes to the second path, from the key's level, the other provider's block on the
/// first path and the kept provider's on the second.
#[tactic(auto, unfolding(crate::specs::Moves::moved))]
pub fn moved_of(turn: Move, row: &ThresholdLevel, theirs: &Block, own: &Block) -> Block
    ensures { result ≡ moved turn.keep turn.keep2 row.now.correction theirs.now own.now (λ d. moved_level_word turn.kind turn.provider turn.bit (target turn.keep2 turn.beta d) row.now theirs.now own.now d) }
{
    Block {
        seed_l: level_seed(turn, row, theirs, own, false),
        bit_l: row.correction.bit_l ^ own.bit_l ^ !turn.keep2,
        word_l: level_word(turn, row, theirs, own, false),
        seed_r: level_seed(turn, row, theirs, own, true),
        bit_r: row.correction.bit_r ^ own.bit_r ^ turn.keep2,
        word_r: level_word(turn, row, theirs, own, true),
    }
}
