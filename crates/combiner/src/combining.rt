//! The words of both answers, added.
ghost use Rattle.std.specs.Prelude.{◌≡◌, ◌^◌, ◌-◌, length, min, Err, IfOk};
ghost use Rattle.spl_words.specs.Results.{Is};
ghost use Rattle.combiner.specs.declared.combining.CombineFault.TheVariants as fault;
ghost use Rattle.combiner.specs.Combining.{by_provider as in_order, key_of, agree as agreed, answers as answers_to, same_tables, noted_table, added, combined};
ghost use Rattle.spl_words.specs.Results.{Gives};

use answer_frames::AnswerFrame;
use key_frames::Note;
use spl_words::{Differ, Provider, Words, plus};
use std::alloc::{AllocError, Global};

/// Why two answers can't be combined.
#[derive(Clone, Copy, Debug, PartialEq, Eq)]
pub enum CombineFault {
    /// Both are answers of this provider.
    SameProvider(Provider),
    /// The first two values that have to agree and don't.
    Differ(Differ),
    /// There was no memory for it.
    OutOfMemory,
}

impl From<AllocError> for CombineFault {
    ghost from_gives = { λ _ e. e ≡ fault.OutOfMemory };

    fn from(_: AllocError) -> Self {
        CombineFault::OutOfMemory
    }
}

/// The answer of Zero and that of One.
fn by_provider<'a>(
    a: &'a AnswerFrame,
    b: &'a AnswerFrame,
) -> Result<(&'a AnswerFrame, &'a AnswerFrame), CombineFault>
    ensures { Is (λ both. (both.0.now, both.1.now)) result (in_order a.now.provider b.now.provider a.now b.now) }
{
    match (a.provider, b.provider) {
        (Provider::Zero, Provider::One) => Ok((a, b)),
        (Provider::One, Provider::Zero) => Ok((b, a)),
        (Provider::Zero, Provider::Zero) => Err(CombineFault::SameProvider(Provider::Zero)),
        (Provider::One, Provider::One) => Err(CombineFault::SameProvider(Provider::One)),
    }
}

/// Refuses where two values differ.
fn agree(same: bool, differ: Differ) -> Result<(), CombineFault>
    ensures { result ≡ agreed same differ }
{
    if same {
        Ok(())
    } else {
        Err(CombineFault::Differ(differ))
    }
}

/// The digest of the key frame that a provider was sent.
fn key_of(note: &Note, provider: Provider) -> [u8; 32]
    ensures { result ≡ key_of note.now provider }
{
    match provider {
        Provider::Zero => note.key_zero,
        Provider::One => note.key_one,
    }
}

/// A number of words, up to the end of its type.
fn capped(words: usize) -> u32
    ensures { result ≡ min words (2 ^ 32 - 1) }
{
    words.min(u32::MAX as usize) as u32
}

/// Refuses what isn't a provider's answer of so many words to the session that the note is of.
#[tactic(auto, unfolding(crate::specs::Combining::answers))]
fn answers(
    note: &Note,
    expected: u32,
    provider: Provider,
    answer: &AnswerFrame,
) -> Result<(), CombineFault>
    ensures { result ≡ answers_to note.now expected provider answer.now }
{
    agree(
        note.session == answer.session,
        Differ::Session(note.session, answer.session),
    )?;
    agree(
        note.round == answer.round,
        Differ::Round(note.round, answer.round),
    )?;
    let key = key_of(note, provider);
    agree(key == answer.key, Differ::Key(provider, key, answer.key))?;
    let words = answer.words.as_slice().len();
    agree(
        expected as usize == words,
        Differ::Words(expected, capped(words)),
    )
}

/// Refuses answers over different tables.
fn check_tables(zero: &AnswerFrame, one: &AnswerFrame) -> Result<(), CombineFault>
    ensures { result ≡ same_tables zero.now one.now }
{
    agree(
        zero.table == one.table,
        Differ::Table(zero.table, one.table),
    )
}

/// Refuses an answer over another table than the one that the note of a second round names.
fn check_noted(note: &Note, zero: &AnswerFrame) -> Result<(), CombineFault>
    ensures { result ≡ noted_table note.now zero.now }
{
    if note.round != 2 {
        return Ok(());
    }
    agree(
        note.table == zero.table,
        Differ::Table(note.table, zero.table),
    )
}

/// The sums of the words at each place.
fn add_words(alloc: Global, zero: &[u64], one: &[u64]) -> Result<Words, AllocError>
    requires { length zero.now ≡ length one.now }
    ensures { IfOk result (λ sums. sums ≡ added zero.now one.now) }
{
    let mut sums = Vec::with_capacity(alloc, zero.len())?;
    for (i, word) in zero.iter().enumerate() {
        sums.push(plus(*word, one[i]))?;
    }
    Ok(Words::from_vec(sums))
}

/// The sums, modulo 2^64, of the words of the two answers to a note's session, which may come in either order. Each has to
/// have so many words as expected.
///
/// # Errors
///
/// `SameProvider` where both answers are of one provider. Else `Differ` at the first two values that differ: of Zero's
/// answer and then of One's the session, the round, the digest of the key frame and the number of words, each behind the
/// note's or the expected one; then the two tables, Zero's before One's; then, in a note of the second round, its table
/// before that of Zero's answer. Or want of memory.
#[tactic(auto, unfolding(crate::specs::Combining::combined))]
pub fn combine_words(
    alloc: Global,
    note: &Note,
    a: &AnswerFrame,
    b: &AnswerFrame,
    expected: u32,
) -> Result<Words, CombineFault>
    ensures gives { Gives fault.OutOfMemory (λ words. words) result (combined note.now a.now b.now expected) }
    // What refuses them is told however little memory there is.
    ensures refusals { (e : CombineFault) → combined note.now a.now b.now expected ≡ Err e → result ≡ Err e }
    ensures length { IfOk result (λ words. length words ≡ expected) }
{
    let (zero, one) = by_provider(a, b)?;
    answers(note, expected, Provider::Zero, zero)?;
    answers(note, expected, Provider::One, one)?;
    check_tables(zero, one)?;
    check_noted(note, zero)?;
    Ok(add_words(alloc, zero.words.as_slice(), one.words.as_slice())?)
}
