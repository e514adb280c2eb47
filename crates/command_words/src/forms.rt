//! The words of the command line, read as a command.
ghost use Rattle.std.specs.Prelude.{◌≡◌, map, IfOk, IsTrue};
ghost use Rattle.std.specs.String.{string_bytes};
ghost use Rattle.clap.specs.Words.{found_of, rows_of};
ghost use Rattle.command_words.specs.Forms.{are_apart, workers_of, provider_among, outputs_of, trace_of, trace_form, keys_of, keys_form, answer_of, answer_form, combine_of, combine_form, form_of};
ghost use Rattle.command_words.specs.Views.{trace_order, keys_order, answer_order, combine_order, order, Means, IsWorkers, AreApart, IsInBounds};

use crate::arguments::{answer_app, combine_app, keys_app, trace_app};
use crate::command::{AnswerWords, CombineWords, Command, KeysWords, TraceWords};
use crate::fault::FormFault;
use crate::numbers::{provider_in, workers_in};
use crate::values::{matches_of, some_words, word};
use clap::ArgMatches;
use spl_words::Provider;
use std::alloc::Global;

/// The number of workers in what `clap` read.
#[tactic(auto, unfolding(crate::specs::Forms::workers_of))]
fn workers_of(matches: &ArgMatches) -> Result<usize, FormFault>
    ensures means { Means (λ n. n) result (workers_of (rows_of (found_of matches.now))) }
    ensures bounds { IfOk result IsWorkers }
{
    workers_in(word(matches, "workers")?)
}

/// The words of `trace` in what `clap` read.
#[tactic(auto, unfolding(crate::specs::Forms::trace_of))]
fn trace_of<'a>(alloc: Global, matches: &ArgMatches<'a>) -> Result<TraceWords<'a>, FormFault>
    ensures means { Means trace_order result (trace_of (rows_of (found_of matches.now))) }
    ensures workers { IfOk result (λ w. IsWorkers w.workers) }
{
    Ok(TraceWords {
        shape: word(matches, "shape")?,
        table: word(matches, "table")?,
        query: word(matches, "query")?,
        workers: workers_of(matches)?,
        parameters: some_words(alloc, matches, "parameter")?,
    })
}

/// The words of `trace`.
#[tactic(auto, unfolding(crate::specs::Forms::trace_form))]
fn trace_words<'a>(alloc: Global, words: &'a [String]) -> Result<TraceWords<'a>, FormFault>
    ensures means { Means trace_order result (trace_form (map string_bytes words.entry.now)) }
    ensures workers { IfOk result (λ w. IsWorkers w.workers) }
{
    let matches = matches_of(trace_app(alloc)?, words)?;
    trace_of(alloc, &matches)
}

/// Whether no two of three names are equal.
fn are_apart(a: &str, b: &str, c: &str) -> bool
    ensures is { result ≡ are_apart a.now b.now c.now }
    ensures apart { IsTrue result → AreApart a.now b.now c.now }
{
    a != b && a != c && b != c
}

/// The names of the files that `keys` writes: the note and both key files.
#[tactic(auto, unfolding(crate::specs::Forms::outputs_of))]
fn outputs_of<'a>(matches: &ArgMatches<'a>) -> Result<(&'a str, &'a str, &'a str), FormFault>
    ensures means { Means (λ names. (names.0.now, names.1.now, names.2.now)) result (outputs_of (rows_of (found_of matches.now))) }
    ensures apart { IfOk result (λ names. AreApart names.0.now names.1.now names.2.now) }
{
    let note = word(matches, "note")?;
    let key_zero = word(matches, "key0")?;
    let key_one = word(matches, "key1")?;
    if are_apart(note, key_zero, key_one) {
        Ok((note, key_zero, key_one))
    } else {
        Err(FormFault::Usage)
    }
}

/// The words of `keys` in what `clap` read.
#[tactic(auto, unfolding(crate::specs::Forms::keys_of))]
fn keys_of<'a>(alloc: Global, matches: &ArgMatches<'a>) -> Result<KeysWords<'a>, FormFault>
    ensures means { Means keys_order result (keys_of (rows_of (found_of matches.now))) }
    ensures apart { IfOk result (λ w. AreApart w.note.now w.key_zero.now w.key_one.now) }
{
    let shape = word(matches, "shape")?;
    let query = word(matches, "query")?;
    let (note, key_zero, key_one) = outputs_of(matches)?;
    Ok(KeysWords {
        shape,
        query,
        note,
        key_zero,
        key_one,
        parameters: some_words(alloc, matches, "parameter")?,
    })
}

/// The words of `keys`.
#[tactic(auto, unfolding(crate::specs::Forms::keys_form))]
fn keys_words<'a>(alloc: Global, words: &'a [String]) -> Result<KeysWords<'a>, FormFault>
    ensures means { Means keys_order result (keys_form (map string_bytes words.entry.now)) }
    ensures apart { IfOk result (λ w. AreApart w.note.now w.key_zero.now w.key_one.now) }
{
    let matches = matches_of(keys_app(alloc)?, words)?;
    keys_of(alloc, &matches)
}

/// The provider in what `clap` read.
#[tactic(auto, unfolding(crate::specs::Forms::provider_among))]
fn provider_of(matches: &ArgMatches) -> Result<Provider, FormFault>
    ensures { Means (λ p. p) result (provider_among (rows_of (found_of matches.now))) }
{
    provider_in(word(matches, "provider")?)
}

/// The words of `answer` in what `clap` read.
#[tactic(auto, unfolding(crate::specs::Forms::answer_of))]
fn answer_of<'a>(matches: &ArgMatches<'a>) -> Result<AnswerWords<'a>, FormFault>
    ensures means { Means answer_order result (answer_of (rows_of (found_of matches.now))) }
    ensures workers { IfOk result (λ w. IsWorkers w.workers) }
{
    Ok(AnswerWords {
        provider: provider_of(matches)?,
        shape: word(matches, "shape")?,
        table: word(matches, "table")?,
        key: word(matches, "key")?,
        out: word(matches, "out")?,
        workers: workers_of(matches)?,
    })
}

/// The words of `answer`.
#[tactic(auto, unfolding(crate::specs::Forms::answer_form))]
fn answer_words<'a>(alloc: Global, words: &'a [String]) -> Result<AnswerWords<'a>, FormFault>
    ensures means { Means answer_order result (answer_form (map string_bytes words.entry.now)) }
    ensures workers { IfOk result (λ w. IsWorkers w.workers) }
{
    let matches = matches_of(answer_app(alloc)?, words)?;
    answer_of(&matches)
}

/// The words of `combine` in what `clap` read.
#[tactic(auto, unfolding(crate::specs::Forms::combine_of))]
fn combine_of<'a>(matches: &ArgMatches<'a>) -> Result<CombineWords<'a>, FormFault>
    ensures { Means combine_order result (combine_of (rows_of (found_of matches.now))) }
{
    Ok(CombineWords {
        note: word(matches, "note")?,
        first: word(matches, "first")?,
        second: word(matches, "second")?,
    })
}

/// The words of `combine`.
#[tactic(auto, unfolding(crate::specs::Forms::combine_form))]
fn combine_words<'a>(alloc: Global, words: &'a [String]) -> Result<CombineWords<'a>, FormFault>
    ensures { Means combine_order result (combine_form (map string_bytes words.entry.now)) }
{
    let matches = matches_of(combine_app(alloc)?, words)?;
    combine_of(&matches)
}

/// The command that the words mean. The first one names it, and `clap` reads the rest.
///
/// Words that begin with `-` and aren't the option stand after `--`. It answers `Usage` exactly where
/// the words have the form of no command, unless memory was short.
#[tactic(auto, unfolding(crate::specs::Forms::form_of))]
pub fn command_of<'a>(alloc: Global, words: &'a [String]) -> Result<Command<'a>, FormFault>
    ensures means { Means order result (form_of (map string_bytes words.entry.now)) }
    ensures bounds { IfOk result IsInBounds }
{
    match words {
        [] => Err(FormFault::Usage),
        [name, ..] => match name.as_str() {
            "trace" => Ok(Command::Trace(trace_words(alloc, words)?)),
            "keys" => Ok(Command::Keys(keys_words(alloc, words)?)),
            "answer" => Ok(Command::Answer(answer_words(alloc, words)?)),
            "combine" => Ok(Command::Combine(combine_words(alloc, words)?)),
            _ => Err(FormFault::Usage),
        },
    }
}
