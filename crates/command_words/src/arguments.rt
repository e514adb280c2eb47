//! The words of each command, as `clap` is told of them.
ghost use Rattle.std.specs.Prelude.{◌≡◌, map, IfOk, false};
ghost use Rattle.clap.specs.Words.{app_of, rule_of};
ghost use Rattle.command_words.specs.Arguments.{one_word, some_words, workers_option, app_with, trace_app, keys_app, answer_app, combine_app};

use clap::{Arg, Command};
use std::alloc::{AllocError, Global};

/// A word that has to be there.
fn one_word<'a>(alloc: Global, name: &'a str) -> Arg<'a>
    ensures rule { rule_of result ≡ one_word name.entry.now }
    ensures local { result.global ≡ false }
{
    Arg::new(alloc, name).required(true)
}

/// One word or more.
fn some_words<'a>(alloc: Global, name: &'a str) -> Arg<'a>
    ensures rule { rule_of result ≡ some_words name.entry.now }
    ensures local { result.global ≡ false }
{
    Arg::new(alloc, name).required(true).num_args(1..)
}

/// The number of workers.
fn workers_option<'a>(alloc: Global) -> Arg<'a>
    ensures rule { rule_of result ≡ workers_option }
    ensures local { result.global ≡ false }
{
    Arg::new(alloc, "workers")
        .long("workers")
        .default_value("4")
}

/// A command with these words, each of which has to be there.
fn with_words<'a>(
    alloc: Global,
    name: &'a str,
    words: &[&'a str],
) -> Result<Command<'a>, AllocError>
    ensures { IfOk result (λ c. app_of c ≡ app_with name.entry.now (map (λ w. one_word w.now) words.now)) }
{
    let mut command = Command::new(alloc, name);
    for word in words {
        command = command.arg(one_word(alloc, word))?;
    }
    Ok(command)
}

/// The words of `trace`.
#[tactic(auto, unfolding(crate::specs::Arguments::trace_app))]
pub fn trace_app<'a>(alloc: Global) -> Result<Command<'a>, AllocError>
    ensures { IfOk result (λ c. app_of c ≡ trace_app) }
{
    with_words(alloc, "trace", &["shape", "table", "query"])?
        .arg(some_words(alloc, "parameter"))?
        .arg(workers_option(alloc))
}

/// The words of `keys`.
#[tactic(auto, unfolding(crate::specs::Arguments::keys_app))]
pub fn keys_app<'a>(alloc: Global) -> Result<Command<'a>, AllocError>
    ensures { IfOk result (λ c. app_of c ≡ keys_app) }
{
    let words = ["shape", "query", "note", "key0", "key1"];
    with_words(alloc, "keys", &words)?.arg(some_words(alloc, "parameter"))
}

/// The words of `answer`.
#[tactic(auto, unfolding(crate::specs::Arguments::answer_app))]
pub fn answer_app<'a>(alloc: Global) -> Result<Command<'a>, AllocError>
    ensures { IfOk result (λ c. app_of c ≡ answer_app) }
{
    let words = ["provider", "shape", "table", "key", "out"];
    with_words(alloc, "answer", &words)?.arg(workers_option(alloc))
}

/// The words of `combine`.
#[tactic(auto, unfolding(crate::specs::Arguments::combine_app))]
pub fn combine_app<'a>(alloc: Global) -> Result<Command<'a>, AllocError>
    ensures { IfOk result (λ c. app_of c ≡ combine_app) }
{
    with_words(alloc, "combine", &["note", "first", "second"])
}
