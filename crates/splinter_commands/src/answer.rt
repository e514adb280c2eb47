//! The command `answer`: one provider answers one key file.
ghost use Rattle.std.specs.Prelude.{◌≡◌, [], Err, IfSome, IfOk, IfErr, IsErrOf};
ghost use Rattle.spl_outside.specs.Causes.{Counts};
ghost use Rattle.seed_expansion.specs.ChaChaExpansion.{chacha};
ghost use Rattle.provider_core.specs.Answering.{answered as answered_over};
ghost use Rattle.command_words.specs.Views.{answer_order, IsWorkers};
ghost use Rattle.splinter_status.specs.Phases.{InputGives, StopsAtFiles, EndsAtFiles};
ghost use Rattle.splinter_status.specs.declared.stops.Stopped.TheVariants as stopped;
ghost use Rattle.splinter_commands.specs.Commands.{answer_ready, answer_effect};
ghost use Rattle.splinter_commands.specs.Meets.{FilesFailed, Meets};
ghost use Rattle.splinter_commands.specs.Refusals.{or_provider_refusal};

use crate::refusals::provider_stop;
use command_words::AnswerWords;
use seed_expansion::ChaChaExpander;
use share_eval::Gate;
use spl_outside::Files;
use spl_values::Table;
use splinter_status::{InputStop, Stopped};
use splinter_steps::{Output, read_file, read_shape, read_table, write_file};
use std::alloc::Global;
use std::thread::Threads;

/// The answer to the key file that the words name, whose bytes these are.
fn answer_key<T: Threads + Sync, G: Gate + Sync>(
    rt: &T,
    alloc: Global,
    words: &AnswerWords<'_>,
    key: &[u8],
    table: &Table,
    gate: &G,
) -> Result<Vec<u8>, InputStop>
    requires { IsWorkers words.now.workers }
    ensures gives { InputGives (λ v. v.items) result (or_provider_refusal words.now.provider words.now.key.now table.now.shape (answered_over chacha words.now.provider key.now table.now)) }
    ensures refusals { IfErr result StopsAtFiles }
    ensures no_fault { IsErrOf result InputStop.FileFault → ⊥ }
{
    let provider = words.provider;
    match provider_core::answer(
        rt,
        alloc,
        &ChaChaExpander,
        provider,
        key,
        table,
        words.workers,
        gate,
    ) {
        Ok(bytes) => Ok(bytes),
        Err(fault) => Err(provider_stop(alloc, provider, words.key, table.shape(), fault)),
    }
}

/// Reads the shape, the table and the key file, and answers it.
#[tactic(auto, unfolding(crate::specs::Commands::answer_ready))]
fn answer_files<T: Threads + Sync, F: Files, G: Gate + Sync>(
    rt: &T,
    alloc: Global,
    files: &mut F,
    words: &AnswerWords<'_>,
    gate: &G,
) -> Result<Vec<u8>, InputStop>
    requires { IsWorkers words.now.workers }
    ensures gives { IfSome (F.held files.old) (λ m. InputGives (λ v. answer_effect words.now.out.now v.items) result (answer_ready (answer_order words.now) m)) }
    ensures refusals { IfErr result StopsAtFiles }
    ensures stays { F.held files.new ≡ F.held files.old }
    ensures counts { Counts (F.faults files.old) (F.faults files.new) (IsErrOf result InputStop.FileFault) }
{
    let shape = read_shape(alloc, files, words.shape)?;
    let table = read_table(alloc, files, words.table, &shape)?;
    let key = read_file(alloc, files, words.key)?;
    answer_key(rt, alloc, words, &key, &table, gate)
}

/// The command, up to the text that it prints, which is empty.
pub fn answer<T: Threads + Sync, F: Files, G: Gate + Sync>(
    rt: &T,
    alloc: Global,
    files: &mut F,
    words: &AnswerWords<'_>,
    gate: &G,
) -> Result<Vec<u8>, Stopped>
    requires { IsWorkers words.now.workers }
    ensures told { (drawn : _) → IfSome (F.held files.old) (λ m. Meets (answer_ready (answer_order words.now) m) m (F.held files.new) drawn drawn result) }
    ensures refusals { IfErr result EndsAtFiles }
    ensures untouched { (s : _) → result ≡ Err (stopped.Input s) → F.held files.new ≡ F.held files.old }
    ensures files { Counts (F.faults files.old) (F.faults files.new) (FilesFailed result) }
    ensures no_draw { IsErrOf result Stopped.DrawFault → ⊥ }
    ensures silent { IfOk result (λ text. text.items ≡ []) }
{
    let bytes = answer_files(rt, alloc, files, words, gate)?;
    let output = Output {
        name: words.out,
        bytes: &bytes,
    };
    write_file(alloc, files, &output)?;
    Ok(Vec::new(alloc))
}
