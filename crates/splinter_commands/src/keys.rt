//! The command `keys`: it begins a session, and writes the note and both key files.
ghost use Rattle.std.specs.Prelude.{◌≡◌, Err, IfSome, IfOk, IfErr, IsErrOf};
ghost use Rattle.spl_outside.specs.Causes.{Counts};
ghost use Rattle.command_words.specs.Views.{keys_order};
ghost use Rattle.splinter_status.specs.Phases.{InputGives, StopsAtFiles, EndsAtFiles};
ghost use Rattle.splinter_status.specs.declared.stops.Stopped.TheVariants as stopped;
ghost use Rattle.splinter_steps.specs.Outputs.{IsLate};
ghost use Rattle.splinter_steps.specs.Writes.{Puts};
ghost use Rattle.splinter_commands.specs.Commands.{asked, begun_text, keys_ready, round_files};
ghost use Rattle.splinter_commands.specs.Meets.{FilesFailed, Meets, TakesSome};
ghost use Rattle.splinter_commands.specs.Questions.{IsQuestion};

use crate::rounds::begin;
use client_rounds::RoundOut;
use command_words::KeysWords;
use spl_outside::{Draw, Files};
use spl_values::Shape;
use splinter_status::{InputStop, Stopped};
use splinter_steps::{Asked, Output, judge, read_shape, write_three};
use std::alloc::{AllocError, Global};

/// What is asked, and the shape of the tables that are asked.
#[derive(Debug, Drop)]
pub struct Question {
    /// The query and its parameters.
    pub asked: Asked,
    /// The shape of the tables that are asked.
    pub shape: Shape,
}

/// Reads the shape, and judges the query and the parameters by it.
#[tactic(auto, unfolding(crate::specs::Commands::keys_ready))]
fn read_question<F: Files>(
    alloc: Global,
    files: &mut F,
    words: &KeysWords<'_>,
) -> Result<Question, InputStop>
    ensures gives { IfSome (F.held files.old) (λ m. InputGives (asked (keys_order words.now)) result (keys_ready (keys_order words.now) m)) }
    ensures question { IfOk result IsQuestion }
    ensures refusals { IfErr result StopsAtFiles }
    ensures stays { F.held files.new ≡ F.held files.old }
    ensures counts { Counts (F.faults files.old) (F.faults files.new) (IsErrOf result InputStop.FileFault) }
{
    let shape = read_shape(alloc, files, words.shape)?;
    let asked = judge(alloc, &shape, words.query, &words.parameters)?;
    Ok(Question { asked, shape })
}

/// Writes the note and the two key files of a round.
fn write_round<F: Files>(
    alloc: Global,
    files: &mut F,
    words: &KeysWords<'_>,
    round: &RoundOut,
) -> Result<(), Stopped>
    ensures puts { IfSome (F.held files.old) (λ m. Puts (round_files (keys_order words.now) round.now) m (F.held files.new) result) }
    ensures late { IfErr result IsLate }
    ensures counts { Counts (F.faults files.old) (F.faults files.new) (IsErrOf result Stopped.FileFault) }
{
    let note = Output {
        name: words.note,
        bytes: round.note.as_slice(),
    };
    let zero = Output {
        name: words.key_zero,
        bytes: round.left.as_slice(),
    };
    let one = Output {
        name: words.key_one,
        bytes: round.right.as_slice(),
    };
    write_three(alloc, files, &note, &zero, &one)
}

/// Which round of how many was begun.
fn begun_line(alloc: Global, rounds: u32) -> Result<Vec<u8>, AllocError>
    ensures { IfOk result (λ text. text.items ≡ begun_text rounds) }
{
    Ok(format!(in alloc; "round 1 of {rounds}\n")?.into_bytes())
}

/// The command, up to the text that it prints.
pub fn keys<F: Files, R: Draw>(
    alloc: Global,
    files: &mut F,
    draw: &mut R,
    words: &KeysWords<'_>,
) -> Result<Vec<u8>, Stopped>
    ensures told { IfSome (F.held files.old) (λ m. Meets (keys_ready (keys_order words.now) m) m (F.held files.new) (R.words draw.old) (R.words draw.new) result) }
    ensures front { TakesSome (R.words draw.old) (R.words draw.new) }
    ensures refusals { IfErr result EndsAtFiles }
    ensures untouched { (s : _) → result ≡ Err (stopped.Input s) → (draw.new ≡ draw.old) × (F.held files.new ≡ F.held files.old) }
    // All words are drawn before the first file is written.
    ensures unwritten { IsErrOf result Stopped.DrawFault → F.held files.new ≡ F.held files.old }
    ensures files { Counts (F.faults files.old) (F.faults files.new) (FilesFailed result) }
    ensures draws { Counts (R.faults draw.old) (R.faults draw.new) (IsErrOf result Stopped.DrawFault) }
{
    let question = read_question(alloc, files, words)?;
    let round = begin(alloc, draw, &question.asked, &question.shape)?;
    let text = begun_line(alloc, round.rounds)?;
    write_round(alloc, files, words, &round)?;
    Ok(text)
}
