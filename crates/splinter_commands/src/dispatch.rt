//! From the words to the command that they mean.
ghost use Rattle.std.specs.Prelude.{◌≡◌, ◌⊎◌, [], Some, Err, IfSome, IfOk, IfErr, IfNone, IsErrOf, map};
ghost use Rattle.std.specs.String.{string_bytes};
ghost use Rattle.spl_outside.specs.Causes.{Counts};
ghost use Rattle.command_words.specs.Forms.{form_of};
ghost use Rattle.command_words.specs.Views.{order, IsInBounds};
ghost use Rattle.splinter_commands.specs.Commands.{DrawsNone, IsSilent, conduct_of, judged};
ghost use Rattle.splinter_commands.specs.Meets.{FilesFailed, Meets, TakesSome};
ghost use Rattle.splinter_status.specs.Phases.{EndsAtFiles};
ghost use Rattle.splinter_status.specs.declared.stops.InputStop.TheVariants as input;
ghost use Rattle.splinter_status.specs.declared.stops.Refusal.TheVariants as refusal;
ghost use Rattle.splinter_status.specs.declared.stops.Stopped.TheVariants as stopped;

use crate::answer::answer;
use crate::combine::combine;
use crate::keys::keys;
use crate::trace::trace;
use command_words::{Command, FormFault, command_of};
use share_eval::Gate;
use spl_outside::{Draw, Files};
use splinter_status::{InputStop, Refusal, Stopped};
use std::alloc::Global;
use std::thread::Threads;

/// Runs a command, up to the text that it prints.
pub fn dispatch<T: Threads + Sync, F: Files, R: Draw, G: Gate + Sync>(
    rt: &T,
    alloc: Global,
    command: &Command<'_>,
    files: &mut F,
    draw: &mut R,
    gate: &G,
) -> Result<Vec<u8>, Stopped>
    requires { IsInBounds command.now }
    ensures told { IfSome (F.held files.old) (λ m. Meets ((conduct_of (order command.now)).ready m) m (F.held files.new) (R.words draw.old) (R.words draw.new) result) }
    ensures front { TakesSome (R.words draw.old) (R.words draw.new) }
    ensures refusals { IfErr result EndsAtFiles }
    ensures untouched { (s : _) → result ≡ Err (stopped.Input s) → (draw.new ≡ draw.old) × (F.held files.new ≡ F.held files.old) }
    ensures files { Counts (F.faults files.old) (F.faults files.new) (FilesFailed result) }
    ensures draws { Counts (R.faults draw.old) (R.faults draw.new) (IsErrOf result Stopped.DrawFault) }
    ensures unwritten { IsErrOf result Stopped.DrawFault → F.held files.new ≡ F.held files.old }
    ensures undrawn { DrawsNone (Some (order command.now)) → draw.new ≡ draw.old }
    ensures silent { IsSilent (Some (order command.now)) → IfOk result (λ text. text.items ≡ []) }
{
    match command {
        Command::Trace(words) => trace(rt, alloc, files, draw, words, gate),
        Command::Keys(words) => keys(alloc, files, draw, words),
        Command::Answer(words) => answer(rt, alloc, files, words, gate),
        Command::Combine(words) => combine(alloc, files, words),
    }
}

/// The command that the words mean, up to the text that it prints.
pub fn carry_out<T: Threads + Sync, F: Files, R: Draw, G: Gate + Sync>(
    rt: &T,
    alloc: Global,
    words: &[String],
    files: &mut F,
    draw: &mut R,
    gate: &G,
) -> Result<Vec<u8>, Stopped>
    ensures told { IfSome (F.held files.old) (λ m. Meets (judged (form_of (map string_bytes words.now)) m) m (F.held files.new) (R.words draw.old) (R.words draw.new) result) }
    ensures no_command { IfNone (form_of (map string_bytes words.now)) (((result ≡ Err (stopped.Input (input.Refused refusal.Usage))) ⊎ (result ≡ Err (stopped.Input input.OutOfMemory))) × (files.new ≡ files.old)) }
    ensures command { IfSome (form_of (map string_bytes words.now)) (λ _. IfErr result EndsAtFiles) }
    ensures front { TakesSome (R.words draw.old) (R.words draw.new) }
    ensures untouched { (s : _) → result ≡ Err (stopped.Input s) → (draw.new ≡ draw.old) × (F.held files.new ≡ F.held files.old) }
    ensures files { Counts (F.faults files.old) (F.faults files.new) (FilesFailed result) }
    ensures draws { Counts (R.faults draw.old) (R.faults draw.new) (IsErrOf result Stopped.DrawFault) }
    ensures unwritten { IsErrOf result Stopped.DrawFault → F.held files.new ≡ F.held files.old }
    ensures undrawn { DrawsNone (form_of (map string_bytes words.now)) → draw.new ≡ draw.old }
    ensures silent { IsSilent (form_of (map string_bytes words.now)) → IfOk result (λ text. text.items ≡ []) }
{
    match command_of(alloc, words) {
        Ok(command) => dispatch(rt, alloc, &command, files, draw, gate),
        Err(FormFault::Usage) => Err(Stopped::Input(InputStop::Refused(Refusal::Usage))),
        Err(FormFault::OutOfMemory) => Err(Stopped::Input(InputStop::OutOfMemory)),
    }
}
