//! The last step of a command: it prints its text, or the line of its refusal.
ghost use Rattle.std.specs.Prelude.{◌≡◌, ◌≢◌, ◌++◌, IfSome, IfOk, Some};
ghost use Rattle.std.specs.String.{string_bytes};
ghost use Rattle.spl_outside.specs.Causes.{Counts};
ghost use Rattle.splinter_status.specs.Ends.{Reports, EndsAs, status_of, end_of, line_of_refusal, line_of_end};
ghost use Rattle.splinter_status.specs.Texts.{line_of, HasLine};

use crate::status::Status;
use crate::stops::{InputStop, Refusal, Stopped};
use crate::texts::{line, sum_line};
use spl_outside::{Sink, Stop};
use std::alloc::{AllocError, Global};

/// Prints a text, and ends with the status unless it can't be printed.
pub fn print<O: Sink>(alloc: Global, out: &mut O, text: &[u8], status: Status) -> Status
    ensures ends { EndsAs status result }
    ensures told { IfSome (O.written out.old) (λ w. Reports w text.now status result (O.written out.new)) }
    ensures counts { status ≢ Status.OutputFault → Counts (O.faults out.old) (O.faults out.new) (result ≡ Status.OutputFault) }
{
    match out.write(alloc, text) {
        Ok(()) => status,
        Err(Stop::Failed) => Status::OutputFault,
        Err(Stop::OutOfMemory) => Status::OutOfMemory,
    }
}

fn status_of(refusal: Refusal) -> Status
    ensures { result ≡ status_of refusal }
{
    match refusal {
        Refusal::Usage => Status::Usage,
        Refusal::Query(fault) => Status::Query(fault),
        Refusal::Param(fault) => Status::Param(fault),
        Refusal::Shape(fault) => Status::Shape(fault),
        Refusal::Table(fault) => Status::Table(fault),
        Refusal::SumBound(_, column, at) => Status::SumBound(column, at),
        Refusal::Frame(name, fault) => Status::Frame(name, fault),
        Refusal::Differ(which) => Status::Differ(which),
        Refusal::BadWord(number, word) => Status::BadWord(number, word),
        Refusal::MissingFile(name) => Status::MissingFile(name),
        Refusal::FileTooLong(name) => Status::FileTooLong(name),
        Refusal::SameProvider(provider) => Status::SameProvider(provider),
        Refusal::NotBuilt(part) => Status::NotBuilt(part),
    }
}

/// How a command ends that stopped early.
#[derive(Drop)]
struct End {
    status: Status,
    line: String,
}

/// The end of a status that tells its line.
fn end_of_status(alloc: Global, status: Status) -> Result<End, AllocError>
    ensures status { IfOk result (λ e. e.status ≡ status) }
    ensures line { IfOk result (λ e. string_bytes e.line ≡ line_of status) }
{
    let line = line(alloc, &status)?;
    Ok(End { status, line })
}

/// The end of a refusal.
fn end_of_refusal(alloc: Global, refusal: Refusal) -> Result<End, AllocError>
    ensures status { IfOk result (λ e. e.status ≡ status_of refusal) }
    ensures line { IfOk result (λ e. string_bytes e.line ≡ line_of_refusal refusal) }
{
    match refusal {
        Refusal::SumBound(name, column, at) => Ok(End {
            line: sum_line(alloc, &name, at)?,
            status: Status::SumBound(column, at),
        }),
        refusal => end_of_status(alloc, status_of(refusal)),
    }
}

/// The end of a command that stopped early.
fn end_of(alloc: Global, stopped: Stopped) -> Result<End, AllocError>
    ensures status { IfOk result (λ e. e.status ≡ end_of stopped) }
    ensures line { IfOk result (λ e. string_bytes e.line ≡ line_of_end stopped) }
    ensures inner { end_of stopped ≢ Status.OutputFault }
{
    match stopped {
        Stopped::Input(InputStop::Refused(refusal)) => end_of_refusal(alloc, refusal),
        Stopped::Input(InputStop::FileFault) => end_of_status(alloc, Status::FileFault),
        Stopped::Input(InputStop::OutOfMemory) => end_of_status(alloc, Status::OutOfMemory),
        Stopped::DrawFault => end_of_status(alloc, Status::DrawFault),
        Stopped::FileFault => end_of_status(alloc, Status::FileFault),
        Stopped::OutOfMemory => end_of_status(alloc, Status::OutOfMemory),
    }
}

/// Prints the line of a command that stopped early, and gives its status unless that can't be printed.
/// A command that found no memory prints nothing.
pub fn refuse<O: Sink>(alloc: Global, out: &mut O, stopped: Stopped) -> Status
    ensures ends { EndsAs (end_of stopped) result }
    ensures inner { end_of stopped ≢ Status.OutputFault }
    ensures quiet { end_of stopped ≡ Status.OutOfMemory → (result ≡ Status.OutOfMemory) × (out.new ≡ out.old) }
    ensures told { IfSome (O.written out.old) (λ w. Reports w (line_of_end stopped) (end_of stopped) result (O.written out.new)) }
    ensures line { HasLine result → IfSome (O.written out.old) (λ w. O.written out.new ≡ Some (w ++ line_of result)) }
    ensures counts { Counts (O.faults out.old) (O.faults out.new) (result ≡ Status.OutputFault) }
{
    let Ok(end) = end_of(alloc, stopped) else {
        return Status::OutOfMemory;
    };
    match end.status {
        Status::OutOfMemory => Status::OutOfMemory,
        status => print(alloc, out, end.line.as_bytes(), status),
    }
}
