//! Writing files.
ghost use Rattle.std.specs.Prelude.{[], ◌∷◌, IfSome, IfErr, IsErrOf};
ghost use Rattle.spl_outside.specs.Causes.{Counts};
ghost use Rattle.spl_outside.specs.Content.{KeepsBut};
ghost use Rattle.splinter_steps.specs.Outputs.{output, IsLate};
ghost use Rattle.splinter_steps.specs.Writes.{Puts};

use spl_outside::{FileStop, Files};
use splinter_status::Stopped;
use std::alloc::Global;

/// A file to be written.
#[derive(Drop)]
pub struct Output<'a> {
    /// Its name.
    pub name: &'a str,
    /// What it is to hold.
    pub bytes: &'a [u8],
}

/// Writes a file.
///
/// # Errors
///
/// `FileFault` exactly where the files failed, and the name may then hold anything; `OutOfMemory`, and nothing changed.
pub fn write_file<F: Files>(alloc: Global, files: &mut F, file: &Output<'_>) -> Result<(), Stopped>
    ensures puts { IfSome (F.held files.old) (λ m. Puts (output file.now ∷ []) m (F.held files.new) result) }
    ensures others { IfSome (F.held files.old) (λ m. KeepsBut ((output file.now).0 ∷ []) m (F.held files.new)) }
    ensures late { IfErr result IsLate }
    ensures counts { Counts (F.faults files.old) (F.faults files.new) (IsErrOf result Stopped.FileFault) }
{
    match files.write(alloc, file.name, file.bytes) {
        Ok(()) => Ok(()),
        Err(FileStop::OutOfMemory) => Err(Stopped::OutOfMemory),
        Err(FileStop::Failed) => Err(Stopped::FileFault),
        // A write has no other end.
        Err(FileStop::Absent | FileStop::TooLong) => unreachable!(),
    }
}

/// Writes three files one after another, up to the first that fails.
///
/// # Errors
///
/// Those of `write_file`; the files before the one that failed stay, and none behind it is touched.
pub fn write_three<F: Files>(
    alloc: Global,
    files: &mut F,
    first: &Output<'_>,
    second: &Output<'_>,
    third: &Output<'_>,
) -> Result<(), Stopped>
    ensures puts { IfSome (F.held files.old) (λ m. Puts (output first.now ∷ output second.now ∷ output third.now ∷ []) m (F.held files.new) result) }
    ensures others { IfSome (F.held files.old) (λ m. KeepsBut ((output first.now).0 ∷ (output second.now).0 ∷ (output third.now).0 ∷ []) m (F.held files.new)) }
    ensures late { IfErr result IsLate }
    ensures counts { Counts (F.faults files.old) (F.faults files.new) (IsErrOf result Stopped.FileFault) }
{
    write_file(alloc, files, first)?;
    write_file(alloc, files, second)?;
    write_file(alloc, files, third)
}
