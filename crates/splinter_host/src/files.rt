//! Files of the system.
ghost use Rattle.std.specs.Prelude.{◌≡◌, ◌≢◌, ◌≤◌, ◌↔◌, None, IfOk, length};

use spl_outside::{FileStop, Files, Stop};
use std::alloc::{AllocError, Global};
use std::fs;
use std::fs::{File, OpenFile, OpenOptions, Permissions};
use std::io::{ErrorKind, Read, Write};
use std::os::unix::fs::{OpenOptionsExt, PermissionsExt};
use std::path::{Path, PathBuf};

/// Who may read a file that is made.
#[derive(Clone, Copy, Debug, PartialEq, Eq)]
pub enum Readers {
    /// Its owner alone, whatever the umask.
    Owner,
    /// Whoever the umask lets.
    Umask,
}

/// The files of the system.
///
/// A file is written whole or not at all: beside its name, and then renamed. What stands under the name and
/// is no file of bytes (a device, a pipe, a link) is written where it stands.
#[derive(Drop)]
pub struct HostFiles<R> {
    rt: R,
    readers: Readers,
    faults: u64,
}

impl<R> HostFiles<R> {
    /// The files that the runtime reaches, before any fault, and who may read those that are made.
    pub fn new(rt: R, readers: Readers) -> Self
        ensures { (result.faults ≡ 0) × (result.readers ≡ readers) }
    {
        HostFiles {
            rt,
            readers,
            faults: 0,
        }
    }
}

impl<R: std::rt::Files> Files for HostFiles<R> {
    ghost held = { λ _. None };

    ghost faults = { λ s. s.faults };

    fn read(&mut self, alloc: Global, name: &str, limit: u64) -> Result<Vec<u8>, FileStop> {
        match read_limited(&self.rt, alloc, name, limit) {
            Ok(bytes) => Ok(bytes),
            Err(FileStop::Failed) => {
                self.faults = self.faults.saturating_add(1);
                Err(FileStop::Failed)
            }
            Err(stop) => Err(stop),
        }
    }

    fn write(&mut self, alloc: Global, name: &str, bytes: &[u8]) -> Result<(), FileStop> {
        match write_file(&self.rt, alloc, self.readers, name, bytes) {
            Ok(()) => Ok(()),
            Err(Stop::OutOfMemory) => Err(FileStop::OutOfMemory),
            Err(Stop::Failed) => {
                self.faults = self.faults.saturating_add(1);
                Err(FileStop::Failed)
            }
        }
    }
}

/// The bytes of a file, which has at most `limit` of them.
fn read_limited<R: std::rt::Files>(
    rt: &R,
    alloc: Global,
    name: &str,
    limit: u64,
) -> Result<Vec<u8>, FileStop>
    ensures { IfOk result (λ v. length v.items ≤ limit) }
{
    let file = match File::open(rt, name) {
        Ok(file) => file,
        Err(error) => return Err(file_stop_of(error.kind())),
    };
    let mut bytes = Vec::new(alloc);
    match file.take(limit.saturating_add(1)).read_to_end(&mut bytes) {
        Ok(_) => {}
        Err(error) => return Err(file_stop_of(error.kind())),
    }
    if bytes.len() as u64 > limit {
        return Err(FileStop::TooLong);
    }
    Ok(bytes)
}

/// Why a file was not opened or read.
fn file_stop_of(kind: ErrorKind) -> FileStop
    ensures absent { (result ≡ FileStop.Absent) ↔ (kind ≡ ErrorKind.NotFound) }
    ensures memory { (result ≡ FileStop.OutOfMemory) ↔ (kind ≡ ErrorKind.OutOfMemory) }
    ensures limit { result ≢ FileStop.TooLong }
{
    match kind {
        ErrorKind::NotFound => FileStop::Absent,
        ErrorKind::OutOfMemory => FileStop::OutOfMemory,
        _ => FileStop::Failed,
    }
}

/// Why a file was not made, or nothing was opened: nothing has changed.
pub fn stop_of(kind: ErrorKind) -> Stop
    ensures { (result ≡ Stop.OutOfMemory) ↔ (kind ≡ ErrorKind.OutOfMemory) }
{
    match kind {
        ErrorKind::OutOfMemory => Stop::OutOfMemory,
        _ => Stop::Failed,
    }
}

/// The mode of a new file, before the umask takes from it.
fn mode_of(readers: Readers) -> u32
    ensures owner { readers ≡ Readers.Owner → result ≡ 0o600 }
    ensures umask { readers ≡ Readers.Umask → result ≡ 0o666 }
{
    match readers {
        Readers::Owner => 0o600,
        Readers::Umask => 0o666,
    }
}

/// Makes a name hold these bytes.
fn write_file<R: std::rt::Files>(
    rt: &R,
    alloc: Global,
    readers: Readers,
    name: &str,
    bytes: &[u8],
) -> Result<(), Stop> {
    match fs::symlink_metadata(rt, name) {
        Ok(found) if !found.is_file() => write_in_place(rt, readers, name, bytes),
        // Only its name would be needed to replace it, but whoever made it so wants it kept.
        Ok(found) if found.permissions().readonly() => Err(Stop::Failed),
        Ok(_) => write_beside(rt, alloc, readers, name, bytes),
        Err(error) if error.kind() == ErrorKind::NotFound => {
            write_beside(rt, alloc, readers, name, bytes)
        }
        Err(error) => Err(stop_of(error.kind())),
    }
}

/// Writes what stands under a name, where it stands. What a link points to is made if it isn't there.
fn write_in_place<R: std::rt::Files>(
    rt: &R,
    readers: Readers,
    name: &str,
    bytes: &[u8],
) -> Result<(), Stop> {
    let mut options = OpenOptions::new();
    options
        .write(true)
        .create(true)
        .truncate(true)
        .mode(mode_of(readers));
    match options.open(rt, name) {
        Ok(mut file) => match file.write_all(bytes) {
            Ok(()) => Ok(()),
            Err(_) => Err(Stop::Failed),
        },
        Err(error) => Err(stop_of(error.kind())),
    }
}

/// Makes a file of these bytes beside a name, and gives it that name. Where that fails all is as it was.
fn write_beside<R: std::rt::Files>(
    rt: &R,
    alloc: Global,
    readers: Readers,
    name: &str,
    bytes: &[u8],
) -> Result<(), Stop> {
    let (beside, file) = new_file_beside(rt, alloc, readers, name)?;
    match fill(file, readers, bytes) {
        Ok(()) => {}
        Err(stop) => return Err(taken_away(rt, beside.as_path(), stop)),
    }
    match fs::rename(rt, beside.as_path(), name) {
        Ok(()) => Ok(()),
        Err(_) => Err(taken_away(rt, beside.as_path(), Stop::Failed)),
    }
}

/// Takes away the remains of a file that couldn't be written.
fn taken_away<R: std::rt::Files>(rt: &R, beside: Path<'_>, stop: Stop) -> Stop
    ensures { result ≡ stop }
{
    let _ = fs::remove_file(rt, beside);
    stop
}

/// Writes the bytes of a new file, down to the disk.
fn fill<F: Write + OpenFile + Drop>(
    mut file: F,
    readers: Readers,
    bytes: &[u8],
) -> Result<(), Stop> {
    if readers == Readers::Owner {
        // A umask may have taken the owner's own bits. Some file systems keep no modes, and refuse this.
        let _ = file.set_permissions(Permissions::from_mode(mode_of(readers)));
    }
    match file.write_all(bytes) {
        Ok(()) => {}
        Err(_) => return Err(Stop::Failed),
    }
    match file.sync_all() {
        Ok(()) => Ok(()),
        Err(_) => Err(Stop::Failed),
    }
}

/// How many names beside a file are tried.
const MOST_NAMES: u32 = 1000;

/// The name of this number in the folder of a name.
fn name_beside(alloc: Global, name: &str, number: u32) -> Result<PathBuf, AllocError> {
    let own = format!(in alloc; "splinter-{number}.part")?;
    Path::new(name).with_file_name(alloc, own.as_str())
}

/// A new file in the folder of a name, and its own name: the first that no file there has.
fn new_file_beside<R: std::rt::Files>(
    rt: &R,
    alloc: Global,
    readers: Readers,
    name: &str,
) -> Result<(PathBuf, R::File), Stop> {
    let mut options = OpenOptions::new();
    options.write(true).create_new(true).mode(mode_of(readers));
    for number in 0..MOST_NAMES {
        let beside = match name_beside(alloc, name, number) {
            Ok(beside) => beside,
            Err(_) => return Err(Stop::OutOfMemory),
        };
        match options.open(rt, beside.as_path()) {
            Ok(file) => return Ok((beside, file)),
            Err(error) if error.kind() == ErrorKind::AlreadyExists => {}
            Err(error) => return Err(stop_of(error.kind())),
        }
    }
    Err(Stop::Failed)
}
