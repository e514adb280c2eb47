//! The real files, random words and output at their edges.
use spl_outside::{Draw, FileStop, Files, Sink};
use splinter_host::{HostDraw, HostFiles, HostSink, Readers};
use std::alloc::{AllocError, Global};
use std::fs::{OpenFile, Permissions};
use std::os::unix::fs::{PermissionsExt, symlink};
use std::{fs, io};

/// The most bytes that are read of a file.
const GREATEST: u64 = 1_048_576;

/// Over 64 KiB.
const LONG: usize = 70_000;

/// A name in the folder that the test runs in, which no other run takes.
fn new_name(rt: &HostRuntime) -> Option<String> {
    let word = HostDraw::new(rt).word().ok()?;
    format!(in rt.alloc(); "host_forms_{word}").ok()
}

/// Takes a file away, and says whether it was there.
fn removes(rt: &HostRuntime, name: &str) -> bool {
    fs::remove_file(rt, name).is_ok()
}

fn writes<F: Files>(alloc: Global, files: &mut F, name: &str, bytes: &[u8]) -> bool {
    files.write(alloc, name, bytes).is_ok()
}

fn holds<F: Files>(alloc: Global, files: &mut F, name: &str, bytes: &[u8]) -> bool {
    match files.read(alloc, name, bytes.len() as u64) {
        Ok(found) => found.as_slice() == bytes,
        Err(_) => false,
    }
}

/// Whether a read with a limit answers so.
fn stops<F: Files>(alloc: Global, files: &mut F, name: &str, limit: u64, stop: FileStop) -> bool {
    matches!(files.read(alloc, name, limit), Err(found) if found == stop)
}

/// Whether the file has these bits of its mode set, and no others.
fn has_mode<R: std::rt::Files>(rt: &R, name: &str, mode: u32) -> bool {
    match fs::metadata(rt, name) {
        Ok(found) => found.permissions().mode() & 0o777 == mode,
        Err(_) => false,
    }
}

fn sets_mode<R: std::rt::Files>(rt: &R, name: &str, mode: u32) -> bool {
    fs::set_permissions(rt, name, Permissions::from_mode(mode)).is_ok()
}

/// Makes a file of so many bytes, all 0.
fn make_long<R: std::rt::Files>(rt: &R, name: &str, length: u64) -> io::Result<()> {
    let file = fs::create(rt, name)?;
    file.set_len(length)
}

/// Whether a later file takes the place of an earlier one.
fn is_replaced(rt: &HostRuntime, name: &str) -> bool {
    let alloc = rt.alloc();
    let mut files = HostFiles::new(rt, Readers::Umask);
    let is_right = writes(alloc, &mut files, name, b"first and longer")
        && writes(alloc, &mut files, name, b"\x00later\xff")
        && holds(alloc, &mut files, name, b"\x00later\xff")
        && stops(alloc, &mut files, name, 6, FileStop::TooLong);
    removes(rt, name) && is_right
}

#[test]
fn a_later_file_takes_the_place(rt: HostRuntime) {
    let found = match new_name(&rt) {
        Some(name) => is_replaced(&rt, &name),
        None => false,
    };
    assert!(rt; found);
}

#[test]
fn what_is_not_there(rt: HostRuntime) {
    let alloc = rt.alloc();
    let mut files = HostFiles::new(&rt, Readers::Umask);
    let is_absent = stops(alloc, &mut files, "no_such_file", 7, FileStop::Absent);
    let is_written = writes(alloc, &mut files, "no_such_folder/a", b"a");
    assert_eq!(rt; (is_absent, is_written), (true, false));
}

/// Whether a file is read to its end where it is no longer than the limit.
fn is_read_whole<F: Files>(alloc: Global, files: &mut F, name: &str) -> bool {
    let is_whole = match files.read(alloc, name, GREATEST) {
        Ok(bytes) => bytes.len() as u64 == GREATEST,
        Err(_) => false,
    };
    is_whole && stops(alloc, files, name, GREATEST - 1, FileStop::TooLong)
}

/// Whether that is so of a file of the greatest length.
fn is_greatest(rt: &HostRuntime, name: &str) -> bool {
    let is_made = make_long(rt, name, GREATEST).is_ok();
    let mut files = HostFiles::new(rt, Readers::Umask);
    let is_right = is_made && is_read_whole(rt.alloc(), &mut files, name);
    removes(rt, name) && is_right
}

#[test]
fn a_file_of_the_greatest_length(rt: HostRuntime) {
    let found = match new_name(&rt) {
        Some(name) => is_greatest(&rt, &name),
        None => false,
    };
    assert!(rt; found);
}

/// Whether bytes are written and read again.
fn is_kept(rt: &HostRuntime, name: &str, bytes: &[u8]) -> bool {
    let alloc = rt.alloc();
    let mut files = HostFiles::new(rt, Readers::Umask);
    let is_right = writes(alloc, &mut files, name, bytes) && holds(alloc, &mut files, name, bytes);
    removes(rt, name) && is_right
}

/// Whether that is so of a long file.
fn is_long(rt: &HostRuntime, name: &str) -> bool {
    match vec![in rt.alloc(); 7; LONG] {
        Ok(mut bytes) => {
            bytes[LONG - 1] = 8;
            is_kept(rt, name, &bytes)
        }
        Err(_) => false,
    }
}

#[test]
fn a_long_file(rt: HostRuntime) {
    let found = match new_name(&rt) {
        Some(name) => is_long(&rt, &name),
        None => false,
    };
    assert!(rt; found);
}

/// Whether a secret is for its owner alone, also where the name had a file that others could read.
fn is_secret(rt: &HostRuntime, name: &str) -> bool {
    let alloc = rt.alloc();
    let mut files = HostFiles::new(rt, Readers::Owner);
    let is_new = writes(alloc, &mut files, name, b"secret") && has_mode(rt, name, 0o600);
    let is_right = is_new
        && sets_mode(rt, name, 0o644)
        && writes(alloc, &mut files, name, b"another")
        && has_mode(rt, name, 0o600)
        && holds(alloc, &mut files, name, b"another");
    removes(rt, name) && is_right
}

#[test]
fn a_secret_is_for_its_owner_alone(rt: HostRuntime) {
    let found = match new_name(&rt) {
        Some(name) => is_secret(&rt, &name),
        None => false,
    };
    assert!(rt; found);
}

/// Whether a file that nobody may write isn't written.
fn is_left(rt: &HostRuntime, name: &str) -> bool {
    let alloc = rt.alloc();
    let mut files = HostFiles::new(rt, Readers::Umask);
    let is_right = writes(alloc, &mut files, name, b"kept")
        && sets_mode(rt, name, 0o444)
        && !writes(alloc, &mut files, name, b"another")
        && holds(alloc, &mut files, name, b"kept");
    removes(rt, name) && is_right
}

#[test]
fn a_file_that_nobody_may_write_stays(rt: HostRuntime) {
    let found = match new_name(&rt) {
        Some(name) => is_left(&rt, &name),
        None => false,
    };
    assert!(rt; found);
}

/// Whether what is written to a link is held by the file that it leads to.
fn is_written_through(rt: &HostRuntime, link: &str, name: &str) -> bool {
    let alloc = rt.alloc();
    let mut files = HostFiles::new(rt, Readers::Umask);
    writes(alloc, &mut files, link, b"first and longer")
        && writes(alloc, &mut files, link, b"later")
        && holds(alloc, &mut files, name, b"later")
}

fn is_symlink(rt: &HostRuntime, name: &str) -> bool {
    match fs::symlink_metadata(rt, name) {
        Ok(found) => found.is_symlink(),
        Err(_) => false,
    }
}

/// Whether a link stays one, and is written through.
fn is_link_to(rt: &HostRuntime, link: &str, name: &str) -> bool {
    let is_made = symlink(rt, name, link).is_ok();
    let is_right = is_made && is_written_through(rt, link, name) && is_symlink(rt, link);
    removes(rt, link) && removes(rt, name) && is_right
}

/// Whether that is so of a new link to a name.
fn is_link(rt: &HostRuntime, name: &str) -> bool {
    match new_name(rt) {
        Some(link) => is_link_to(rt, &link, name),
        None => false,
    }
}

#[test]
fn a_link_is_written_through(rt: HostRuntime) {
    let found = match new_name(&rt) {
        Some(name) => is_link(&rt, &name),
        None => false,
    };
    assert!(rt; found);
}

/// The bits in which some of so many words differ from the first.
fn changing_bits<D: Draw>(draw: &mut D, words: u32) -> Result<u64, spl_outside::Failed> {
    let first = draw.word()?;
    let mut changing = 0;
    for _ in 0..words {
        changing |= draw.word()? ^ first;
    }
    Ok(changing)
}

#[test]
fn words_differ_in_every_byte(rt: HostRuntime) -> Result<(), spl_outside::Failed> {
    let changing = changing_bits(&mut HostDraw::new(&rt), 16)?;
    assert!(rt; changing.to_be_bytes().iter().all(|byte| *byte != 0));
    Ok(())
}

/// Whether a text is printed.
fn is_printed(rt: &HostRuntime, text: &[u8]) -> bool {
    HostSink::new(rt).write(rt.alloc(), text).is_ok()
}

#[test]
fn a_long_text_is_printed(rt: HostRuntime) -> Result<(), AllocError> {
    let text = vec![in rt.alloc(); b' '; LONG]?;
    assert!(rt; is_printed(&rt, &text));
    Ok(())
}
