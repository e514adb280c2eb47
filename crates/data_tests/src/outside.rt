//! The forms in memory, called through their traits.
use spl_outside::{
    Draw, Failed, FileStop, Files, MemoryDraw, MemoryFiles, MemorySink, Sink, SteadyDraw,
    SteadyFiles, SteadySink, Stop,
};
use std::alloc::{AllocError, Global};

/// A call of files, and what it answers.
#[derive(Clone, Copy)]
enum Call {
    /// A read of a name within a limit, and the length that is found.
    Read(&'static str, u64, Result<usize, FileStop>),
    /// A write of bytes to a name.
    Write(&'static str, &'static [u8], Result<(), FileStop>),
}

/// The length that is read of a name.
fn read_length<F: Files>(
    alloc: Global,
    files: &mut F,
    name: &str,
    limit: u64,
) -> Result<usize, FileStop> {
    match files.read(alloc, name, limit) {
        Ok(bytes) => Ok(bytes.len()),
        Err(stop) => Err(stop),
    }
}

/// Whether a call answers so.
fn answers<F: Files>(alloc: Global, files: &mut F, call: &Call) -> bool {
    match call {
        Call::Read(name, limit, wanted) => read_length(alloc, files, name, *limit) == *wanted,
        Call::Write(name, bytes, wanted) => files.write(alloc, name, bytes) == *wanted,
    }
}

/// The first call that answers otherwise.
fn first_other_call<F: Files>(alloc: Global, files: &mut F, calls: &[Call]) -> Option<usize> {
    for (at, call) in calls.iter().enumerate() {
        if !answers(alloc, files, call) {
            return Some(at);
        }
    }
    None
}

/// Files that never fail, of which two are held.
fn steady_files(alloc: Global) -> Result<SteadyFiles, AllocError> {
    let mut files = SteadyFiles::new(alloc);
    files.put("a", b"xyz")?;
    files.put("empty", b"")?;
    Ok(files)
}

const STEADY_CALLS: &[Call] = &[
    Call::Read("a", 3, Ok(3)),
    Call::Read("a", 2, Err(FileStop::TooLong)),
    Call::Read("a", 0, Err(FileStop::TooLong)),
    Call::Read("empty", 0, Ok(0)),
    Call::Read("A", 3, Err(FileStop::Absent)),
    Call::Read("", 3, Err(FileStop::Absent)),
    Call::Write("a", b"w", Ok(())),
];

/// Whether a file was written, and nothing else changed.
fn are_steady(files: &SteadyFiles) -> bool {
    let written = files.get("a") == Some(b"w".as_slice());
    let kept = files.get("empty") == Some(b"".as_slice());
    written && kept && files.get("b").is_none()
}

#[test]
fn steady_files_hold_what_was_put_and_written(rt: HostRuntime) -> Result<(), AllocError> {
    let mut files = steady_files(rt.alloc())?;
    let other = first_other_call(rt.alloc(), &mut files, STEADY_CALLS);
    assert_eq!(rt; (other, are_steady(&files)), (None, true));
    Ok(())
}

/// Files of which one is held, and the second and the fourth call fail.
fn memory_files(alloc: Global) -> Result<MemoryFiles, AllocError> {
    let mut files = MemoryFiles::new(alloc, vec![in alloc; 2, 4]?);
    files.put("a", b"xyz")?;
    Ok(files)
}

const MEMORY_CALLS: &[Call] = &[
    Call::Read("a", 3, Ok(3)),
    Call::Read("a", 3, Err(FileStop::Failed)),
    Call::Write("b", b"1", Ok(())),
    Call::Write("a", b"2", Err(FileStop::Failed)),
    Call::Read("c", 3, Err(FileStop::Absent)),
];

/// Whether a file was written, and the other kept.
fn are_written(files: &MemoryFiles) -> bool {
    let kept = files.get("a") == Some(b"xyz".as_slice());
    kept && files.get("b") == Some(b"1".as_slice())
}

#[test]
fn memory_files_fail_at_the_numbered_calls(rt: HostRuntime) -> Result<(), AllocError> {
    let mut files = memory_files(rt.alloc())?;
    let other = first_other_call(rt.alloc(), &mut files, MEMORY_CALLS);
    assert_eq!(rt; (other, are_written(&files)), (None, true));
    Ok(())
}

/// The first draw that gives something else.
fn first_other_draw<D: Draw>(draw: &mut D, wanted: &[Result<u64, Failed>]) -> Option<usize> {
    for (at, word) in wanted.iter().enumerate() {
        if draw.word() != *word {
            return Some(at);
        }
    }
    None
}

/// Behind its words it gives zeros.
#[test]
fn steady_draws_give_their_words_in_turn(rt: HostRuntime) -> Result<(), AllocError> {
    let mut draw = SteadyDraw::new(vec![in rt.alloc(); 7, 8]?);
    let other = first_other_draw(&mut draw, &[Ok(7), Ok(8), Ok(0), Ok(0)]);
    assert_eq!(rt; other, None);
    Ok(())
}

/// Two words, of which the second call fails.
fn memory_draw(alloc: Global) -> Result<MemoryDraw, AllocError> {
    let words = vec![in alloc; 7, 8]?;
    let fails = vec![in alloc; 2]?;
    Ok(MemoryDraw::new(words, fails))
}

#[test]
fn memory_draws_fail_at_the_numbered_calls(rt: HostRuntime) -> Result<(), AllocError> {
    let mut draw = memory_draw(rt.alloc())?;
    let wanted = [Ok(7), Err(Failed), Ok(8), Err(Failed), Err(Failed)];
    assert_eq!(rt; first_other_draw(&mut draw, &wanted), None);
    Ok(())
}

/// Bytes to be written, and what the write answers.
type Print = (&'static [u8], Result<(), Stop>);

/// The first write that answers otherwise.
fn first_other_print<O: Sink>(alloc: Global, out: &mut O, prints: &[Print]) -> Option<usize> {
    for (at, (bytes, wanted)) in prints.iter().enumerate() {
        if out.write(alloc, bytes) != *wanted {
            return Some(at);
        }
    }
    None
}

#[test]
fn steady_sinks_append_what_is_written(rt: HostRuntime) {
    let mut out = SteadySink::new(rt.alloc());
    let other = first_other_print(rt.alloc(), &mut out, &[(b"ab", Ok(())), (b"c", Ok(()))]);
    assert_eq!(rt; (other, out.bytes()), (None, b"abc".as_slice()));
}

const PRINTS: &[Print] = &[(b"ab", Ok(())), (b"c", Err(Stop::Failed)), (b"d", Ok(()))];

#[test]
fn memory_sinks_fail_at_the_numbered_calls(rt: HostRuntime) -> Result<(), AllocError> {
    let mut out = MemorySink::new(rt.alloc(), vec![in rt.alloc(); 2]?);
    let other = first_other_print(rt.alloc(), &mut out, PRINTS);
    assert_eq!(rt; (other, out.bytes()), (None, b"abd".as_slice()));
    Ok(())
}
