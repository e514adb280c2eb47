//! Runs the words of a case over the forms in memory.
use crate::setting::{Folder, Setting};
use share_eval::OpenGate;
use spl_outside::{Draw, MemoryDraw, MemoryFiles, MemorySink};
use splinter_cli::run;
use splinter_status::number_of;
use std::alloc::{AllocError, Global};
use std::thread::Threads;

/// What came of the words.
#[derive(Drop)]
pub struct Found {
    /// The number of the status.
    pub status: u64,
    pub printed: Vec<u8>,
    /// How many words were drawn.
    pub taken: u64,
    pub files: MemoryFiles,
}

/// The files of a folder, whose chosen calls fail.
fn files_of(alloc: Global, folder: &Folder, fails: &Vec<u64>) -> Result<MemoryFiles, AllocError> {
    let mut files = MemoryFiles::new(alloc, fails.clone()?);
    for (name, bytes) in folder {
        files.put(name, bytes)?;
    }
    Ok(files)
}

/// The random words to come, of which chosen calls fail.
fn draw_of(setting: &Setting) -> Result<MemoryDraw, AllocError> {
    let words = setting.drawn.clone()?;
    Ok(MemoryDraw::new(words, setting.failing.draws.clone()?))
}

/// The output, whose chosen calls fail.
fn sink_of(alloc: Global, setting: &Setting) -> Result<MemorySink, AllocError> {
    Ok(MemorySink::new(alloc, setting.failing.output.clone()?))
}

/// How many of these words were drawn, where so many further calls give those that were not.
fn taken_of(draw: &mut MemoryDraw, words: usize, calls: usize) -> u64 {
    let mut taken = words as u64;
    for _ in 0..calls {
        if draw.word().is_ok() {
            taken = taken.saturating_sub(1);
        }
    }
    taken
}

/// Runs the words, and gives the number of the status. With none it is 0.
fn status_of<T: Threads + Sync>(
    rt: &T,
    alloc: Global,
    words: &Option<Vec<String>>,
    files: &mut MemoryFiles,
    draw: &mut MemoryDraw,
    out: &mut MemorySink,
) -> u64 {
    match words {
        Some(words) => {
            let status = run(rt, alloc, words, files, draw, out, &OpenGate);
            u64::from(number_of(&status))
        }
        None => 0,
    }
}

/// What comes of a case over these files and these random words.
fn found_over<T: Threads + Sync>(
    rt: &T,
    alloc: Global,
    setting: &Setting,
    mut files: MemoryFiles,
    draw: &mut MemoryDraw,
) -> Result<Found, AllocError> {
    let mut out = sink_of(alloc, setting)?;
    let status = status_of(rt, alloc, &setting.words, &mut files, draw, &mut out);
    let drawn = setting.drawn.len();
    let calls = drawn.saturating_add(setting.failing.draws.len());
    let taken = taken_of(draw, drawn, calls);
    let printed = Vec::from_slice(alloc, out.bytes())?;
    Ok(Found {
        status,
        printed,
        taken,
        files,
    })
}

/// What comes of a case.
pub fn found_of<T: Threads + Sync>(
    rt: &T,
    alloc: Global,
    setting: &Setting,
) -> Result<Found, AllocError> {
    let mut draw = draw_of(setting)?;
    let files = files_of(alloc, &setting.folder, &setting.failing.files)?;
    found_over(rt, alloc, setting, files, &mut draw)
}
