//! What came of a case beside what had to come.
use crate::notation::mark_of;
use crate::running::Found;
use crate::setting::{Folder, Setting};
use spl_outside::MemoryFiles;
use std::alloc::{AllocError, Global};
use std::io;

/// The words of a command line, if there are any.
fn words_of(alloc: Global, words: &Option<Vec<String>>) -> Result<Vec<String>, AllocError> {
    match words {
        Some(words) => words.clone(),
        None => Ok(Vec::new(alloc)),
    }
}

/// Adds a name.
fn push_name(alloc: Global, names: &mut Vec<String>, name: &str) -> Result<(), AllocError> {
    names.push(String::from_str(alloc, name)?)?;
    Ok(())
}

/// The names of the files that were held, of those to be left, and the words, which name all others.
pub fn names_of(alloc: Global, setting: &Setting) -> Result<Vec<String>, AllocError> {
    let mut names = words_of(alloc, &setting.words)?;
    for name in setting.folder.keys().chain(setting.left.keys()) {
        push_name(alloc, &mut names, name)?;
    }
    Ok(names)
}

/// Puts a file into a folder.
fn put_file(
    alloc: Global,
    folder: &mut Folder,
    name: &str,
    bytes: &[u8],
) -> Result<(), AllocError> {
    let name = String::from_str(alloc, name)?;
    folder.insert(name, Vec::from_slice(alloc, bytes)?)?;
    Ok(())
}

/// The files of these names.
pub fn folder_of(
    alloc: Global,
    files: &MemoryFiles,
    names: &[String],
) -> Result<Folder, AllocError> {
    let mut folder = Folder::new(alloc);
    for name in names {
        if let Some(bytes) = files.get(name) {
            put_file(alloc, &mut folder, name, bytes)?;
        }
    }
    Ok(folder)
}

/// Tells both sides of what differs.
fn tell(
    alloc: Global,
    told: &mut Vec<String>,
    what: &str,
    found: &str,
    wanted: &str,
) -> Result<(), AllocError> {
    told.push(format!(in alloc; "{what} is {found} and has to be {wanted}")?)?;
    Ok(())
}

/// Tells both numbers where they differ.
fn compare_number(
    alloc: Global,
    told: &mut Vec<String>,
    what: &str,
    found: u64,
    wanted: u64,
) -> Result<(), AllocError> {
    if found == wanted {
        return Ok(());
    }
    told.push(format!(in alloc; "{what} is {found} and has to be {wanted}")?)?;
    Ok(())
}

/// Tells what is printed, where it differs.
fn compare_printed(
    alloc: Global,
    told: &mut Vec<String>,
    found: &[u8],
    wanted: &str,
) -> Result<(), AllocError> {
    if found == wanted.as_bytes() {
        return Ok(());
    }
    let found = String::from_utf8_lossy(alloc, found)?;
    tell(alloc, told, "what is printed", &found, wanted)
}

/// Tells a file that isn't what it has to be.
fn compare_mark(
    alloc: Global,
    told: &mut Vec<String>,
    name: &str,
    found: Option<&[u8]>,
    wanted: &str,
) -> io::Result<()> {
    let mark = mark_of(alloc, found)?;
    if mark.as_str() != wanted {
        tell(alloc, told, name, &mark, wanted)?;
    }
    Ok(())
}

/// Tells a file that isn't what it was before.
fn compare_kept(
    alloc: Global,
    told: &mut Vec<String>,
    name: &str,
    found: Option<&[u8]>,
    before: Option<&[u8]>,
) -> io::Result<()> {
    if found == before {
        return Ok(());
    }
    let wanted = mark_of(alloc, before)?;
    compare_mark(alloc, told, name, found, &wanted)
}

/// Tells a file that isn't what the case says, or, where it says nothing, what it was before.
fn compare_file(
    alloc: Global,
    told: &mut Vec<String>,
    setting: &Setting,
    name: &str,
    found: Option<&[u8]>,
) -> io::Result<()> {
    match setting.left.get(name) {
        Some(wanted) => compare_mark(alloc, told, name, found, wanted),
        None => {
            let before = setting.folder.get(name).map(|bytes| bytes.as_slice());
            compare_kept(alloc, told, name, found, before)
        }
    }
}

/// Tells the files that differ.
fn compare_files(
    alloc: Global,
    told: &mut Vec<String>,
    setting: &Setting,
    files: &MemoryFiles,
    names: &[String],
) -> io::Result<()> {
    for name in names {
        compare_file(alloc, told, setting, name, files.get(name))?;
    }
    Ok(())
}

/// Tells where the end differs.
fn compare_end(
    alloc: Global,
    told: &mut Vec<String>,
    setting: &Setting,
    found: &Found,
) -> Result<(), AllocError> {
    compare_number(alloc, told, "its status", found.status, setting.status)?;
    compare_number(alloc, told, "what it draws", found.taken, setting.takes)?;
    compare_printed(alloc, told, &found.printed, &setting.printed)
}

/// Tells both sides of all that differs.
pub fn differences(
    alloc: Global,
    setting: &Setting,
    found: &Found,
    names: &[String],
) -> io::Result<Vec<String>> {
    let mut told = Vec::new(alloc);
    compare_end(alloc, &mut told, setting, found)?;
    compare_files(alloc, &mut told, setting, &found.files, names)?;
    Ok(told)
}
