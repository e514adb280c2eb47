//! What the lines of a case say.
use crate::case_file::Line;
use crate::notation::{bytes_of, mark_of, number_of, numbers_of, words_of};
use crate::unread;
use frame_fields::digest_of;
use std::alloc::{AllocError, Global};
use std::collections::BTreeMap;
use std::rt::Files;
use std::{fs, io};

/// The bytes of each name.
pub type Folder = BTreeMap<String, Vec<u8>>;

/// The numbers of the calls that fail, from 1.
#[derive(Drop)]
pub struct Failing {
    pub files: Vec<u64>,
    pub draws: Vec<u64>,
    pub output: Vec<u64>,
}

/// The words of a command line, what they meet, and what has to come of them.
#[derive(Drop)]
pub struct Setting {
    /// The files that are held.
    pub folder: Folder,
    /// The words of the command line. With none no command is run.
    pub words: Option<Vec<String>>,
    /// The random words to come.
    pub drawn: Vec<u64>,
    pub failing: Failing,
    /// The number of the status.
    pub status: u64,
    /// All that is printed.
    pub printed: String,
    /// How many words are drawn.
    pub takes: u64,
    /// What each file is that is not as before.
    pub left: BTreeMap<String, String>,
}

/// No call that fails.
fn no_failing(alloc: Global) -> Failing {
    Failing {
        files: Vec::new(alloc),
        draws: Vec::new(alloc),
        output: Vec::new(alloc),
    }
}

impl Setting {
    /// Over these files, with these random words to come, and with nothing to come of them.
    pub fn new(alloc: Global, folder: Folder, drawn: Vec<u64>) -> Setting {
        Setting {
            folder,
            words: None,
            drawn,
            failing: no_failing(alloc),
            status: 0,
            printed: String::new(alloc),
            takes: 0,
            left: BTreeMap::new(alloc),
        }
    }

    /// Takes what a line says.
    pub fn add<R: Files + Alloc<A = Global>>(&mut self, rt: &R, line: &Line) -> io::Result<()> {
        let alloc = rt.alloc();
        match line.word {
            "run" => self.set_words(alloc, line.rest),
            "drawn" => self.set_drawn(alloc, line.rest),
            "fail" => self.set_failing(alloc, line.rest),
            "status" => self.set_status(line),
            "takes" => self.set_takes(line.rest),
            "left" => self.add_left(alloc, line),
            "remove" => self.remove(line.rest),
            _ => self.add_file(rt, line),
        }
    }

    /// Takes the words of the command line.
    fn set_words(&mut self, alloc: Global, text: &str) -> io::Result<()> {
        self.words = Some(words_of(alloc, text)?);
        Ok(())
    }

    /// Takes the random words to come.
    fn set_drawn(&mut self, alloc: Global, text: &str) -> io::Result<()> {
        self.drawn = numbers_of(alloc, text)?;
        Ok(())
    }

    /// Takes the numbers of the calls that fail.
    fn set_failing(&mut self, alloc: Global, text: &str) -> io::Result<()> {
        let (object, numbers) = text.split_once(' ').unwrap_or((text, ""));
        let numbers = numbers_of(alloc, numbers)?;
        match object {
            "files" => self.failing.files = numbers,
            "draws" => self.failing.draws = numbers,
            "output" => self.failing.output = numbers,
            _ => return Err(unread()),
        }
        Ok(())
    }

    /// Takes the status, and what is printed.
    fn set_status(&mut self, line: &Line) -> io::Result<()> {
        self.status = number_of(line.rest)?;
        self.printed = line.text.clone()?;
        Ok(())
    }

    /// Takes how many words are drawn.
    fn set_takes(&mut self, text: &str) -> io::Result<()> {
        self.takes = number_of(text)?;
        Ok(())
    }

    /// Takes what a file is that is left.
    fn add_left(&mut self, alloc: Global, line: &Line) -> io::Result<()> {
        let (name, rest) = line.rest.split_once(' ').unwrap_or((line.rest, ""));
        let mark = self.mark(alloc, rest, &line.text)?;
        let name = String::from_str(alloc, name)?;
        self.left.insert(name, mark)?;
        Ok(())
    }

    /// What a file has to be.
    fn mark(&self, alloc: Global, said: &str, text: &str) -> io::Result<String> {
        match said.split_once(' ').unwrap_or((said, "")) {
            ("text", _) => Ok(mark_of(alloc, Some(text.as_bytes()))?),
            ("bytes", rest) => mark_of_read(alloc, bytes_of(alloc, rest)),
            ("copy", rest) => mark_of_read(alloc, copied(alloc, &self.folder, rest)),
            _ => Ok(String::from_str(alloc, said)?),
        }
    }

    /// Takes a file away.
    fn remove(&mut self, name: &str) -> io::Result<()> {
        self.folder.remove(name);
        Ok(())
    }

    /// Makes a file, or changes it.
    fn add_file<R: Files + Alloc<A = Global>>(&mut self, rt: &R, line: &Line) -> io::Result<()> {
        let (name, rest) = line.rest.split_once(' ').unwrap_or((line.rest, ""));
        let bytes = self.made(rt, line, name, rest)?;
        let name = String::from_str(rt.alloc(), name)?;
        self.folder.insert(name, bytes)?;
        Ok(())
    }

    /// The bytes of a file that a line makes.
    fn made<R: Files + Alloc<A = Global>>(
        &self,
        rt: &R,
        line: &Line,
        name: &str,
        rest: &str,
    ) -> io::Result<Vec<u8>> {
        let alloc = rt.alloc();
        match line.word {
            "text" => Ok(Vec::from_slice(alloc, line.text.as_bytes())?),
            "bytes" => bytes_of(alloc, rest),
            "data" => fs::read(rt, rest),
            "copy" => copied(alloc, &self.folder, rest),
            word => bent(alloc, word, rest, copied(alloc, &self.folder, name)),
        }
    }
}

/// A copy of the bytes of a file.
fn copied(alloc: Global, folder: &Folder, name: &str) -> io::Result<Vec<u8>> {
    match folder.get(name) {
        Some(bytes) => Ok(Vec::from_slice(alloc, bytes)?),
        None => Err(unread()),
    }
}

/// What a file of these bytes is.
fn mark_of_read(alloc: Global, bytes: io::Result<Vec<u8>>) -> io::Result<String> {
    let bytes = bytes?;
    Ok(mark_of(alloc, Some(&bytes))?)
}

/// Bytes after a change.
fn bent(alloc: Global, word: &str, rest: &str, bytes: io::Result<Vec<u8>>) -> io::Result<Vec<u8>> {
    let mut bytes = bytes?;
    bend(alloc, word, rest, &mut bytes)?;
    Ok(bytes)
}

/// Changes bytes.
fn bend(alloc: Global, word: &str, rest: &str, bytes: &mut Vec<u8>) -> io::Result<()> {
    match word {
        "add" => add(alloc, rest, bytes),
        "seal" => Ok(seal(bytes)?),
        "cut" => cut(number_of(rest), bytes),
        "grow" => grow(number_of(rest), bytes),
        "flip" => flip(number_of(rest), bytes),
        _ => Err(unread()),
    }
}

/// Adds bytes at the end.
fn add(alloc: Global, text: &str, bytes: &mut Vec<u8>) -> io::Result<()> {
    let more = bytes_of(alloc, text)?;
    Ok(bytes.extend_from_slice(&more)?)
}

/// Adds the SHA-256 at the end.
fn seal(bytes: &mut Vec<u8>) -> Result<(), AllocError> {
    let digest = digest_of(bytes);
    bytes.extend_from_slice(&digest)
}

/// Cuts so many bytes off the end.
fn cut(count: io::Result<u64>, bytes: &mut Vec<u8>) -> io::Result<()> {
    let count = count? as usize;
    bytes.truncate(bytes.len().saturating_sub(count));
    Ok(())
}

/// Adds zeros, or cuts bytes off, so that there are so many.
fn grow(count: io::Result<u64>, bytes: &mut Vec<u8>) -> io::Result<()> {
    let count = count? as usize;
    Ok(bytes.resize(count, 0)?)
}

/// Turns the lowest bit of the byte at a place.
fn flip(place: io::Result<u64>, bytes: &mut Vec<u8>) -> io::Result<()> {
    let place = place? as usize;
    match bytes.get_mut(place) {
        Some(byte) => *byte ^= 1,
        None => return Err(unread()),
    }
    Ok(())
}
