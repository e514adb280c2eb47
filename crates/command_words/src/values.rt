//! What `clap` reads for the words of a command.
ghost use Rattle.std.specs.Prelude.{◌≡◌, ◌↔◌, true, map, IfOk};
ghost use Rattle.std.specs.String.{string_bytes};
ghost use Rattle.clap.specs.Words.{all_of, app_of, first_of, found_of, is_simple_and_free, kind_of, rows_of};
ghost use Rattle.command_words.specs.Forms.{rows_in};
ghost use Rattle.command_words.specs.Views.{Means};

use crate::fault::FormFault;
use clap::error::ErrorKind;
use clap::{ArgMatches, Command, Error};
use std::alloc::{AllocError, Global};

/// Each refusal of `clap` is a fault of the form, but for want of memory.
fn fault_of(error: &Error) -> FormFault
    ensures { (result ≡ FormFault.OutOfMemory) ↔ (kind_of error.now ≡ ErrorKind.OutOfMemory) }
{
    if error.kind() == ErrorKind::OutOfMemory {
        FormFault::OutOfMemory
    } else {
        FormFault::Usage
    }
}

/// What `clap` reads for the words of a command.
pub fn matches_of<'a>(
    command: Command<'a>,
    words: &'a [String],
) -> Result<ArgMatches<'a>, FormFault>
    requires { is_simple_and_free (app_of command) ≡ true }
    ensures { Means (λ m. rows_of (found_of m)) result (rows_in (app_of command.entry) (map string_bytes words.entry.now)) }
{
    match command.try_get_matches_from(words) {
        Ok(matches) => Ok(matches),
        Err(error) => Err(fault_of(&error)),
    }
}

/// The word that is known by this name.
pub fn word<'a>(matches: &ArgMatches<'a>, name: &str) -> Result<&'a str, FormFault>
    ensures { Means (λ w. w.now) result (first_of name.now (rows_of (found_of matches.now))) }
{
    match matches.get_str(name) {
        Some(word) => Ok(word),
        None => Err(FormFault::Usage),
    }
}

/// Words of one's own.
fn copied(alloc: Global, words: &[&str]) -> Result<Vec<String>, AllocError>
    ensures { IfOk result (λ v. map string_bytes v.items ≡ map (λ w. w.now) words.now) }
{
    let mut copied = Vec::with_capacity(alloc, words.len())?;
    for word in words {
        copied.push(String::from_str(alloc, word)?)?;
    }
    Ok(copied)
}

/// The words that are known by this name.
pub fn some_words(alloc: Global, matches: &ArgMatches, name: &str) -> Result<Vec<String>, FormFault>
    ensures { Means (λ v. map string_bytes v.items) result (all_of name.now (rows_of (found_of matches.now))) }
{
    match matches.get_strs(name) {
        Some(words) => Ok(copied(alloc, words)?),
        None => Err(FormFault::Usage),
    }
}
