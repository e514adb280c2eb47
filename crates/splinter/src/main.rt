//! Private SQL over two providers: the program `splinter`.
#![tactic(auto)]

ghost use Rattle.std.specs.Prelude.{◌≡◌, ◌↔◌, IsTrue, drop, map, string_bytes};
ghost use Rattle.std.specs.Process.{exit_status};
ghost use Rattle.splinter.specs.Words.{make_secrets};
ghost use Rattle.splinter_status.specs.Texts.{status_number};

use share_eval::OpenGate;
use splinter_cli::run;
use splinter_host::{HostDraw, HostFiles, HostSink, Readers};
use splinter_status::{Status, number_of};
use std::alloc::Global;
use std::process::ExitCode;
use std::rt::Env;
use std::{env, io};

/// The words behind the first, which is the program's name.
fn behind_name(mut words: Vec<String>) -> Vec<String>
    ensures { result.items ≡ drop 1 words.items }
{
    if !words.is_empty() {
        let _name = words.remove(0);
    }
    words
}

/// The words of the command line.
fn words_of<R: Env + Alloc<A = Global>>(rt: &R) -> io::Result<Vec<String>> {
    let words = env::args(rt)?.collect(rt.alloc())?;
    Ok(behind_name(words))
}

/// Who may read what the command writes: of secrets the user alone.
fn readers_of(words: &[String]) -> Readers
    ensures { (result ≡ Readers.Owner) ↔ IsTrue (make_secrets (map string_bytes words.now)) }
{
    match words.first() {
        Some(word) if word.as_str() == "keys" => Readers::Owner,
        _ => Readers::Umask,
    }
}

/// What the program ends with.
fn exit_code(status: &Status) -> ExitCode
    ensures { exit_status result ≡ status_number status.now }
{
    ExitCode::from(number_of(status))
}

/// Runs the command. Words that can't be read form none.
fn main(rt: HostRuntime) -> ExitCode {
    let alloc = rt.alloc();
    let words = words_of(&rt).unwrap_or(Vec::new(alloc));
    let mut files = HostFiles::new(&rt, readers_of(&words));
    let mut draw = HostDraw::new(&rt);
    let mut out = HostSink::new(&rt);
    let status = run(
        &rt, alloc, &words, &mut files, &mut draw, &mut out, &OpenGate,
    );
    exit_code(&status)
}
