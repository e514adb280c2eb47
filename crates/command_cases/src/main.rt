//! Runs the cases of the files that its command line names: what each command prints, draws and leaves, over files,
//! random words and an output in memory, of which chosen calls fail.
#![tactic(auto)]

mod case_file;
mod comparing;
mod notation;
mod running;
mod setting;

use case_file::{Case, cases_of};
use comparing::{differences, folder_of, names_of};
use running::{Found, found_of};
use setting::{Folder, Setting};
use std::alloc::Global;
use std::fmt::Display;
use std::io::ErrorKind;
use std::process::ExitCode;
use std::rt::{Env, Files};
use std::thread::Threads;
use std::{env, fs, io};

/// The fault of a line that has another form.
fn unread() -> io::Error {
    io::Error::from(ErrorKind::InvalidData)
}

/// The random words to come where a case says none.
const DRAWN: &[u64] = &[1, 2, 3, 4, 5, 6, 7, 8, 9, 10];

/// What a case without lines says over some files.
fn bare_setting(alloc: Global, folder: &Folder) -> io::Result<Setting> {
    let drawn = Vec::from_slice(alloc, DRAWN)?;
    Ok(Setting::new(alloc, folder.clone()?, drawn))
}

/// What the lines of a case say over some files.
fn setting_of<R: Files + Alloc<A = Global>>(
    rt: &R,
    folder: &Folder,
    case: &Case,
) -> io::Result<Setting> {
    let mut setting = bare_setting(rt.alloc(), folder)?;
    for line in &case.lines {
        setting.add(rt, line)?;
    }
    Ok(setting)
}

/// Gives what differs. A step changes the files.
fn judged(
    alloc: Global,
    folder: &mut Folder,
    is_step: bool,
    setting: &Setting,
    found: &Found,
) -> io::Result<Vec<String>> {
    let names = names_of(alloc, setting)?;
    if is_step {
        *folder = folder_of(alloc, &found.files, &names)?;
    }
    differences(alloc, setting, found, &names)
}

/// Runs a case, and gives what differs.
fn run_case<R: Files + Threads + Sync + Alloc<A = Global>>(
    rt: &R,
    folder: &mut Folder,
    case: &Case,
) -> io::Result<Vec<String>> {
    let setting = setting_of(rt, folder, case)?;
    let found = found_of(rt, rt.alloc(), &setting)?;
    judged(rt.alloc(), folder, case.is_step, &setting, &found)
}

/// Prints what is told of a case.
fn print_told<R: Print, D: Display>(rt: &R, file: &str, case: &Case, told: &D) -> io::Result<()> {
    let Case { number, name, .. } = case;
    println!(rt; "{file}, line {number}, {name}: {told}")
}

/// Prints all that differs, and says whether nothing does.
fn print_all<R: Print>(rt: &R, file: &str, case: &Case, told: &[String]) -> io::Result<bool> {
    for difference in told {
        print_told(rt, file, case, difference)?;
    }
    Ok(told.is_empty())
}

/// Runs a case, prints what differs, and says whether nothing does.
fn holds<R: Files + Print + Threads + Sync + Alloc<A = Global>>(
    rt: &R,
    file: &str,
    folder: &mut Folder,
    case: &Case,
) -> io::Result<bool> {
    match run_case(rt, folder, case) {
        Ok(told) => print_all(rt, file, case, &told),
        Err(error) => {
            print_told(rt, file, case, &error)?;
            Ok(false)
        }
    }
}

/// Runs the cases of a file, and gives how many held.
fn count_held<R: Files + Print + Threads + Sync + Alloc<A = Global>>(
    rt: &R,
    file: &str,
    cases: &[Case],
) -> io::Result<usize> {
    let mut folder = Folder::new(rt.alloc());
    let mut held = 0usize;
    for case in cases {
        if holds(rt, file, &mut folder, case)? {
            held = held.saturating_add(1);
        }
    }
    Ok(held)
}

/// Runs the cases of a text, prints how many held, and says whether all did.
fn run_text<R: Files + Print + Threads + Sync + Alloc<A = Global>>(
    rt: &R,
    file: &str,
    text: &str,
) -> io::Result<bool> {
    let cases = cases_of(rt.alloc(), text)?;
    let held = count_held(rt, file, &cases)?;
    println!(rt; "{file}: {held} of {} cases held", cases.len())?;
    Ok(held == cases.len())
}

/// Runs the cases of a file, and says whether all held.
fn run_file<R: Files + Print + Threads + Sync + Alloc<A = Global>>(
    rt: &R,
    file: &str,
) -> io::Result<bool> {
    let text = fs::read_to_string(rt, file)?;
    run_text(rt, file, &text)
}

/// Runs a file, prints why it can't be run where that is so, and says whether all its cases held.
fn all_hold<R: Files + Print + Threads + Sync + Alloc<A = Global>>(
    rt: &R,
    file: &str,
) -> io::Result<bool> {
    match run_file(rt, file) {
        Ok(all) => Ok(all),
        Err(error) => {
            println!(rt; "{file}: {error}")?;
            Ok(false)
        }
    }
}

/// Runs all files, and says whether all their cases held.
fn run_files<R: Env + Files + Print + Threads + Sync + Alloc<A = Global>>(
    rt: &R,
) -> io::Result<bool> {
    let mut all = true;
    for file in env::args(rt)?.skip(1) {
        all = all_hold(rt, &file)? && all;
    }
    Ok(all)
}

/// Ends with 0 only where all cases of all files held.
fn main(rt: HostRuntime) -> ExitCode {
    match run_files(&rt) {
        Ok(true) => ExitCode::SUCCESS,
        _ => ExitCode::FAILURE,
    }
}
