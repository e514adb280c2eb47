//! What the words of a command mean.
use command_words::{Command, command_of};
use spl_words::Provider;
use std::alloc::{AllocError, Global};

/// Words of `trace` over the files s and t with the query q: its parameters, and how many workers.
const TRACES: [(&str, &str, usize); 6] = [
    ("trace s t q 1", "1", 4),
    ("trace s t q 1 5", "1 5", 4),
    ("trace s t q 1 --workers 0064 5", "1 5", 64),
    ("trace --workers=1 s t q 1", "1", 1),
    ("trace s t q -- -5 --x", "-5 --x", 4),
    ("trace s t q  1", " 1", 4),
];

/// The words between spaces.
fn words_of(alloc: Global, line: &str) -> Result<Vec<String>, AllocError> {
    let mut words = Vec::new(alloc);
    for word in line.split(' ') {
        words.push(String::from_str(alloc, word)?)?;
    }
    Ok(words)
}

/// Whether the words are those of `trace` over the files s and t with the query q.
fn are_trace(alloc: Global, words: &Vec<String>, parameters: &[String], workers: usize) -> bool {
    match command_of(alloc, words) {
        Ok(Command::Trace(trace)) => {
            trace.shape == "s"
                && trace.table == "t"
                && trace.query == "q"
                && trace.parameters.as_slice() == parameters
                && trace.workers == workers
        }
        _ => false,
    }
}

/// Whether a line is read as those words of `trace`.
fn is_trace(
    alloc: Global,
    line: &str,
    parameters: &str,
    workers: usize,
) -> Result<bool, AllocError> {
    let parameters = words_of(alloc, parameters)?;
    let words = words_of(alloc, line)?;
    Ok(are_trace(alloc, &words, &parameters, workers))
}

/// The first line that isn't read as it has to be.
fn first_other(alloc: Global) -> Option<&'static str> {
    for (line, parameters, workers) in TRACES {
        if is_trace(alloc, line, parameters, workers) != Ok(true) {
            return Some(line);
        }
    }
    None
}

#[test]
fn reads_the_words_of_trace(rt: HostRuntime) {
    assert_eq!(rt; first_other(rt.alloc()), None);
}

/// Whether the words are those of `keys` over the files s, n, k0 and k1 with the query q.
fn are_keys(alloc: Global, words: &Vec<String>, parameters: &[String]) -> bool {
    match command_of(alloc, words) {
        Ok(Command::Keys(keys)) => {
            keys.shape == "s"
                && keys.query == "q"
                && keys.note == "n"
                && keys.key_zero == "k0"
                && keys.key_one == "k1"
                && keys.parameters.as_slice() == parameters
        }
        _ => false,
    }
}

#[test]
fn reads_the_words_of_keys(rt: HostRuntime) -> Result<(), AllocError> {
    let words = words_of(rt.alloc(), "keys s q n k0 k1 1 s")?;
    let parameters = words_of(rt.alloc(), "1 s")?;
    assert!(rt; are_keys(rt.alloc(), &words, &parameters));
    Ok(())
}

/// Whether the words are those of `answer` over the files s, t, k and o.
fn are_answer(alloc: Global, words: &Vec<String>, provider: Provider, workers: usize) -> bool {
    match command_of(alloc, words) {
        Ok(Command::Answer(answer)) => {
            answer.provider == provider
                && answer.shape == "s"
                && answer.table == "t"
                && answer.key == "k"
                && answer.out == "o"
                && answer.workers == workers
        }
        _ => false,
    }
}

/// Whether a line is read as those words of `answer`.
fn is_answer(alloc: Global, line: &str, provider: Provider, workers: usize) -> bool {
    match words_of(alloc, line) {
        Ok(words) => are_answer(alloc, &words, provider, workers),
        Err(_) => false,
    }
}

#[test]
fn reads_the_words_of_answer(rt: HostRuntime) {
    let zero = is_answer(rt.alloc(), "answer 0 s t k o", Provider::Zero, 4);
    let one = is_answer(
        rt.alloc(),
        "answer 01 s t k o --workers 8",
        Provider::One,
        8,
    );
    assert_eq!(rt; (zero, one), (true, true));
}

/// Whether the words are those of `combine` over the files n, a and b.
fn are_combine(alloc: Global, words: &Vec<String>) -> bool {
    match command_of(alloc, words) {
        Ok(Command::Combine(combine)) => {
            combine.note == "n" && combine.first == "a" && combine.second == "b"
        }
        _ => false,
    }
}

#[test]
fn reads_the_words_of_combine(rt: HostRuntime) -> Result<(), AllocError> {
    let words = words_of(rt.alloc(), "combine n a b")?;
    assert!(rt; are_combine(rt.alloc(), &words));
    Ok(())
}
