//! The commands with their words.
use spl_words::Provider;

/// The words of `trace`.
#[derive(Debug, Drop)]
pub struct TraceWords<'a> {
    /// The name of the shape's file.
    pub shape: &'a str,
    /// The name of the table's file.
    pub table: &'a str,
    /// The query.
    pub query: &'a str,
    /// The query's parameters, at least one.
    pub parameters: Vec<String>,
    /// How many workers there are, 1 to 64.
    pub workers: usize,
}

/// The words of `keys`.
#[derive(Debug, Drop)]
pub struct KeysWords<'a> {
    /// The name of the shape's file.
    pub shape: &'a str,
    /// The query.
    pub query: &'a str,
    /// The name of the note, which is to be written.
    pub note: &'a str,
    /// The name of the first provider's key file, which is to be written.
    pub key_zero: &'a str,
    /// The name of the second provider's key file, which is to be written.
    pub key_one: &'a str,
    /// The query's parameters, at least one.
    pub parameters: Vec<String>,
}

/// The words of `answer`.
#[derive(Debug, Drop)]
pub struct AnswerWords<'a> {
    /// The provider that answers.
    pub provider: Provider,
    /// The name of the shape's file.
    pub shape: &'a str,
    /// The name of the table's file.
    pub table: &'a str,
    /// The name of the key file.
    pub key: &'a str,
    /// The name of the answer's file, which is to be written.
    pub out: &'a str,
    /// How many workers there are, 1 to 64.
    pub workers: usize,
}

/// The words of `combine`.
#[derive(Debug, Drop)]
pub struct CombineWords<'a> {
    /// The name of the note.
    pub note: &'a str,
    /// The name of one answer's file.
    pub first: &'a str,
    /// The name of the other answer's file.
    pub second: &'a str,
}

/// A command with its words.
#[derive(Debug, Drop)]
pub enum Command<'a> {
    /// Plays both providers in one process.
    Trace(TraceWords<'a>),
    /// Starts a session: writes its note and both key files.
    Keys(KeysWords<'a>),
    /// Answers one key file.
    Answer(AnswerWords<'a>),
    /// Prints the answer that two answers add to.
    Combine(CombineWords<'a>),
}
