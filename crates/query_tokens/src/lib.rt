//! The tokens of a query's text, and the text of tokens.
//!
//! Every token is the longest one at its place. The first place where the bytes form no token ends
//! the list: no query goes on behind it.
#![tactic(auto)]

mod characters;
mod laws;
mod lexer;
mod printer;

pub use characters::{is_blank, is_digit, is_printable, number, symbol};
pub use laws::{
    canonical_text_is_read, printed_is_lexed, read_is_well_formed, words_are_whole,
    written_is_printed,
};
pub use lexer::{Lexeme, tokens};
pub use printer::{Last, Printer};
