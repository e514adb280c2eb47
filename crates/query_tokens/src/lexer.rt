//! The tokens of a text.
ghost use Rattle.std.specs.Prelude.{◌≡◌, ◌+◌, ◌<◌, ◌≤◌, Bool, false, length, IfOk, IfSome, OnOk, OnSome, IsTrue, option_map};
ghost use Rattle.std.specs.List.{list_all};
ghost use Rattle.spl_values.specs.Names.{is_name_byte as byte_test};
ghost use Rattle.query_tokens.specs.Lexing.{is_digit as digit_test, symbol_of};
ghost use Rattle.query_tokens.specs.Tokens.{same_word as word_test, word_token as token_of, word_lexeme as word_lexeme_of, number_lexeme as number_lexeme_of, text_lexeme as text_lexeme_of, lexeme as lexeme_of, text_end as end_of, undoubled as undoubled_of, lexeme_with, tokens_in};
ghost use Rattle.query_grammar.specs.declared.token.Token.TheVariants.{Symbol as SymbolToken};

use crate::characters::{digits_len, is_blank, is_digit, is_printable, number, symbol, word_len};
use query_grammar::{Aggregate, Placed, Symbol, Token};
use spl_values::{Bytes, Name, is_name_start};
use std::alloc::{AllocError, Global};
use std::collections::VecDeque;

/// A token, and how many bytes of it stand behind its first.
#[derive(Debug, Drop)]
pub struct Lexeme {
    pub token: Token,
    pub more: usize,
}

/// Whether the bytes are this word but for the case of letters.
fn is_word(bytes: &[u8], word: &[u8]) -> bool
    ensures { result ≡ word_test bytes.now word.now }
{
    bytes.eq_ignore_ascii_case(word)
}

/// The name that these bytes of a word are.
fn name(alloc: Global, word: &[u8]) -> Result<Name, AllocError>
    requires { IsTrue (list_all byte_test word.now) }
    ensures { IfOk result (λ n. n ≡ word.now) }
{
    match str::from_utf8(word) {
        Ok(text) => Ok(Name::from_string(String::from_str(alloc, text)?)),
        Err(_) => unreachable!(),
    }
}

/// The reserved word that the bytes are, in any case of letters, or a name.
fn word_token(alloc: Global, word: &[u8]) -> Result<Token, AllocError>
    requires { IsTrue (list_all byte_test word.now) }
    ensures { IfOk result (λ t. t ≡ token_of word.now) }
{
    if is_word(word, b"SELECT") {
        return Ok(Token::Symbol(Symbol::Select));
    }
    if is_word(word, b"FROM") {
        return Ok(Token::Symbol(Symbol::From));
    }
    if is_word(word, b"WHERE") {
        return Ok(Token::Symbol(Symbol::Where));
    }
    if is_word(word, b"AND") {
        return Ok(Token::Symbol(Symbol::And));
    }
    if is_word(word, b"OR") {
        return Ok(Token::Symbol(Symbol::Or));
    }
    if is_word(word, b"BETWEEN") {
        return Ok(Token::Symbol(Symbol::Between));
    }
    if is_word(word, b"GROUP") {
        return Ok(Token::Symbol(Symbol::Group));
    }
    if is_word(word, b"BY") {
        return Ok(Token::Symbol(Symbol::By));
    }
    if is_word(word, b"COUNT") {
        return Ok(Token::Symbol(Symbol::Count));
    }
    if is_word(word, b"SUM") {
        return Ok(Token::Aggregate(Aggregate::Sum));
    }
    if is_word(word, b"AVG") {
        return Ok(Token::Aggregate(Aggregate::Avg));
    }
    if is_word(word, b"MAX") {
        return Ok(Token::Aggregate(Aggregate::Max));
    }
    if is_word(word, b"MIN") {
        return Ok(Token::Aggregate(Aggregate::Min));
    }
    if is_word(word, b"TOPK") {
        return Ok(Token::Symbol(Symbol::TopK));
    }
    Ok(Token::Name(name(alloc, word)?))
}

/// The token of a word; none where it is over 32 bytes.
fn word_lexeme(alloc: Global, word: &[u8]) -> Result<Option<Lexeme>, AllocError>
    requires some { 0 < length word.now }
    requires bytes { IsTrue (list_all byte_test word.now) }
    ensures { IfOk result (λ o. o ≡ word_lexeme_of word.now) }
{
    if word.len() > 32 {
        return Ok(None);
    }
    let token = word_token(alloc, word)?;
    Ok(Some(Lexeme {
        token,
        more: word.len() - 1,
    }))
}

/// The token of a number; none where it is 2^64 or more.
fn number_lexeme(digits: &[u8]) -> Option<Lexeme>
    requires digits { IsTrue (list_all digit_test digits.now) }
    requires some { 0 < length digits.now }
    ensures { result ≡ number_lexeme_of digits.now }
{
    let value = number(digits)?;
    Some(Lexeme {
        token: Token::Number(value),
        more: digits.len() - 1,
    })
}

/// How many bytes a text takes behind its first quote, the last quote that can end it among them.
fn text_end(bytes: &[u8]) -> Option<usize>
    ensures { result ≡ end_of false bytes.now }
{
    let mut end = None;
    let mut closed = false;
    for (i, b) in bytes.iter().enumerate() {
        if *b == b'\'' {
            if !closed {
                end = Some(i + 1);
            }
            closed = !closed;
        } else if closed || !is_printable(*b) {
            return end;
        }
    }
    end
}

/// The bytes that a text means: two quotes stand for one.
fn undoubled(alloc: Global, bytes: &[u8]) -> Result<Vec<u8>, AllocError>
    ensures { IfOk result (λ v. v.items ≡ undoubled_of false bytes.now) }
{
    let mut text = Vec::new(alloc);
    let mut second = false;
    for b in bytes {
        if second {
            second = false;
        } else {
            text.push(*b)?;
            second = *b == b'\'';
        }
    }
    Ok(text)
}

/// The text whose first quote stands before these bytes; none where no quote ends it.
fn text_lexeme(alloc: Global, bytes: &[u8]) -> Result<Option<Lexeme>, AllocError>
    ensures { IfOk result (λ o. o ≡ text_lexeme_of bytes.now) }
{
    match text_end(bytes) {
        None => Ok(None),
        Some(end) => {
            let text = undoubled(alloc, &bytes[..end - 1])?;
            Ok(Some(Lexeme {
                token: Token::Text(Bytes::from_vec(text)),
                more: end,
            }))
        }
    }
}

/// The token of a sign; none where the byte is no sign.
fn symbol_lexeme(b: u8) -> Option<Lexeme>
    ensures { result ≡ option_map (λ s. lexeme_with (SymbolToken s) 0) (symbol_of b) }
{
    let symbol = symbol(b)?;
    Some(Lexeme {
        token: Token::Symbol(symbol),
        more: 0,
    })
}

/// The longest token at the front; none where the bytes form no token there.
fn front_lexeme(alloc: Global, bytes: &[u8]) -> Result<Option<Lexeme>, AllocError>
    requires { 0 < length bytes.now }
    ensures { IfOk result (λ o. o ≡ lexeme_of bytes.now) }
{
    let first = bytes[0];
    if is_name_start(first) {
        word_lexeme(alloc, &bytes[..word_len(bytes)])
    } else if is_digit(first) {
        Ok(number_lexeme(&bytes[..digits_len(bytes)]))
    } else if first == b'\'' {
        text_lexeme(alloc, &bytes[1..])
    } else {
        Ok(symbol_lexeme(first))
    }
}

/// The tokens of a text, each with its place. The first place where the bytes form no token ends
/// the list, with `Token::Nothing`.
pub fn tokens(alloc: Global, text: &[u8]) -> Result<VecDeque<Placed>, AllocError>
    ensures { IfOk result (λ v. v.items ≡ tokens_in text.now) }
{
    let mut tokens = VecDeque::new(alloc);
    let mut at = 0;
    while at < text.len() {
        if is_blank(text[at]) {
            at += 1;
        } else {
            let front = front_lexeme(alloc, &text[at..])?;
            match front {
                None => {
                    tokens.push_back(Placed {
                        token: Token::Nothing,
                        at: at as u64,
                    })?;
                    return Ok(tokens);
                }
                Some(lexeme) => {
                    tokens.push_back(Placed {
                        token: lexeme.token,
                        at: at as u64,
                    })?;
                    at += lexeme.more + 1;
                }
            }
        }
    }
    Ok(tokens)
}
