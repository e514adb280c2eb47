//! What single bytes mean in a query's text, and runs of digits.
ghost use Rattle.std.specs.Prelude.{◌≡◌, ◌+◌, ◌≤◌, IsTrue};
ghost use Rattle.std.specs.List.{prefix_len, list_all};
ghost use Rattle.spl_values.specs.Names.{is_name_byte as word_test};
ghost use Rattle.spl_values.specs.Kinds.{is_printable as printable_test};
ghost use Rattle.query_tokens.specs.Lexing.{is_blank as blank_test, is_digit as digit_test, decimal, below_end, symbol_of};

use query_grammar::Symbol;
use spl_values::is_name_byte;

/// Whether the byte parts tokens: a space, a tab, CR or LF.
pub fn is_blank(b: u8) -> bool
    ensures { result ≡ blank_test b }
{
    b == b' ' || b == b'\t' || b == b'\r' || b == b'\n'
}

/// Whether the byte is a digit.
pub fn is_digit(b: u8) -> bool
    ensures { result ≡ digit_test b }
{
    b.is_ascii_digit()
}

/// Whether the byte may stand in a text: 0x20 to 0x7e.
pub fn is_printable(b: u8) -> bool
    ensures { result ≡ printable_test b }
{
    b' ' <= b && b <= b'~'
}

/// How many digits stand in front.
pub(crate) fn digits_len(bytes: &[u8]) -> usize
    ensures { result ≡ prefix_len digit_test bytes.now }
{
    bytes.iter().take_while(|b| is_digit(**b)).count()
}

/// How many bytes of a word stand in front.
pub(crate) fn word_len(bytes: &[u8]) -> usize
    ensures { result ≡ prefix_len word_test bytes.now }
{
    bytes.iter().take_while(|b| is_name_byte(**b)).count()
}

/// The sign that the byte is, if it is one.
pub fn symbol(b: u8) -> Option<Symbol>
    ensures { result ≡ symbol_of b }
{
    match b {
        b'(' => Some(Symbol::Open),
        b')' => Some(Symbol::Close),
        b',' => Some(Symbol::Comma),
        b'*' => Some(Symbol::Star),
        b'=' => Some(Symbol::Equals),
        b'?' => Some(Symbol::Question),
        b';' => Some(Symbol::Semicolon),
        _ => None,
    }
}

/// The number that the digits spell; nothing where it is 2^64 or more.
pub fn number(digits: &[u8]) -> Option<u64>
    requires { IsTrue (list_all digit_test digits.now) }
    ensures { result ≡ below_end (decimal 0 digits.now) }
{
    let mut n: u64 = 0;
    for d in digits {
        let digit = u64::from(*d - b'0');
        n = n.checked_mul(10)?.checked_add(digit)?;
    }
    Some(n)
}
