//! Names, labels and reserved words.
ghost use Rattle.std.specs.Prelude.{◌≡◌};
ghost use Rattle.std.specs.List.{list_all, list_any};
ghost use Rattle.spl_values.specs.Names.{is_name_start, is_name_byte, is_label_byte, is_same_word, is_reserved, is_name, is_label};

/// Whether a byte may begin a name: a letter of ASCII or an underscore.
pub fn is_name_start(byte: u8) -> bool
    ensures { result ≡ is_name_start byte }
{
    byte >= b'A' && byte <= b'Z' || byte >= b'a' && byte <= b'z' || byte == b'_'
}

/// Whether a byte may stand in a name: a letter, an underscore or a digit.
pub fn is_name_byte(byte: u8) -> bool
    ensures { result ≡ is_name_byte byte }
{
    is_name_start(byte) || byte >= b'0' && byte <= b'9'
}

fn is_label_byte(byte: u8) -> bool
    ensures { result ≡ is_label_byte byte }
{
    is_name_byte(byte) || byte == b'-'
}

/// Whether two words are the same but for the case of letters.
fn is_same_word(word: &[u8], other: &[u8]) -> bool
    ensures { result ≡ is_same_word word.now other.now }
{
    word.eq_ignore_ascii_case(other)
}

/// Whether a word is the same as one of some words but for the case of letters.
fn is_any_word(word: &[u8], others: &[&[u8]]) -> bool
    ensures { result ≡ list_any (λ other. is_same_word word.now other.now) others.now }
{
    others.iter().any(|other| is_same_word(word, other))
}

/// Whether a word is one of the reserved words of the query language, in any case of letters.
#[tactic(auto, unfolding(crate::specs::Names::reserved_words))]
pub fn is_reserved(word: &[u8]) -> bool
    ensures { result ≡ is_reserved word.now }
{
    let reserved: [&[u8]; 14] = [
        b"SELECT", b"FROM", b"WHERE", b"AND", b"OR", b"BETWEEN", b"GROUP", b"BY", b"COUNT", b"SUM",
        b"AVG", b"MAX", b"MIN", b"TOPK",
    ];
    is_any_word(word, &reserved)
}

fn are_name_bytes(text: &[u8]) -> bool
    ensures { result ≡ list_all is_name_byte text.now }
{
    text.iter().all(|byte| is_name_byte(*byte))
}

fn are_label_bytes(text: &[u8]) -> bool
    ensures { result ≡ list_all is_label_byte text.now }
{
    text.iter().all(|byte| is_label_byte(*byte))
}

/// Whether a text may be a name: 1 to 32 bytes, a letter or an underscore first, then letters,
/// digits and underscores, and no reserved word.
#[tactic(auto, unfolding(crate::specs::Names::is_name))]
pub fn is_name(text: &[u8]) -> bool
    ensures { result ≡ is_name text.now }
{
    match text {
        [] => false,
        [first, rest @ ..] => {
            is_name_start(*first) && are_name_bytes(rest) && rest.len() <= 31 && !is_reserved(text)
        }
    }
}

/// Whether a text may be a label: 1 to 32 letters, digits, underscores and minus signs.
#[tactic(auto, unfolding(crate::specs::Names::is_label))]
pub fn is_label(text: &[u8]) -> bool
    ensures { result ≡ is_label text.now }
{
    text.len() >= 1 && text.len() <= 32 && are_label_bytes(text)
}
