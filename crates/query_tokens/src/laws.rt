//! Laws of the definitions.
ghost use Rattle.std.specs.Prelude.{◌≡◌, ◌++◌, ℕ, List, Ok, true};
ghost use Rattle.std.specs.List.{take_while, list_all};
ghost use Rattle.query_grammar.specs.declared.token.Token.{Token};
ghost use Rattle.query_grammar.specs.Queries.{QueryParts};
ghost use Rattle.query_grammar.specs.Grammar.{Reads};
ghost use Rattle.query_grammar.specs.Faults.{tokens_of};
ghost use Rattle.spl_values.specs.Names.{is_name_byte};
ghost use Rattle.query_tokens.specs.Tokens.{EndsWord, tokens_in};
ghost use Rattle.query_tokens.specs.Printing.{printed, canonical_text, AllCanStand, IsWellFormed, written, begun};

/// A word that stands before no other byte of a word is taken whole.
pub fn words_are_whole()
    ensures { (w rest : List ℕ) → list_all is_name_byte w ≡ true → EndsWord rest → take_while is_name_byte (w ++ rest) ≡ w }
{}

/// The tokens of the text of some tokens are those tokens.
pub fn printed_is_lexed()
    ensures { (ts : List Token) → AllCanStand ts → tokens_of (tokens_in (printed ts)) ≡ ts }
{}

/// The canonical text of a query is read as that query.
pub fn canonical_text_is_read()
    ensures { (q : QueryParts) → IsWellFormed q → Reads (tokens_of (tokens_in (canonical_text q))) q }
{}

/// What a text reads as keeps the form of a query, and can be written.
pub fn read_is_well_formed()
    ensures { (text : List ℕ) (q : QueryParts) → Reads (tokens_of (tokens_in text)) q → IsWellFormed q }
{}

/// What a printer has written of some tokens is their text.
pub fn written_is_printed()
    ensures { (ts : List Token) → (written begun ts).text ≡ printed ts }
{}
