//! Laws of the definitions.
ghost use Rattle.std.specs.Prelude.{◌≡◌, ℕ, List, Ok, Err};
ghost use Rattle.query_grammar.specs.declared.token.Placed.{Placed};
ghost use Rattle.query_grammar.specs.declared.token.Token.{Token};
ghost use Rattle.query_grammar.specs.Queries.{QueryParts};
ghost use Rattle.query_grammar.specs.Canonical.{canonical, IsQuery};
ghost use Rattle.query_grammar.specs.Grammar.{Reads};
ghost use Rattle.query_grammar.specs.Machine.{Start};
ghost use Rattle.query_grammar.specs.Faults.{tokens_of, NoReadingAt, verdict};

/// The machine's verdict on some tokens is the grammar's: the query that they read as, and no
/// other, or the place of the first token that no query goes on with.
pub fn reading_is_grammar()
    ensures reads { (placed : List Placed) (end : ℕ) (q : QueryParts) → verdict Start placed end ≡ Ok q → Reads (tokens_of placed) q }
    ensures only { (placed : List Placed) (end : ℕ) (q : QueryParts) → Reads (tokens_of placed) q → verdict Start placed end ≡ Ok q }
    ensures fault { (placed : List Placed) (end o : ℕ) → verdict Start placed end ≡ Err o → NoReadingAt placed end o }
{}

/// The canonical tokens of a query are read as that query.
pub fn canonical_is_read()
    ensures { (q : QueryParts) → IsQuery q → Reads (canonical q) q }
{}

/// What some tokens read as keeps the form of a query.
pub fn read_is_query()
    ensures { (tokens : List Token) (q : QueryParts) → Reads tokens q → IsQuery q }
{}
