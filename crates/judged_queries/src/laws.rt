//! Laws of judged texts and codes. Each function does nothing, its clauses are the laws.
ghost use Rattle.std.specs.Prelude.{◌≡◌, ◌↔◌, ℕ, List, Ok, Some, true, IsTrue};
ghost use Rattle.spl_values.specs.Kinds.{is_kind};
ghost use Rattle.spl_values.specs.Shapes.{ColumnParts, SchemaParts, IsSchema};
ghost use Rattle.query_grammar.specs.Queries.{QueryParts};
ghost use Rattle.query_tokens.specs.Printing.{IsWellFormed, canonical_text};
ghost use Rattle.query_reader.specs.declared.checked.Checked.{Checked as TheChecked};
ghost use Rattle.query_reader.specs.Accepted.{IsCheckedFor};
ghost use Rattle.query_reader.specs.Params.{IsCodeIn, params_of_words};
ghost use Rattle.judged_queries.specs.Codes.{is_code, codes_in};
ghost use Rattle.judged_queries.specs.Queries.{checked_in};

use query_grammar::reading_is_grammar;
use query_tokens::canonical_text_is_read;

/// The canonical text of an accepted query is that query.
pub fn canonical_text_is_accepted()
    ensures { (checked : TheChecked) (schema : SchemaParts) → IsWellFormed checked.query → IsCheckedFor checked schema → checked_in schema (canonical_text checked.query) ≡ Ok checked }
{
    reading_is_grammar();
    canonical_text_is_read();
}

/// A code passes exactly where it is that of a value of its column.
pub fn codes_are_of_values()
    ensures { (c : ColumnParts) (code : ℕ) → IsTrue (is_kind c.kind) → (is_code (Some c) code ≡ true) ↔ IsCodeIn (Some c) code }
{}

/// The codes that words give are taken as codes.
pub fn codes_of_words_are_taken()
    ensures { (q : QueryParts) (schema : SchemaParts) (words : List (List ℕ)) (codes : List ℕ) → IsSchema schema → params_of_words q schema words ≡ Ok codes → codes_in q schema codes ≡ Ok codes }
{}
