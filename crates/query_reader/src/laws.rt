//! Laws of queries. Each function does nothing: its clauses are the laws.
ghost use Rattle.std.specs.Prelude.{◌≡◌, ℕ, ◌<◌, ◌≤◌, All, length};
ghost use Rattle.spl_values.specs.Shapes.{SchemaParts, IsSchema};
ghost use Rattle.spl_values.specs.Tables.{key_bits};
ghost use Rattle.cell_merge.specs.Cells.{cell_width};
ghost use Rattle.cell_merge.specs.TableRows.{SpecFits};
ghost use Rattle.query_grammar.specs.Canonical.{IsQuery};
ghost use Rattle.query_grammar.specs.Queries.{QueryParts};
ghost use Rattle.query_reader.specs.declared.checked.Checked.{Checked as TheChecked};
ghost use Rattle.query_reader.specs.Accepted.{IsAccepted, IsCheckedFor, IsUnrefused};

/// Of an accepted query none of the refusals holds.
pub fn accepted_is_unrefused()
    ensures { (q : QueryParts) (schema : SchemaParts) → IsAccepted q schema → IsUnrefused q schema }
{}

/// The cells of an accepted query can be had from rows of the schema's columns, and have at most 128 words.
pub fn accepted_has_cells()
    ensures fits { (checked : TheChecked) (schema : SchemaParts) → IsCheckedFor checked schema → SpecFits checked.spec schema.columns }
    ensures width { (checked : TheChecked) (schema : SchemaParts) → IsCheckedFor checked schema → cell_width checked.spec ≤ 128 }
{}

/// The conditions of an accepted query are on columns that are there. It has 1 to 8 branches, each over the same one or
/// more columns, whose joined key has `bits` bits, 1 to 128.
pub fn accepted_has_keys()
    ensures public { (checked : TheChecked) (schema : SchemaParts) → IsCheckedFor checked schema → All (λ bound. bound.0 < length schema.columns) checked.public }
    ensures columns { (checked : TheChecked) (schema : SchemaParts) → IsCheckedFor checked schema → All (λ column. column < length schema.columns) checked.columns }
    ensures some { (checked : TheChecked) (schema : SchemaParts) → IsCheckedFor checked schema → IsQuery checked.query → 1 ≤ length checked.columns }
    ensures branches { (checked : TheChecked) (schema : SchemaParts) → IsCheckedFor checked schema → (1 ≤ checked.branches) × (checked.branches ≤ 8) }
    ensures bits { (checked : TheChecked) (schema : SchemaParts) → IsCheckedFor checked schema → checked.bits ≡ key_bits schema.columns checked.columns }
    ensures narrow { (checked : TheChecked) (schema : SchemaParts) → IsCheckedFor checked schema → checked.bits ≤ 128 }
    ensures wide { (checked : TheChecked) (schema : SchemaParts) → IsCheckedFor checked schema → IsQuery checked.query → IsSchema schema → 1 ≤ checked.bits }
{}
