//! Laws of plans of two rounds. Each function does nothing: its clauses are the laws.
ghost use Rattle.std.specs.Prelude.{◌≡◌, ℕ, ◌^◌, ◌<◌, ◌≤◌, ◌&&◌, nat_le, nat_lt, List, length, map, sum_by, slice_index, if◌then◌else◌};
ghost use Rattle.std.specs.List.{AllByRecursion};
ghost use Rattle.spl_words.specs.Words.{plus};
ghost use Rattle.spl_words.specs.declared.provider.Provider.{Provider};
ghost use Rattle.spl_words.specs.declared.provider.Provider.TheVariants.{Zero, One};
ghost use Rattle.spl_values.specs.Tables.{TableParts, IsTable};
ghost use Rattle.seed_expansion.specs.Expanders.{Meaning, IsPure};
ghost use Rattle.interval_keys.specs.Intervals.{slot_value};
ghost use Rattle.cell_merge.specs.Cells.{cell, merge_all};
ghost use Rattle.cell_merge.specs.TableRows.{adds_in};
ghost use Rattle.query_grammar.specs.Canonical.{IsQuery};
ghost use Rattle.query_reader.specs.declared.checked.Checked.{Checked};
ghost use Rattle.query_reader.specs.Accepted.{IsCheckedFor};
ghost use Rattle.query_reader.specs.Matching.{kept_rows, matching_rows, some_branch_holds};
ghost use Rattle.query_reader.specs.Params.{AreParamsFor};
ghost use Rattle.count_sum.specs.SumPairs.{joined_key};
ghost use Rattle.count_sum.specs.Positions.{position};
ghost use Rattle.private_plan.specs.declared.plans.PlanKind.TheVariants as kind;
ghost use Rattle.private_plan.specs.Plans.{plan_of};
ghost use Rattle.private_plan.specs.Rounds.{first_round, secrets_in};
ghost use Rattle.private_plan.specs.Slots.{position_slots};
ghost use Rattle.session_model.specs.Cells.{ArePicked, first_answer};
ghost use Rattle.session_model.specs.Counts.{AreCounts, cells_back_second, counts_of, keys_below, keys_upto, rows_back_second, second_answer, second_asked};

/// A kept row has its joined key from `a` to `b` exactly where its position is at least as many as kept rows have one
/// below `a`, and less than as many as have one of at most `b`.
pub fn positions_follow_keys()
    ensures { (checked : Checked) (table : TableParts) (a b : ℕ)
        → AllByRecursion (λ r. (nat_le a (joined_key checked table r) && nat_le (joined_key checked table r) b) ≡ (nat_le (keys_below checked table a) (position checked table r) && nat_lt (position checked table r) (keys_upto checked table b))) (kept_rows checked table) }
{}

/// The counts of a query are such as a second round takes, and a kept row matches exactly where its position lies in
/// one of the slots that they tell; no two of these hold it.
pub fn counts_tell_matching_rows()
    ensures taken { (checked : Checked) (table : TableParts) (params : List ℕ) → IsTable table → IsCheckedFor checked table.shape.schema → IsQuery checked.query → AreParamsFor checked table.shape.schema params
        → AreCounts table.shape.rows (counts_of checked table params) }
    ensures matching { (checked : Checked) (table : TableParts) (params : List ℕ) → IsTable table → IsCheckedFor checked table.shape.schema → IsQuery checked.query → AreParamsFor checked table.shape.schema params
        → AllByRecursion (λ r. sum_by (λ s. slot_value s (position checked table r)) (position_slots (counts_of checked table params)) ≡ (if some_branch_holds checked.branches checked.columns checked.range params r then 1 else 0)) (kept_rows checked table) }
{}

/// The answers of both providers in the first round of a plan of two, each under its own keys, add word by word to the
/// counts: for every pure expander, every parameters, table and roots. Each answer has as many words as there are counts,
/// which are as many as the plan tells, and all are words.
pub fn answers_add_to_counts()
    ensures length { (e : Meaning) (p : Provider) (checked : Checked) (table : TableParts) (params : List ℕ) (roots : List (ℕ × ℕ)) → IsTable table
        → IsCheckedFor checked table.shape.schema → IsQuery checked.query → AreParamsFor checked table.shape.schema params → (plan_of checked table.shape).kind ≡ kind.Position
        → length roots ≡ length (secrets_in checked table.shape params first_round) → length (first_answer e p checked table params roots) ≡ length (counts_of checked table params) }
    ensures planned { (checked : Checked) (table : TableParts) (params : List ℕ) → IsCheckedFor checked table.shape.schema → IsQuery checked.query → AreParamsFor checked table.shape.schema params
        → (plan_of checked table.shape).kind ≡ kind.Position → length (counts_of checked table params) ≡ (plan_of checked table.shape).first_words }
    ensures added { (e : Meaning) → IsPure e → (checked : Checked) (table : TableParts) (params : List ℕ) (roots : List (ℕ × ℕ)) → IsTable table
        → IsCheckedFor checked table.shape.schema → IsQuery checked.query → AreParamsFor checked table.shape.schema params → (plan_of checked table.shape).kind ≡ kind.Position
        → length roots ≡ length (secrets_in checked table.shape params first_round) → (k : ℕ) → k < length (counts_of checked table params)
        → plus (slice_index (first_answer e Zero checked table params roots) k) (slice_index (first_answer e One checked table params roots) k) ≡ slice_index (counts_of checked table params) k }
    ensures count_words { (checked : Checked) (table : TableParts) (params : List ℕ) → IsTable table → AllByRecursion (λ w. w < 2 ^ 64) (counts_of checked table params) }
{}

/// The answers of both providers in the second round add word by word to the cells that come back, for the counts of the
/// first. Each answer has as many words as these cells, which are as many as the plan tells, and all are words.
pub fn answers_add_to_second_cells()
    ensures length { (e : Meaning) (p : Provider) (checked : Checked) (table : TableParts) (params : List ℕ) (roots : List (ℕ × ℕ)) → IsTable table
        → IsCheckedFor checked table.shape.schema → IsQuery checked.query → AreParamsFor checked table.shape.schema params → (plan_of checked table.shape).kind ≡ kind.Position
        → length roots ≡ length (second_asked checked table params) → length (second_answer e p checked table params roots) ≡ length (cells_back_second checked table params) }
    ensures planned { (checked : Checked) (table : TableParts) (params : List ℕ) → IsCheckedFor checked table.shape.schema → IsQuery checked.query → AreParamsFor checked table.shape.schema params
        → (plan_of checked table.shape).kind ≡ kind.Position → length (cells_back_second checked table params) ≡ (plan_of checked table.shape).second_words }
    ensures added { (e : Meaning) → IsPure e → (checked : Checked) (table : TableParts) (params : List ℕ) (roots : List (ℕ × ℕ)) → IsTable table
        → IsCheckedFor checked table.shape.schema → IsQuery checked.query → AreParamsFor checked table.shape.schema params → (plan_of checked table.shape).kind ≡ kind.Position
        → length roots ≡ length (second_asked checked table params) → (k : ℕ) → k < length (cells_back_second checked table params)
        → plus (slice_index (second_answer e Zero checked table params roots) k) (slice_index (second_answer e One checked table params roots) k) ≡ slice_index (cells_back_second checked table params) k }
    ensures cell_words { (checked : Checked) (table : TableParts) (params : List ℕ) → IsTable table → IsCheckedFor checked table.shape.schema → AllByRecursion (λ w. w < 2 ^ 64) (cells_back_second checked table params) }
{}

/// The cells that come back in the second round merge to the cell of the rows that match.
pub fn second_cells_merge()
    ensures { (checked : Checked) (table : TableParts) (params : List ℕ) → IsTable table → IsCheckedFor checked table.shape.schema → IsQuery checked.query → AreParamsFor checked table.shape.schema params
        → merge_all checked.spec (map (cell (adds_in table.shape.schema.columns) checked.spec) (rows_back_second checked table params)) ≡ cell (adds_in table.shape.schema.columns) checked.spec (matching_rows checked params table) }
{}

/// Each cell that comes back in the second round is one of rows of the table that pass some test, so no more than it has.
pub fn second_rows_are_of_the_table()
    ensures picked { (checked : Checked) (table : TableParts) (params : List ℕ) → AllByRecursion (ArePicked table) (rows_back_second checked table params) }
    ensures few { (checked : Checked) (table : TableParts) (params : List ℕ) → AllByRecursion (λ rows. length rows ≤ length table.rows) (rows_back_second checked table params) }
{}
