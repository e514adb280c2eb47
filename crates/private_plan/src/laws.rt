//! Laws of plans. Each function does nothing: its clauses are the laws.
ghost use Rattle.std.specs.Prelude.{◌≡◌, ℕ, ◌-◌, ◌/◌, ◌^◌, ◌<◌, ◌≤◌, Bool, true, false, nat_le, nat_lt, List, length, map, sum_by, if◌then◌else◌, Ok};
ghost use Rattle.std.specs.List.{AllByRecursion, AllZip};
ghost use Rattle.spl_words.specs.Secrets.{secret_tree, secret_value, secrets_value};
ghost use Rattle.spl_values.specs.Shapes.{ColumnParts, IsSchema, SchemaParts, ShapeParts};
ghost use Rattle.interval_keys.specs.Intervals.{slot_value, threshold};
ghost use Rattle.interval_keys.specs.Slots.{EachSpan, IsSpan, allowed, held};
ghost use Rattle.cell_merge.specs.Rows.{Row};
ghost use Rattle.query_grammar.specs.Canonical.{IsQuery};
ghost use Rattle.query_reader.specs.declared.checked.Checked.{Checked};
ghost use Rattle.query_reader.specs.Accepted.{IsCheckedFor};
ghost use Rattle.query_reader.specs.Matching.{branch_holds, some_branch_holds};
ghost use Rattle.query_reader.specs.Params.{AreParamsFor, HasBits, branch_columns, times};
ghost use Rattle.private_plan.specs.Branches.{RowHasBits, row_key, branch_span, branch_spans, span_holds};
ghost use Rattle.private_plan.specs.declared.plans.PlanKind.TheVariants as kind;
ghost use Rattle.private_plan.specs.Plans.{brings_cells, last_bits, plan_of, position_bits};
ghost use Rattle.private_plan.specs.Slots.{IsPointOf, count_below, position_slots, slots_of};
ghost use Rattle.private_plan.specs.Counts.{counts_taken};
ghost use Rattle.private_plan.specs.Rounds.{first_depth, first_round, second_secrets, secrets_in};

/// The interval of a branch holds a row's joined key exactly where the branch holds of the row, and
/// the intervals of several branches where one of these does, for codes that have no more bits than
/// their columns.
pub fn spans_hold_where_branches_do()
    ensures one { (columns : List ColumnParts) (places : List ℕ) (range : Bool) (params : List ℕ) (r : Row) → RowHasBits columns places r → AllZip (HasBits columns) (branch_columns places range) params → branch_holds places range params r ≡ span_holds (branch_span columns places range params) (row_key columns places r) }
    ensures some { (columns : List ColumnParts) (places : List ℕ) (range : Bool) → 1 ≤ length places → (n : ℕ) (params : List ℕ) (r : Row) → RowHasBits columns places r → AllZip (HasBits columns) (times n (branch_columns places range)) params → some_branch_holds n places range params r ≡ held (allowed (branch_spans columns n places range params)) (row_key columns places r) }
{}

/// The intervals of an accepted query's branches hold a number each, and their numbers have no more
/// than the bits of the joined key.
pub fn spans_fit_the_key()
    ensures spans { (checked : Checked) (schema : SchemaParts) (params : List ℕ) → IsCheckedFor checked schema → IsQuery checked.query → AreParamsFor checked schema params
        → EachSpan IsSpan (branch_spans schema.columns checked.branches checked.columns checked.range params) }
    ensures below { (checked : Checked) (schema : SchemaParts) (params : List ℕ) → IsCheckedFor checked schema → IsQuery checked.query → AreParamsFor checked schema params
        → EachSpan (λ s. s.hi < 2 ^ checked.bits) (branch_spans schema.columns checked.branches checked.columns checked.range params) }
{}

/// A slot never crosses into another value of the columns before the last: its ends agree above the
/// bits of the last column. Without a range it is a single number.
pub fn slots_stay_in_one_value()
    ensures agree { (checked : Checked) (schema : SchemaParts) (params : List ℕ) → IsCheckedFor checked schema → IsQuery checked.query → AreParamsFor checked schema params
        → EachSpan (λ s. s.lo / 2 ^ last_bits schema.columns checked.columns ≡ s.hi / 2 ^ last_bits schema.columns checked.columns) (slots_of checked schema.columns params) }
    ensures single { (checked : Checked) (schema : SchemaParts) (params : List ℕ) → IsCheckedFor checked schema → IsQuery checked.query → AreParamsFor checked schema params → checked.range ≡ false
        → EachSpan (λ s. s.lo ≡ s.hi) (slots_of checked schema.columns params) }
{}

/// The trees of a round's secrets are those that its plan asks for, in the same order; in a second round for as many counts
/// as the first one brings.
pub fn secrets_lie_as_planned()
    ensures first { (checked : Checked) (shape : ShapeParts) (params : List ℕ) → IsCheckedFor checked shape.schema → IsQuery checked.query → AreParamsFor checked shape.schema params
        → map secret_tree (secrets_in checked shape params first_round) ≡ (plan_of checked shape).first }
    ensures second { (checked : Checked) (shape : ShapeParts) (params counts : List ℕ) → (plan_of checked shape).kind ≡ kind.Position → length counts ≡ (plan_of checked shape).first_words
        → map secret_tree (secrets_in checked shape params (record { number = 2; counts = counts })) ≡ (plan_of checked shape).second }
{}

/// The functions of a sum's secrets add, at a row's joined key, to 1 where some branch holds of the
/// row, and to 0 elsewhere, modulo 2^64.
pub fn sum_secrets_tell_matching_rows()
    ensures { (checked : Checked) (shape : ShapeParts) (params : List ℕ) (r : Row) → IsCheckedFor checked shape.schema → IsQuery checked.query → AreParamsFor checked shape.schema params → RowHasBits shape.schema.columns checked.columns r
        → (plan_of checked shape).kind ≡ kind.Sum
        → secrets_value (secrets_in checked shape params first_round) (row_key shape.schema.columns checked.columns r) ≡ (if some_branch_holds checked.branches checked.columns checked.range params r then 1 else 0) }
{}

/// The trees of an accepted query's first round have 1 to as many bits as the joined key, and the first of them has all.
pub fn trees_begin_with_the_key()
    ensures first { (checked : Checked) (shape : ShapeParts) → IsSchema shape.schema → IsCheckedFor checked shape.schema → IsQuery checked.query → first_depth (plan_of checked shape).first ≡ checked.bits }
    ensures inside { (checked : Checked) (shape : ShapeParts) → IsSchema shape.schema → IsCheckedFor checked shape.schema → IsQuery checked.query → AllByRecursion (λ t. (1 ≤ t.depth) × (t.depth ≤ checked.bits)) (plan_of checked shape).first }
{}

/// Where each tree of the first round brings a cell, its secrets are points, and exactly one of them tells a row for which
/// some branch holds, by the row's joined key without so many of its lowest bits as the tree is less deep than the key;
/// of another row none does.
pub fn points_tell_matching_rows()
    ensures points { (checked : Checked) (shape : ShapeParts) (params : List ℕ) → IsSchema shape.schema → IsCheckedFor checked shape.schema → IsQuery checked.query → AreParamsFor checked shape.schema params
        → brings_cells (plan_of checked shape).kind ≡ true → AllByRecursion (IsPointOf checked.bits) (secrets_in checked shape params first_round) }
    ensures tell { (checked : Checked) (shape : ShapeParts) (params : List ℕ) (r : Row) → IsSchema shape.schema → IsCheckedFor checked shape.schema → IsQuery checked.query → AreParamsFor checked shape.schema params → RowHasBits shape.schema.columns checked.columns r
        → brings_cells (plan_of checked shape).kind ≡ true
        → sum_by (λ s. secret_value s (row_key shape.schema.columns checked.columns r / 2 ^ (checked.bits - s.depth))) (secrets_in checked shape params first_round) ≡ (if some_branch_holds checked.branches checked.columns checked.range params r then 1 else 0) }
{}

/// In the first round of a plan of two the two thresholds of a slot count what is below it, and what is below or in it: of a
/// row's joined key the first says 1 where it is below the slot's lower end, the second where it isn't above the upper one.
pub fn thresholds_count_rows()
    ensures below { (bits lo x : ℕ) → secret_value (count_below bits lo) x ≡ (if nat_lt x lo then 1 else 0) }
    ensures upto { (bits hi x : ℕ) → secret_value (threshold bits hi 1) x ≡ (if nat_le x hi then 1 else 0) }
{}

/// In a second round over counts that can be, the secrets are points over positions, and what they say of a position without
/// so many of its lowest bits as each tree has less than the first adds to the number of slots that hold it.
pub fn points_tell_positions()
    ensures points { (rows : ℕ) (counts : List ℕ) → rows ≤ 262144 → counts_taken rows 0 counts ≡ Ok tt → AllByRecursion (IsPointOf (position_bits rows)) (second_secrets rows counts) }
    ensures tell { (rows position : ℕ) (counts : List ℕ) → rows ≤ 262144 → counts_taken rows 0 counts ≡ Ok tt
        → sum_by (λ s. secret_value s (position / 2 ^ (position_bits rows - s.depth))) (second_secrets rows counts) ≡ sum_by (λ slot. slot_value slot position) (position_slots counts) }
{}

/// The first round of an accepted query asks for 1 to 256 trees, each of 1 to 128 levels.
pub fn first_rounds_ask_for_few_trees()
    ensures few { (checked : Checked) (shape : ShapeParts) (params : List ℕ) → IsSchema shape.schema → IsCheckedFor checked shape.schema → IsQuery checked.query → AreParamsFor checked shape.schema params
        → (1 ≤ length (secrets_in checked shape params first_round)) × (length (secrets_in checked shape params first_round) ≤ 256) }
    ensures levels { (checked : Checked) (shape : ShapeParts) (params : List ℕ) → IsSchema shape.schema → IsCheckedFor checked shape.schema → IsQuery checked.query → AreParamsFor checked shape.schema params
        → AllByRecursion (λ s. (1 ≤ s.depth) × (s.depth ≤ 128)) (secrets_in checked shape params first_round) }
{}

/// A second round, for as many counts as the first one brings, asks for 1 to 288 trees, each of 1 to 18 levels. The first of them
/// has as many levels as a position has bits.
pub fn second_rounds_ask_for_few_trees()
    ensures few { (checked : Checked) (shape : ShapeParts) (params counts : List ℕ) → IsCheckedFor checked shape.schema → (plan_of checked shape).kind ≡ kind.Position → length counts ≡ (plan_of checked shape).first_words
        → (1 ≤ length (secrets_in checked shape params (record { number = 2; counts = counts }))) × (length (secrets_in checked shape params (record { number = 2; counts = counts })) ≤ 288) }
    ensures levels { (checked : Checked) (shape : ShapeParts) (params counts : List ℕ) → (plan_of checked shape).kind ≡ kind.Position → length counts ≡ (plan_of checked shape).first_words
        → AllByRecursion (λ s. (1 ≤ s.depth) × (s.depth ≤ 18)) (secrets_in checked shape params (record { number = 2; counts = counts })) }
    ensures first { (checked : Checked) (shape : ShapeParts) → IsCheckedFor checked shape.schema → (plan_of checked shape).kind ≡ kind.Position → first_depth (plan_of checked shape).second ≡ position_bits shape.rows }
{}
