//! The answer that the combined words stand for.
ghost use Rattle.std.specs.Prelude.{◌≡◌, ℕ, ◌≤◌, ◌<◌, ◌^◌, ◌*◌, All, length, Ok, Err, IfOk};
ghost use Rattle.spl_values.specs.Shapes.{IsShape};
ghost use Rattle.cell_merge.specs.Cells.{cell_width, merge_all};
ghost use Rattle.query_reader.specs.Accepted.{IsCheckedFor};
ghost use Rattle.clear_sql.specs.AnswerText.{GroupFits};
ghost use Rattle.clear_sql.specs.CellAnswers.{answer_of};
ghost use Rattle.private_plan.specs.Plans.{plan_of};
ghost use Rattle.combiner.specs.declared.finals.FinalFault.TheVariants as fault;
ghost use Rattle.combiner.specs.GoodWords.{good_words};
ghost use Rattle.combiner.specs.Finals.{last_words as words_of_last, cells_in, final_of};
ghost use Rattle.spl_words.specs.Results.{Gives};

use crate::checking::check_words;
use cell_merge::{CellSpec, empty_cell, merge_into, width};
use clear_sql::{Answer, answer_of_cell};
use private_plan::Plan;
use query_reader::{Checked, laws};
use spl_values::Shape;
use std::alloc::{AllocError, Global};

/// Why combined words stand for no answer.
#[derive(Clone, Copy, Debug, PartialEq, Eq)]
pub enum FinalFault {
    /// The first word that can't stand where it does: its place, from 0, and the word.
    BadWord(u32, u64),
    OutOfMemory,
}

impl From<AllocError> for FinalFault {
    ghost from_gives = { λ _ e. e ≡ fault.OutOfMemory };

    fn from(_: AllocError) -> Self {
        FinalFault::OutOfMemory
    }
}

/// How many words come back in the last round of a plan.
pub fn last_words(plan: &Plan) -> u32
    ensures { result ≡ words_of_last plan.now }
{
    if plan.rounds == 2 {
        plan.second_words
    } else {
        plan.first_words
    }
}

/// Refuses the first word that can't stand where it does in the last round of a plan.
fn check_last(
    checked: &Checked,
    plan: &Plan,
    shape: &Shape,
    words: &[u64],
) -> Result<(), FinalFault>
    requires accepted { IsCheckedFor checked.now shape.now.schema }
    requires words { length words.now ≡ words_of_last plan.now }
    ensures { result ≡ good_words shape.now.schema.columns checked.now.spec.items shape.now.rows 0 words.now }
{
    laws::accepted_has_cells();
    // There are no more words than a plan can say.
    let _ = last_words(plan);
    let columns = shape.schema.columns.as_slice();
    let items = checked.spec.items.as_slice();
    check_words(columns, items, shape.rows, words)
}

/// The cells in some words, merged from the front into the cell of no rows.
fn merged_cells(alloc: Global, spec: &CellSpec, words: &[u64]) -> Result<Vec<u64>, AllocError>
    requires some { 0 < cell_width spec.now }
    requires few { cell_width spec.now < 2 ^ 64 }
    ensures cell { IfOk result (λ merged. merged.items ≡ merge_all spec.now (cells_in (cell_width spec.now) words.now)) }
    ensures length { IfOk result (λ merged. length merged.items ≡ cell_width spec.now) }
{
    let cell_words = width(spec) as usize;
    let mut merged = vec![in alloc; 0u64; cell_words]?;
    empty_cell(&mut merged);
    for cell in words.chunks_exact(cell_words) {
        merge_into(spec, &mut merged, cell);
    }
    Ok(merged)
}

/// The answer that the cells in some good words stand for.
fn answer_of_words(
    alloc: Global,
    checked: &Checked,
    shape: &Shape,
    words: &[u64],
) -> Result<Answer, AllocError>
    requires accepted { IsCheckedFor checked.now shape.now.schema }
    requires good { good_words shape.now.schema.columns checked.now.spec.items shape.now.rows 0 words.now ≡ Ok tt }
    requires words { (cells : ℕ) × (length words.now ≡ cells * cell_width checked.now.spec) }
    ensures answer { IfOk result (λ answer. answer.groups ≡ answer_of shape.now.schema.columns checked.now.spec (merge_all checked.now.spec (cells_in (cell_width checked.now.spec) words.now))) }
    ensures printable { IfOk result (λ answer. All (GroupFits shape.now.schema.columns checked.now.spec) answer.groups) }
{
    laws::accepted_has_cells();
    let schema = &shape.schema;
    let cell = merged_cells(alloc, &checked.spec, words)?;
    answer_of_cell(alloc, checked, schema, &cell)
}

/// The answer that the combined words of a query's last round stand for. They are cells, one behind another, which are
/// merged from the front into the cell of no rows.
///
/// # Errors
///
/// `BadWord` with the first word that isn't good: a count of rows and the place of one of the best rows are good where they
/// are at most the shape's rows, a greatest, least, sort or shown word where it is a code of its column, and a sum is good.
/// Or want of memory.
#[tactic(auto, unfolding(crate::specs::Finals::final_of))]
pub fn final_answer(
    alloc: Global,
    checked: &Checked,
    plan: &Plan,
    shape: &Shape,
    words: &[u64],
) -> Result<Answer, FinalFault>
    requires accepted { IsCheckedFor checked.now shape.now.schema }
    requires plan { plan.now ≡ plan_of checked.now shape.now }
    requires words { length words.now ≡ words_of_last plan.now }
    ensures gives { Gives fault.OutOfMemory (λ answer. answer.groups) result (final_of checked.now shape.now words.now) }
    // A word that isn't good is told however little memory there is.
    ensures refusals { (e : FinalFault) → final_of checked.now shape.now words.now ≡ Err e → result ≡ Err e }
    ensures printable { IfOk result (λ answer. All (GroupFits shape.now.schema.columns checked.now.spec) answer.groups) }
{
    check_last(checked, plan, shape, words)?;
    Ok(answer_of_words(alloc, checked, shape, words)?)
}
