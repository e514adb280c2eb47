//! Answers of checked queries.
ghost use Rattle.std.specs.Prelude.{◌≡◌, All, length, IfOk};
ghost use Rattle.cell_merge.specs.Cells.{blocks, cell_width};
ghost use Rattle.query_reader.specs.Accepted.{IsCheckedFor};
ghost use Rattle.clear_sql.specs.AnswerText.{GroupFits, answer_text};
ghost use Rattle.clear_sql.specs.CellAnswers.{BlocksRead, answer_of};

use crate::printing::answer_text;
use crate::reading::cell_answer;
use crate::{Answer, laws};
use query_reader::{Checked, laws as query_laws};
use spl_values::{Bytes, Schema};
use std::alloc::{AllocError, Global};

/// The answer that a cell of a query stands for, whatever words it holds: the count of each block, its sums, the values of
/// its greatest and least codes, and its best rows. A block whose count is 0 has no sum and no best value, and with a group
/// column it is left out. The places of its best rows are at most 262,144, and its greatest and least words, and the sort and
/// shown words of its best rows, are codes of values of their columns.
///
/// # Errors
///
/// Want of memory.
pub fn answer_of_cell(
    alloc: Global,
    checked: &Checked,
    schema: &Schema,
    cell: &[u64],
) -> Result<Answer, AllocError>
    requires checked { IsCheckedFor checked.now schema.now }
    requires length { length cell.now ≡ cell_width checked.now.spec }
    requires words { BlocksRead schema.now.columns checked.now.spec.items (blocks checked.now.spec.group checked.now.spec.labels) cell.now }
    ensures answer { IfOk result (λ answer. answer.groups ≡ answer_of schema.now.columns checked.now.spec cell.now) }
    ensures printable { IfOk result (λ answer. All (GroupFits schema.now.columns checked.now.spec) answer.groups) }
{
    query_laws::accepted_has_cells();
    laws::answers_of_cells_can_be_printed();
    cell_answer(alloc, &checked.spec, schema, cell)
}

/// The text of an answer of a query: for each group its label, where a column groups the rows, and for each item a line with
/// the item as a query writes it and its value, and the lines of the best rows. A mean is a fraction that isn't reduced.
/// Each group has one outcome for each item, which the item may have, values fit their columns, and a label stands exactly
/// where a column groups the rows, and is one of its labels.
///
/// # Errors
///
/// Want of memory.
pub fn print_answer(
    alloc: Global,
    checked: &Checked,
    schema: &Schema,
    answer: &Answer,
) -> Result<Bytes, AllocError>
    requires checked { IsCheckedFor checked.now schema.now }
    requires groups { All (GroupFits schema.now.columns checked.now.spec) answer.now.groups }
    ensures { IfOk result (λ text. text ≡ answer_text schema.now.columns checked.now.spec answer.now.groups) }
{
    query_laws::accepted_has_cells();
    answer_text(alloc, &checked.spec, schema, answer)
}
