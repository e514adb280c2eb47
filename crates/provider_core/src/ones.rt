//! The entries that counts are folded over.
ghost use Rattle.std.specs.Prelude.{◌≡◌, map, IfOk};
ghost use Rattle.query_reader.specs.Accepted.{IsCheckedFor};
ghost use Rattle.query_reader.specs.Matching.{kept_rows};
ghost use Rattle.count_sum.specs.SumPairs.{joined_key};
ghost use Rattle.private_plan.specs.Rounds.{ones};
ghost use Rattle.provider_core.specs.Cells.{AreCells};

use cell_merge::CellTable;
use count_sum::{is_kept, kept_count};
use query_reader::Checked;
use query_reader::laws::accepted_has_keys;
use spl_values::{Table, join_key};
use spl_words::{Numbers, Words};
use std::alloc::{AllocError, Global};

/// The joined key of each row that the public conditions keep, in the rows' order. The list is sized once.
fn kept_keys(alloc: Global, checked: &Checked, table: &Table) -> Result<Vec<u128>, AllocError>
    requires { IsCheckedFor checked.now table.now.shape.schema }
    ensures { IfOk result (λ keys. keys.items ≡ map (joined_key checked.now table.now) (kept_rows checked.now table.now)) }
{
    accepted_has_keys();
    let mut keys = Vec::with_capacity(alloc, kept_count(checked, table))?;
    for row in 0..table.shape().rows {
        if is_kept(checked, table, row) {
            keys.push(join_key(table, checked.columns.as_slice(), row))?;
        }
    }
    Ok(keys)
}

/// One entry for each row that the public conditions keep: its joined key, and the word 1 alone.
pub fn row_ones(alloc: Global, checked: &Checked, table: &Table) -> Result<CellTable, AllocError>
    requires { IsCheckedFor checked.now table.now.shape.schema }
    ensures { IfOk result (AreCells checked.now table.now ones checked.now.bits) }
{
    // What the table keeps.
    let _ = table.shape();
    let keys = kept_keys(alloc, checked, table)?;
    let words = vec![in alloc; 1u64; keys.len()]?;
    Ok(CellTable {
        keys: Numbers::from_vec(keys),
        cells: Words::from_vec(words),
        width: 1,
    })
}
