//! Neighbours of one key are merged.
use crate::fixtures::are_entries;
use cell_merge::{CellItem, CellItems, CellSpec, CellTable};
use cell_runs::merge_runs;
use spl_words::{Numbers, Words};
use std::test::Fail;

// A count and a greatest code each; the last 4 is no neighbour of the first two.
#[test]
#[tactic(auto, unfolding(cell_merge::specs::Cells::items_width))]
fn neighbours_are_merged(rt: HostRuntime) -> Result<(), Fail> {
    let items = [CellItem::Max(0)].to_vec(rt.alloc())?;
    let spec = CellSpec {
        group: None,
        labels: 0,
        items: CellItems::from_vec(items),
    };
    let mut table = CellTable {
        keys: Numbers::from_vec([4, 4, 7, 4].to_vec(rt.alloc())?),
        cells: Words::from_vec([1, 5, 2, 9, 1, 3, 1, 8].to_vec(rt.alloc())?),
        width: 2,
    };
    merge_runs(&spec, &mut table);
    assert!(rt; are_entries(&table, &[4, 7, 4], &[3, 9, 1, 3, 1, 8]));
    Ok(())
}
