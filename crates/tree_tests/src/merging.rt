//! Cells have their widths, and are merged item by item and label by label.

ghost use Rattle.std.specs.Prelude.{◌≡◌, IfOk};
ghost use Rattle.cell_merge.specs.Cells.{cell_width};

use cell_merge::{CellItem, CellItems, CellSpec, empty_cell, merge_into, width};
use std::alloc::AllocError;

fn spec(
    rt: &HostRuntime,
    group: Option<u32>,
    labels: u32,
    items: &[CellItem],
) -> Result<CellSpec, AllocError>
    ensures { IfOk result (λ s. s ≡ record { group = group; labels = labels; items = items.now }) }
{
    Ok(CellSpec {
        group,
        labels,
        items: CellItems::from_vec(Vec::from_slice(rt.alloc(), items)?),
    })
}

/// The width of a cell.
fn width_of(
    rt: &HostRuntime,
    group: Option<u32>,
    labels: u32,
    items: &[CellItem],
) -> Result<u64, AllocError> {
    Ok(width(&spec(rt, group, labels, items)?))
}

#[test]
fn widths_are_counted(rt: HostRuntime) {
    let best = CellItem::TopK(u32::MAX, 0, 0);
    let sums = [CellItem::Count, CellItem::Sum(0), CellItem::Avg(1)];
    let found = [
        width_of(&rt, None, 0, &[]),
        width_of(&rt, None, 7, &sums),
        width_of(&rt, Some(2), 4, &sums),
        width_of(&rt, None, 0, &[CellItem::TopK(2, 1, 0)]),
        width_of(&rt, Some(0), u32::MAX, &[best]),
    ];
    assert_eq!(rt; found, [Ok(1), Ok(3), Ok(12), Ok(7), Ok(u64::MAX)]);
}

#[test]
fn an_empty_cell_is_of_zeros(rt: HostRuntime) {
    let mut cell = [7; 10];
    empty_cell(&mut cell);
    assert_eq!(rt; cell, [0; 10]);
}

// Rows 0 (3, 9) and 2 (4, 5) on the one side, row 1 (8, 9) on the other: the tie at 9 goes to the lower row.
const TWO_ROWS: [u64; 10] = [2, 7, 9, 5, 1, 9, 3, 3, 5, 4];

const ONE_ROW: [u64; 10] = [1, 8, 9, 9, 2, 9, 8, 0, 0, 0];

const THREE_ROWS: [u64; 10] = [3, 15, 9, 5, 1, 9, 3, 2, 9, 8];

/// The cell of both cells' rows.
fn merged(spec: &CellSpec, mut into: [u64; 10], from: &[u64; 10]) -> [u64; 10]
    requires { cell_width spec.now ≡ 10 }
{
    merge_into(spec, &mut into, from);
    into
}

#[test]
#[tactic(auto, unfolding(cell_merge::specs::Cells::items_width))]
fn cells_are_merged(rt: HostRuntime) -> Result<(), AllocError> {
    let items = [
        CellItem::Count,
        CellItem::Sum(0),
        CellItem::Max(1),
        CellItem::Min(1),
        CellItem::TopK(2, 1, 0),
    ];
    let spec = spec(&rt, None, 0, &items)?;
    let none = [0; 10];
    let found = [
        merged(&spec, TWO_ROWS, &ONE_ROW),
        merged(&spec, ONE_ROW, &TWO_ROWS),
        merged(&spec, none, &ONE_ROW),
        merged(&spec, TWO_ROWS, &none),
    ];
    assert_eq!(rt; found, [THREE_ROWS, THREE_ROWS, ONE_ROW, TWO_ROWS]);
    Ok(())
}

// Two labels, each with a count, a sum and a greatest word; any words are merged.
#[test]
#[tactic(auto, unfolding(cell_merge::specs::Cells::items_width))]
fn labels_are_merged_apart(rt: HostRuntime) -> Result<(), AllocError> {
    let spec = spec(&rt, Some(0), 2, &[CellItem::Sum(1), CellItem::Max(1)])?;
    let mut cell = [1, u64::MAX, 5, 0, 3, 6];
    merge_into(&spec, &mut cell, &[2, 2, 4, 0, 1, 8]);
    assert_eq!(rt; cell, [3, 1, 5, 0, 4, 0]);
    Ok(())
}
