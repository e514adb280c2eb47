//! An interval is covered by aligned ranges, the highest that fit, and cells are lifted level by level.
use crate::fixtures::are_entries;
use aligned_ranges::{Range, cover, lift};
use cell_merge::{CellItems, CellSpec, CellTable};
use spl_words::{Numbers, Words};
use std::test::Fail;

/// The range of this level and index.
fn range(level: u32, index: u128) -> Range {
    Range { level, index }
}

#[test]
fn whole_ranges_are_given_at_the_highest_level(rt: HostRuntime) -> Result<(), Fail> {
    assert!(rt; cover(0, 7, 3).as_slice() == [range(2, 0), range(2, 1)].as_slice());
    assert!(rt; cover(8, 11, 3).as_slice() == [range(2, 2)].as_slice());
    Ok(())
}

#[test]
fn one_number_is_a_range_of_level_0(rt: HostRuntime) -> Result<(), Fail> {
    assert!(rt; cover(5, 5, 3).as_slice() == [range(0, 5)].as_slice());
    assert!(rt; cover(0, 0, 1).as_slice() == [range(0, 0)].as_slice());
    Ok(())
}

#[test]
fn ragged_ends_are_given_by_level_and_index(rt: HostRuntime) -> Result<(), Fail> {
    let ragged = [range(0, 1), range(0, 6), range(1, 1), range(1, 2)];
    assert!(rt; cover(1, 6, 3).as_slice() == ragged.as_slice());
    Ok(())
}

#[test]
fn the_last_numbers_have_a_cover(rt: HostRuntime) -> Result<(), Fail> {
    let last = [range(0, u128::MAX - 2), range(1, u128::MAX / 2)];
    assert!(rt; cover(u128::MAX - 2, u128::MAX, 2).as_slice() == last.as_slice());
    Ok(())
}

#[test]
fn an_interval_without_its_ends_has_two_of_each_level_but_the_highest(
    rt: HostRuntime,
) -> Result<(), Fail> {
    assert!(rt; cover(1, 0x3_fffe, 18).len() == 34);
    Ok(())
}

// a count each
#[test]
#[tactic(auto, unfolding(cell_merge::specs::Cells::items_width))]
fn cells_are_lifted_level_by_level(rt: HostRuntime) -> Result<(), Fail> {
    let spec = CellSpec {
        group: None,
        labels: 0,
        items: CellItems::from_vec(Vec::new(rt.alloc())),
    };
    let mut table = CellTable {
        keys: Numbers::from_vec([1, 2, 3, 6].to_vec(rt.alloc())?),
        cells: Words::from_vec([2, 1, 1, 4].to_vec(rt.alloc())?),
        width: 1,
    };
    lift(&spec, &mut table);
    let once = are_entries(&table, &[0, 1, 3], &[2, 2, 4]);
    lift(&spec, &mut table);
    let twice = are_entries(&table, &[0, 1], &[4, 4]);
    assert_eq!(rt; (once, twice), (true, true));
    Ok(())
}
