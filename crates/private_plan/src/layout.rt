//! The plan of a query.
ghost use Rattle.std.specs.Prelude.{◌≡◌, ◌≤◌, ◌<◌, ◌*◌, ◌++◌, ◌^◌, length, replicate, IfOk};
ghost use Rattle.std.specs.List.{list_all, flat_map, range_with_len};
ghost use Rattle.cell_merge.specs.Cells.{cell_width};
ghost use Rattle.query_reader.specs.Accepted.{IsCheckedFor};
ghost use Rattle.private_plan.specs.declared.plans.PlanKind.TheVariants as kind;
ghost use Rattle.private_plan.specs.Plans.{is_sum as sum_test, last_bits as bits_of_last, kind_for, tree as tree_of, level_trees, slot_trees, second_trees, for_each_slot, position_bits as bits_of_positions, words_back as words_for, rounds_of, kind_of, plan_of};

use crate::columns::last_bits;
use crate::plans::{Plan, PlanKind, Specs};
use cell_merge::{CellItem, width};
use query_reader::Checked;
use query_reader::laws::{accepted_has_cells, accepted_has_keys};
use spl_values::Shape;
use spl_words::{KeySpec, TreeKind};
use std::alloc::{AllocError, Global};

/// Whether the item's words add up.
fn is_sum(item: &CellItem) -> bool
    ensures { result ≡ sum_test item.now }
{
    match *item {
        CellItem::Count | CellItem::Sum(_) | CellItem::Avg(_) => true,
        CellItem::Max(_) | CellItem::Min(_) | CellItem::TopK(_, _, _) => false,
    }
}

fn only_sums(items: &[CellItem]) -> bool
    ensures { result ≡ list_all sum_test items.now }
{
    items.iter().all(is_sum)
}

/// The kind of a plan for a range, or none, over a last column of so many bits.
fn kind(sums: bool, range: bool, bits: u32) -> PlanKind
    ensures { result ≡ kind_for sums range bits }
{
    match (sums, range) {
        (true, _) => PlanKind::Sum,
        (false, false) => PlanKind::Point,
        (false, true) if bits <= 16 => PlanKind::Aligned,
        (false, true) => PlanKind::Position,
    }
}

fn tree(kind: TreeKind, depth: u32) -> KeySpec
    ensures { result ≡ tree_of kind depth }
{
    KeySpec { kind, depth }
}

/// Adds, for each level from 0 on, two point trees, each level's a bit less deep than those before.
fn push_levels(trees: &mut Vec<KeySpec>, depth: u32, levels: u32) -> Result<(), AllocError>
    requires { levels ≤ depth }
    ensures trees { IfOk result (λ _. trees.new.items ≡ trees.old.items ++ level_trees depth levels) }
{
    for level in 0..levels {
        push_twice(trees, tree(TreeKind::Point, depth - level))?;
    }
    Ok(())
}

fn push_twice(trees: &mut Vec<KeySpec>, tree: KeySpec) -> Result<(), AllocError>
    ensures trees { IfOk result (λ _. trees.new.items ≡ trees.old.items ++ replicate 2 tree) }
{
    trees.push(tree)?;
    trees.push(tree)?;
    Ok(())
}

/// What a plan follows from.
#[derive(Clone, Copy)]
pub(crate) struct Sizes {
    pub kind: PlanKind,
    pub range: bool,
    /// How many slots there are, at most 8.
    pub slots: u32,
    /// The bits of the joined key.
    pub bits: u32,
    /// The bits of its last column, which a range is over.
    pub last_bits: u32,
    /// The words of a cell, at most 128.
    pub cell: u32,
    /// The number of rows, at most 262,144.
    pub rows: u32,
}

/// Adds the trees of one slot in the first round.
fn push_first(trees: &mut Vec<KeySpec>, sizes: &Sizes) -> Result<(), AllocError>
    requires { sizes.now.last_bits ≤ sizes.now.bits }
    ensures trees { IfOk result (λ _. trees.new.items ≡ trees.old.items ++ slot_trees sizes.now.kind sizes.now.range sizes.now.bits sizes.now.last_bits) }
{
    match (sizes.kind, sizes.range) {
        (PlanKind::Sum, false) | (PlanKind::Point, _) => {
            trees.push(tree(TreeKind::Point, sizes.bits))?;
            Ok(())
        }
        (PlanKind::Sum, true) | (PlanKind::Position, _) => {
            push_twice(trees, tree(TreeKind::Threshold, sizes.bits))
        }
        (PlanKind::Aligned, _) => push_levels(trees, sizes.bits, sizes.last_bits),
    }
}

/// The least number of bits, at least 1, that tell so many rows apart.
pub(crate) fn position_bits(rows: u32) -> u32
    requires { rows ≤ 262144 }
    ensures { result ≡ bits_of_positions rows }
{
    for bits in 1..18 {
        if rows <= 2u32.pow(bits) {
            return bits;
        }
    }
    18
}

/// Adds the trees of one slot in the second round.
fn push_second(trees: &mut Vec<KeySpec>, sizes: &Sizes) -> Result<(), AllocError>
    requires { sizes.now.rows ≤ 262144 }
    ensures trees { IfOk result (λ _. trees.new.items ≡ trees.old.items ++ second_trees sizes.now.kind sizes.now.rows) }
{
    match sizes.kind {
        PlanKind::Position => {
            let bits = position_bits(sizes.rows);
            push_levels(trees, bits, bits)
        }
        PlanKind::Sum | PlanKind::Point | PlanKind::Aligned => Ok(()),
    }
}

/// The trees of the first round.
fn first(alloc: Global, sizes: &Sizes) -> Result<Vec<KeySpec>, AllocError>
    requires inside { sizes.now.last_bits ≤ sizes.now.bits }
    requires narrow { sizes.now.kind ≡ kind.Aligned → sizes.now.last_bits ≤ 16 }
    requires slots { sizes.now.slots ≤ 8 }
    ensures few { IfOk result (λ trees. length trees.items ≤ 512) }
    ensures trees { IfOk result (λ trees. trees.items ≡ for_each_slot sizes.now.slots (slot_trees sizes.now.kind sizes.now.range sizes.now.bits sizes.now.last_bits)) }
{
    let mut trees = Vec::new(alloc);
    for _ in 0..sizes.slots {
        push_first(&mut trees, sizes)?;
    }
    Ok(trees)
}

/// The trees of the second round.
fn second(alloc: Global, sizes: &Sizes) -> Result<Vec<KeySpec>, AllocError>
    requires rows { sizes.now.rows ≤ 262144 }
    requires slots { sizes.now.slots ≤ 8 }
    ensures few { IfOk result (λ trees. length trees.items ≤ 512) }
    ensures trees { IfOk result (λ trees. trees.items ≡ for_each_slot sizes.now.slots (second_trees sizes.now.kind sizes.now.rows)) }
{
    let mut trees = Vec::new(alloc);
    for _ in 0..sizes.slots {
        push_second(&mut trees, sizes)?;
    }
    Ok(trees)
}

/// How many words come back for so many trees.
fn words_back(kind: PlanKind, trees: usize, cell: u32) -> u32
    requires trees { trees ≤ 512 }
    requires cell { cell ≤ 128 }
    ensures { result ≡ words_for kind trees cell }
{
    match kind {
        PlanKind::Sum => cell,
        PlanKind::Point | PlanKind::Aligned => cell_words(trees, cell),
        PlanKind::Position => trees as u32,
    }
}

/// How many words so many cells have.
fn cell_words(cells: usize, cell: u32) -> u32
    requires cells { cells ≤ 512 }
    requires cell { cell ≤ 128 }
    ensures { result ≡ cells * cell }
{
    cells as u32 * cell
}

fn rounds(kind: PlanKind) -> u32
    ensures { result ≡ rounds_of kind }
{
    match kind {
        PlanKind::Position => 2,
        PlanKind::Sum | PlanKind::Point | PlanKind::Aligned => 1,
    }
}

/// What the plan of a query follows from.
pub(crate) fn sizes_of(checked: &Checked, shape: &Shape) -> Sizes
    requires { IsCheckedFor checked.now shape.now.schema }
    ensures kind { result.kind ≡ kind_of checked.now shape.now.schema.columns }
    ensures range { result.range ≡ checked.now.range }
    ensures slots { result.slots ≡ checked.now.branches }
    ensures bits { result.bits ≡ checked.now.bits }
    ensures last { result.last_bits ≡ bits_of_last shape.now.schema.columns checked.now.columns }
    ensures cell { result.cell ≡ cell_width checked.now.spec }
    ensures rows { result.rows ≡ shape.now.rows }
    ensures eight { result.slots ≤ 8 }
    ensures inside { result.last_bits ≤ result.bits }
    ensures small { result.cell ≤ 128 }
    ensures few { result.rows ≤ 262144 }
    ensures narrow { result.kind ≡ kind.Aligned → result.last_bits ≤ 16 }
{
    checked.query.facts();
    accepted_has_keys();
    accepted_has_cells();
    let last_bits = last_bits(&shape.schema, checked.columns.as_slice());
    let sums = only_sums(checked.spec.items.as_slice());
    Sizes {
        kind: kind(sums, checked.range, last_bits),
        range: checked.range,
        slots: checked.branches,
        bits: checked.bits,
        last_bits,
        cell: width(&checked.spec) as u32,
        rows: shape.rows,
    }
}

/// The plan of a query over tables of that shape.
///
/// # Errors
///
/// Only for want of memory.
pub fn plan(alloc: Global, checked: &Checked, shape: &Shape) -> Result<Plan, AllocError>
    requires { IsCheckedFor checked.now shape.now.schema }
    ensures { IfOk result (λ plan. plan ≡ plan_of checked.now shape.now) }
{
    let sizes = sizes_of(checked, shape);
    let first = first(alloc, &sizes)?;
    let second = second(alloc, &sizes)?;
    Ok(Plan {
        kind: sizes.kind,
        rounds: rounds(sizes.kind),
        first_words: words_back(sizes.kind, first.len(), sizes.cell),
        second_words: cell_words(second.len(), sizes.cell),
        first: Specs::from_vec(first),
        second: Specs::from_vec(second),
    })
}
