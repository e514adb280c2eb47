//! What the words of an answer are folded from, and how.
ghost use Rattle.std.specs.Prelude.{◌≡◌, ◌*◌, ◌^◌, ◌<◌, ◌≤◌, ℕ, All, List, None, length, replicate, IfOk};
ghost use Rattle.spl_words.specs.Folds.{AreEntries, IsFold};
ghost use Rattle.query_reader.specs.Accepted.{IsCheckedFor};
ghost use Rattle.key_frames.specs.Frames.{FrameAllowed};
ghost use Rattle.key_frames.specs.Keys.{depth};
ghost use Rattle.key_frames.specs.Trees.{key_share};
ghost use Rattle.private_plan.specs.Lengths.{trees_in};
ghost use Rattle.private_plan.specs.Plans.{kind_of, plan_of};
ghost use Rattle.private_plan.specs.Rounds.{first_tree as tree_of_first};
ghost use Rattle.session_model.specs.Answers.{answer_words};
ghost use Rattle.provider_core.specs.Cells.{AreCells, first_bits, first_entries, words_in};
ghost use Rattle.provider_core.specs.Layouts.{layout_differs};

use crate::asked::Request;
use crate::levels::{fold_level, fold_levels};
use crate::ones::row_ones;
use crate::sums::add_keys;
use cell_merge::CellTable;
use count_sum::row_cells;
use interval_keys::ThresholdEval;
use key_frames::Key;
use max_min_topk::key_cells;
use point_keys::PointEval;
use position_tables::position_cells;
use private_plan::PlanKind;
use query_reader::Checked;
use query_reader::laws::{accepted_has_cells, accepted_has_keys};
use seed_expansion::Expander;
use share_eval::{Gate, Lane, fold_shares};
use spl_values::Table;
use spl_words::Provider;
use std::alloc::{AllocError, Global};
use std::thread::Threads;

/// What a provider answers, and over which table.
#[derive(Drop)]
pub struct Folding<'a, E: Expander> {
    pub expander: &'a E,
    pub provider: Provider,
    pub asked: &'a Request,
    /// The number of the tree of the frame's first key.
    pub first_tree: u32,
    pub table: &'a Table,
}

/// The cells that the folds of a round of a plan of that kind begin with.
pub fn first_cells(
    alloc: Global,
    kind: PlanKind,
    round: u32,
    checked: &Checked,
    table: &Table,
) -> Result<CellTable, AllocError>
    requires { IsCheckedFor checked.now table.now.shape.schema }
    ensures { IfOk result (AreCells checked.now table.now (first_entries kind round) (first_bits kind round checked.now table.now)) }
{
    // What the table keeps.
    let _ = table.shape();
    match kind {
        PlanKind::Sum => row_cells(alloc, checked, table),
        PlanKind::Point | PlanKind::Aligned => key_cells(alloc, checked, table),
        PlanKind::Position if round == 2 => position_cells(alloc, checked, table),
        PlanKind::Position => row_ones(alloc, checked, table),
    }
}

/// Sets `out` to the sums of the shares under one key, in a tree of that number, times the cells.
pub fn fold_key<T: Threads + Sync, E: Expander + Sync, G: Gate + Sync>(
    rt: &T,
    gate: &G,
    folding: &Folding<E>,
    tree: u32,
    key: &Key,
    cells: &CellTable,
    lanes: &mut [Lane],
    out: &mut [u64],
)
    requires workers { (1 ≤ length lanes.old) × (length lanes.old ≤ 64) }
    requires width { (1 ≤ length out.old) × (length out.old ≤ 128) }
    requires few { length cells.now.keys ≤ 2 ^ 32 }
    requires levels { depth key.now ≤ 128 }
    requires bits { All (λ x. x < 2 ^ depth key.now) cells.now.keys }
    requires whole { length cells.now.cells ≡ length cells.now.keys * length out.old }
    ensures { (entries : List (ℕ × List ℕ)) → AreEntries (length out.old) entries cells.now.keys cells.now.cells
        → IsFold (key_share (E.meaning folding.now.expander.now) folding.now.provider tree key.now) entries (length out.old) out.new }
{
    let keys = cells.keys.as_slice();
    let cells = cells.cells.as_slice();
    let width = out.len();
    let workers = lanes.len();
    match key {
        Key::Point(point) => {
            let shares = PointEval::new(folding.expander, folding.provider, tree, point);
            fold_shares(rt, &shares, keys, cells, width, workers, out, lanes, gate);
        }
        Key::Threshold(threshold) => {
            let shares = ThresholdEval::new(folding.expander, folding.provider, tree, threshold);
            fold_shares(rt, &shares, keys, cells, width, workers, out, lanes, gate);
        }
    }
}

/// Leaves the words of an answer, for a plan of that kind and the cells that its folds begin with, in words that are all
/// zeros. What `part` holds, which has as many words as a cell, means nothing. Takes no memory.
pub fn fill_words<T: Threads + Sync, E: Expander + Sync, G: Gate + Sync>(
    rt: &T,
    gate: &G,
    folding: &Folding<E>,
    kind: PlanKind,
    cells: &mut CellTable,
    lanes: &mut [Lane],
    part: &mut [u64],
    words: &mut [u64],
)
    requires checked { IsCheckedFor folding.now.asked.now.checked folding.now.table.now.shape.schema }
    requires allowed { FrameAllowed folding.now.asked.now.frame }
    requires placed { layout_differs 0 (trees_in (plan_of folding.now.asked.now.checked folding.now.table.now.shape) folding.now.asked.now.frame.round) folding.now.asked.now.frame.keys ≡ None }
    requires kind { kind ≡ kind_of folding.now.asked.now.checked folding.now.table.now.shape.schema.columns }
    requires tree { folding.now.first_tree ≡ tree_of_first (plan_of folding.now.asked.now.checked folding.now.table.now.shape) folding.now.asked.now.frame.round }
    requires cells { AreCells folding.now.asked.now.checked folding.now.table.now (first_entries kind folding.now.asked.now.frame.round) (first_bits kind folding.now.asked.now.frame.round folding.now.asked.now.checked folding.now.table.now) cells.old }
    requires workers { (1 ≤ length lanes.old) × (length lanes.old ≤ 64) }
    requires part { length part.old ≡ cells.old.width }
    requires room { words.old ≡ replicate (words_in (plan_of folding.now.asked.now.checked folding.now.table.now.shape) folding.now.asked.now.frame.round) 0 }
    ensures { words.new ≡ answer_words (E.meaning folding.now.expander.now) folding.now.provider folding.now.asked.now.frame.round folding.now.asked.now.frame.keys folding.now.asked.now.checked folding.now.table.now }
{
    // What the table and the accepted query keep.
    let _ = folding.table.shape();
    accepted_has_cells();
    accepted_has_keys();
    match kind {
        PlanKind::Sum => add_keys(rt, gate, folding, cells, lanes, part, words),
        PlanKind::Point | PlanKind::Aligned => fold_levels(rt, gate, folding, cells, lanes, words),
        PlanKind::Position if folding.asked.frame.round == 2 => {
            fold_levels(rt, gate, folding, cells, lanes, words)
        }
        PlanKind::Position => {
            let bits = folding.asked.checked.bits as usize;
            fold_level(rt, gate, folding, bits, cells, lanes, words)
        }
    }
}
