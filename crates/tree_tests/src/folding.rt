//! Shares times cells are added up by any number of workers, each of which enters once.
use share_eval::{Gate, Lane, OpenGate, fold_shares};
use spl_words::ShareFn;
use std::sync::atomic::{AtomicU64, Ordering};
use std::thread::Threads;

/// One more than the low word of a number of 128 bits.
struct Successor;

impl ShareFn for Successor {
    ghost use Rattle.std.specs.Prelude.{◌+◌, ◌%◌, ◌^◌};

    ghost bits = { λ _. 128 };

    ghost word = { λ _ x. (x % 2 ^ 64 + 1) % 2 ^ 64 };

    fn depth(&self) -> u32 {
        128
    }

    fn share(&self, x: u128) -> u64 {
        ((x % (1 << 64)) as u64).wrapping_add(1)
    }
}

/// A gate that adds two to the power of the number of each worker.
#[derive(Drop)]
struct Counter {
    entered: AtomicU64,
}

impl Gate for Counter {
    fn enter(&self, piece: u32) {
        self.entered.fetch_add(1 << (piece % 64), Ordering::SeqCst);
    }
}

/// The two words of a fold of cells of two words.
fn fold_two<T: Threads + Sync, G: Gate + Sync>(
    rt: &T,
    keys: &[u128],
    cells: &[u64],
    workers: usize,
    gate: &G,
) -> Option<[u64; 2]> {
    let mut out = [9, 9];
    let mut lanes = [Lane { sums: [7; 128] }; 64];
    if workers < 1 || workers > 64 || keys.len() > 1000 || cells.len() != keys.len() * 2 {
        return None;
    }
    let lanes = &mut lanes[..workers];
    fold_shares(
        rt, &Successor, keys, cells, 2, workers, &mut out, lanes, gate,
    );
    Some(out)
}

#[test]
fn sums_of_shares_times_cells(rt: HostRuntime) {
    let keys = [3, 0, (1 << 64) + 1, u128::MAX, 9];
    let cells = [1, 10, 5, 0, 1 << 63, 7, 99, 99, 0, 1];
    let found = [
        fold_two(&rt, &keys, &cells, 1, &OpenGate),
        fold_two(&rt, &keys, &cells, 2, &OpenGate),
        fold_two(&rt, &keys, &cells, 7, &OpenGate),
        fold_two(&rt, &keys, &cells, 64, &OpenGate),
    ];
    // 4 * 1 + 1 * 5 + 2 * 2^63 and 4 * 10 + 2 * 7 + 10 * 1, since the fourth share is 0
    assert_eq!(rt; found, [Some([9, 64]); 4]);
}

#[test]
fn sums_of_no_cells_are_zero(rt: HostRuntime) {
    assert_eq!(rt; fold_two(&rt, &[], &[], 64, &OpenGate), Some([0, 0]));
}

/// What so many workers added up as they entered.
fn entered<T: Threads + Sync>(rt: &T, workers: usize) -> Option<u64> {
    let gate = Counter {
        entered: AtomicU64::new(0),
    };
    fold_two(rt, &[5], &[1, 2], workers, &gate)?;
    Some(gate.entered.load(Ordering::SeqCst))
}

#[test]
fn each_worker_enters_once(rt: HostRuntime) {
    let found = [entered(&rt, 1), entered(&rt, 3), entered(&rt, 64)];
    assert_eq!(rt; found, [Some(1), Some(7), Some(u64::MAX)]);
}
